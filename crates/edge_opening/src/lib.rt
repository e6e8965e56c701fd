// The calls of our own attempts, each on octets: the table read, the call, the table and the answer written back.
// Each is defined in specs/Opening.antt, by the call's own definition lifted through the two layouts. The exported names are in `entries`.
#![tactic(auto)]

ghost use Rattle.std.specs.Prelude.{◌≡◌, []};
ghost use Rattle.edge.specs.Edge.{edge};
ghost use Rattle.edge_opening.specs.Opening.{create_edge, opened_edge, give_up_edge};

use channel::ChannelIndex;

// Asks the peer for a channel.
pub fn create(
    table: &mut [u8],
    answer: &mut [u8],
    signal: &mut [u8],
    link: u16,
    spsm: u16,
    mtu: u32,
    mps: u32,
    kind: u8,
    value: u16,
    credits: u32,
) -> u32
    ensures { edge result table.new answer.new [] signal.new [] ≡ create_edge table.old answer.old signal.old link spsm mtu mps kind value credits }
{
    let d = edge_layout_decode::decode(table);
    let t = d.table;
    let c = edge::config(mtu, mps, kind, value, credits);
    let s = call_create::create(t, signal, link, spsm, c);
    edge::store(table, answer, d.ok, s)
}

// Is the channel of a slot open?
pub fn opened(
    table: &mut [u8],
    answer: &mut [u8],
    room: &mut [u8],
    slot: u8,
    link: u16,
    up: u8,
) -> u32
    ensures { edge result table.new answer.new room.new [] [] ≡ opened_edge table.old answer.old room.old slot link up }
{
    let d = edge_layout_decode::decode(table);
    let t = d.table;
    let s = call_opened::opened(t, room, ChannelIndex(slot), link, up != 0);
    edge::store(table, answer, d.ok, s)
}

// Gives up an attempt.
pub fn give_up(table: &mut [u8], answer: &mut [u8], room: &mut [u8], slot: u8) -> u32
    ensures { edge result table.new answer.new room.new [] [] ≡ give_up_edge table.old answer.old room.old slot }
{
    let d = edge_layout_decode::decode(table);
    let t = d.table;
    let s = call_give_up::give_up(t, room, ChannelIndex(slot));
    edge::store(table, answer, d.ok, s)
}
