// The calls of connections that the peer asks for, each on octets: the table read, the call, the table and the answer written back.
// Each is defined in specs/Pending.antt, by the call's own definition lifted through the two layouts. The exported names are in `entries`.
#![tactic(auto)]

ghost use Rattle.std.specs.Prelude.{◌≡◌, []};
ghost use Rattle.edge.specs.Edge.{edge};
ghost use Rattle.edge_pending.specs.Pending.{next_pending_edge, accept_pending_edge, reject_pending_edge, reject_all_pending_edge, drop_pending_edge};

use channel::ChannelIndex;

// The lowest pending of a link; up: is the link up?
pub fn next_pending(table: &mut [u8], answer: &mut [u8], link: u16, up: u8) -> u32
    ensures { edge result table.new answer.new [] [] [] ≡ next_pending_edge table.old answer.old link up }
{
    let d = edge_layout_decode::decode(table);
    let t = d.table;
    let s = call_next_pending::next_pending(t, link, up != 0);
    edge::store(table, answer, d.ok, s)
}

// Accepts the pending of a slot.
pub fn accept_pending(
    table: &mut [u8],
    answer: &mut [u8],
    signal: &mut [u8],
    slot: u8,
    mtu: u32,
    mps: u32,
    kind: u8,
    value: u16,
    credits: u32,
) -> u32
    ensures { edge result table.new answer.new [] signal.new [] ≡ accept_pending_edge table.old answer.old signal.old slot mtu mps kind value credits }
{
    let d = edge_layout_decode::decode(table);
    let t = d.table;
    let c = edge::config(mtu, mps, kind, value, credits);
    let s = call_accept::accept_pending(t, signal, ChannelIndex(slot), c);
    edge::store(table, answer, d.ok, s)
}

// Rejects the pending of a slot with a result code; a number that is none is refusal 15.
pub fn reject_pending(
    table: &mut [u8],
    answer: &mut [u8],
    room: &mut [u8],
    signal: &mut [u8],
    slot: u8,
    res: u16,
) -> u32
    ensures { edge result table.new answer.new room.new signal.new [] ≡ reject_pending_edge table.old answer.old room.old signal.old slot res }
{
    let d = edge_layout_decode::decode(table);
    let t = d.table;
    let s = call_reject::reject_pending(t, room, signal, ChannelIndex(slot), res);
    edge::store(table, answer, d.ok, s)
}

// Rejects the lowest pending of a link that nobody holds.
pub fn reject_all_pending(
    table: &mut [u8],
    answer: &mut [u8],
    room: &mut [u8],
    signal: &mut [u8],
    link: u16,
) -> u32
    ensures { edge result table.new answer.new room.new signal.new [] ≡ reject_all_pending_edge table.old answer.old room.old signal.old link }
{
    let d = edge_layout_decode::decode(table);
    let t = d.table;
    let s = call_reject_all::reject_all_pending(t, room, signal, link);
    edge::store(table, answer, d.ok, s)
}

// Drops the pending of a slot.
pub fn drop_pending(table: &mut [u8], answer: &mut [u8], room: &mut [u8], slot: u8) -> u32
    ensures { edge result table.new answer.new room.new [] [] ≡ drop_pending_edge table.old answer.old room.old slot }
{
    let d = edge_layout_decode::decode(table);
    let t = d.table;
    let s = call_drop::drop_pending(t, room, ChannelIndex(slot));
    edge::store(table, answer, d.ok, s)
}
