// The calls that end a channel, each on octets: the table read, the call, the table and the answer written back. Each is defined
// in specs/Closing.antt, by the call's own definition lifted through the two layouts. The exported names are in `entries`.
#![tactic(auto)]

mod hold;

ghost use Rattle.std.specs.Prelude.{◌≡◌, []};
ghost use Rattle.edge.specs.Edge.{edge};
ghost use Rattle.edge_closing.specs.Closing.{disconnect_edge, disconnect_by_cid_edge, disconnected_edge, next_disconnect_edge};

use channel::{ChannelIndex, Cid};
pub use hold::{dec_ref, inc_ref};

// Disconnects a slot.
pub fn disconnect(table: &mut [u8], answer: &mut [u8], room: &mut [u8], slot: u8) -> u32
    ensures { edge result table.new answer.new room.new [] [] ≡ disconnect_edge table.old answer.old room.old slot }
{
    let d = edge_layout_decode::decode(table);
    let t = d.table;
    let s = call_disconnect::disconnect(t, room, ChannelIndex(slot));
    edge::store(table, answer, d.ok, s)
}

// Disconnects the slot of a CID.
pub fn disconnect_by_cid(table: &mut [u8], answer: &mut [u8], room: &mut [u8], cid: u16) -> u32
    ensures { edge result table.new answer.new room.new [] [] ≡ disconnect_by_cid_edge table.old answer.old room.old cid }
{
    let d = edge_layout_decode::decode(table);
    let t = d.table;
    let s = call_disconnect::disconnect_by_cid(t, room, Cid(cid));
    edge::store(table, answer, d.ok, s)
}

// A link is down.
pub fn disconnected(table: &mut [u8], answer: &mut [u8], room: &mut [u8], link: u16) -> u32
    ensures { edge result table.new answer.new room.new [] [] ≡ disconnected_edge table.old answer.old room.old link }
{
    let d = edge_layout_decode::decode(table);
    let t = d.table;
    let s = call_link_down::disconnected(t, room, link);
    edge::store(table, answer, d.ok, s)
}

// The next disconnect that is due.
pub fn next_disconnect(
    table: &mut [u8],
    answer: &mut [u8],
    room: &mut [u8],
    signal: &mut [u8],
) -> u32
    ensures { edge result table.new answer.new room.new signal.new [] ≡ next_disconnect_edge table.old answer.old room.old signal.old }
{
    let d = edge_layout_decode::decode(table);
    let t = d.table;
    let s = call_next_disconnect::next_disconnect(t, room, signal);
    edge::store(table, answer, d.ok, s)
}
