// The two calls that hold a channel, each on octets: the table read, the call, the table and the answer written back. Each is defined in
// specs/Holding.antt, by the call's own definition lifted through the two layouts. The exported names are in `entries`.
ghost use Rattle.std.specs.Prelude.{◌≡◌, []};
ghost use Rattle.edge.specs.Edge.{edge};
ghost use Rattle.edge_closing.specs.Holding.{inc_ref_edge, dec_ref_edge};

use channel::ChannelIndex;

// One hold more.
pub fn inc_ref(table: &mut [u8], answer: &mut [u8], slot: u8) -> u32
    ensures { edge result table.new answer.new [] [] [] ≡ inc_ref_edge table.old answer.old slot }
{
    let d = edge_layout_decode::decode(table);
    let t = d.table;
    let s = call_hold::inc_ref(t, ChannelIndex(slot));
    edge::store(table, answer, d.ok, s)
}

// One hold less.
pub fn dec_ref(table: &mut [u8], answer: &mut [u8], room: &mut [u8], slot: u8) -> u32
    ensures { edge result table.new answer.new room.new [] [] ≡ dec_ref_edge table.old answer.old room.old slot }
{
    let d = edge_layout_decode::decode(table);
    let t = d.table;
    let s = call_hold::dec_ref(t, room, ChannelIndex(slot));
    edge::store(table, answer, d.ok, s)
}
