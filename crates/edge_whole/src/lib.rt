// Calls that work on the table's octets where they stand, made by value: the whole table read, the call, the table and the answer written back. Their contracts are the entries' own, word for word. Nothing here is in
// the archive of `entries`: bindings/c/forged.c links both, and holds one to the other on tables that no call wrote.
#![tactic(auto)]

ghost use Rattle.std.specs.Prelude.{◌≡◌, []};
ghost use Rattle.edge.specs.Edge.{edge};
ghost use Rattle.edge_placed.specs.Frames.{dispatch_edge, send_edge, receive_edge};
ghost use Rattle.edge_signals.specs.Signals.{signal_edge};

use channel::{ChannelIndex, Cid};

// A frame that came in.
#[unsafe(no_mangle)]
pub extern "C" fn whole_dispatch(
    table: &mut [u8],
    answer: &mut [u8],
    room: &mut [u8],
    link: u16,
    cid: u16,
    payload: &[u8],
) -> u32
    ensures { edge result table.new answer.new room.new [] [] ≡ dispatch_edge table.old answer.old room.old link cid payload.now }
{
    let d = edge_layout_decode::decode(table);
    let t = d.table;
    let s = call_dispatch::dispatch(t, room, link, Cid(cid), payload);
    edge::store(table, answer, d.ok, s)
}

// Cuts a job into frames.
#[unsafe(no_mangle)]
pub extern "C" fn whole_send(
    table: &mut [u8],
    answer: &mut [u8],
    out: &mut [u8],
    slot: u8,
    sdu: &[u8],
) -> u32
    ensures { edge result table.new answer.new [] out.new [] ≡ send_edge table.old answer.old out.old slot sdu.now }
{
    let d = edge_layout_decode::decode(table);
    let t = d.table;
    let s = call_send::send(t, ChannelIndex(slot), sdu, out);
    edge::store(table, answer, d.ok, s)
}

// Takes the oldest job that waits in a slot.
#[unsafe(no_mangle)]
pub extern "C" fn whole_receive(
    table: &mut [u8],
    answer: &mut [u8],
    room: &mut [u8],
    signal: &mut [u8],
    job: &mut [u8],
    slot: u8,
) -> u32
    ensures { edge result table.new answer.new room.new signal.new job.new ≡ receive_edge table.old answer.old room.old signal.old job.old slot }
{
    let d = edge_layout_decode::decode(table);
    let t = d.table;
    let s = call_receive::receive(t, room, signal, ChannelIndex(slot), job);
    edge::store(table, answer, d.ok, s)
}

// The first signal of a PDU.
#[unsafe(no_mangle)]
pub extern "C" fn whole_signal(
    table: &mut [u8],
    answer: &mut [u8],
    room: &mut [u8],
    signal: &mut [u8],
    link: u16,
    listening: u8,
    central: u8,
    pdu: &[u8],
) -> u32
    ensures { edge result table.new answer.new room.new signal.new [] ≡ signal_edge table.old answer.old room.old signal.old link listening central pdu.now }
{
    let d = edge_layout_decode::decode(table);
    let t = d.table;
    let s = call_signal::signal(t, room, signal, link, listening != 0, central != 0, pdu);
    edge::store(table, answer, d.ok, s)
}
