// A job sent on a slot (`send` in the original): what it does to the slot is `slot_send`'s. The contract is the equation with the definition of that call.
#![tactic(auto)]

ghost use Rattle.std.specs.Prelude.{◌≡◌, [], length};
ghost use Rattle.definition.specs.Ending.{end, end_of};
ghost use Rattle.definition.specs.Frames.{send, sent_on};

use channel::{ChannelIndex, Served, Table};

// Writes a job's frames at the output's start, and says on which link they go out.
pub fn send(t: Table, slot: ChannelIndex, sdu: &[u8], out: &mut [u8]) -> Served
    ensures { end result [] out.new [] ≡ end_of t sdu.now [] out.old [] (send t slot.0 (length sdu.now) (length out.old)) }
{
    let s = table::number(slot);
    match table_gate::gate(t, None, None, None, Some(s)) {
        Err(r) => table::refused(t, r),
        Ok(()) => send_on(t, s, sdu, out),
    }
}

// The same behind the gate.
fn send_on(t: Table, s: usize, sdu: &[u8], out: &mut [u8]) -> Served
    ensures { end result [] out.new [] ≡ end_of t sdu.now [] out.old [] (sent_on t s (length sdu.now) (length out.old)) }
{
    let x = table::slot_at(t, s);
    let w = slot_send::send_from(x, sdu, out);
    let a = w.answer;
    let y = w.slot;
    table::changed(t, s, y, a, w.octets)
}
