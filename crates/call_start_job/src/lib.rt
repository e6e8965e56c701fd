// A job begun that is handed over in portions (document 02): what it does to the slot is `slot_portion`'s. The contract is the equation with the definition of that call.
#![tactic(auto)]

ghost use Rattle.std.specs.Prelude.{◌≡◌, [], length};
ghost use Rattle.definition.specs.Ending.{end, end_of};
ghost use Rattle.definition.specs.Portions.{start_job, start_on};

use channel::{ChannelIndex, Served, Table};

// Sets a job's credits aside and writes the head of its first frame at the buffer's start; says how many frames it has, and on which link they go out.
pub fn start_job(t: Table, slot: ChannelIndex, stated: usize, buffer: &mut [u8]) -> Served
    ensures { end result [] buffer.new [] ≡ end_of t [] [] buffer.old [] (start_job t slot.0 stated (length buffer.old)) }
{
    let s = table::number(slot);
    match table_gate::gate(t, None, None, None, Some(s)) {
        Err(r) => table::refused(t, r),
        Ok(()) => start_on(t, s, stated, buffer),
    }
}

// The same behind the gate.
fn start_on(t: Table, s: usize, stated: usize, buffer: &mut [u8]) -> Served
    ensures { end result [] buffer.new [] ≡ end_of t [] [] buffer.old [] (start_on t s stated (length buffer.old)) }
{
    let x = table::slot_at(t, s);
    let w = slot_portion::start_from(x, stated, buffer);
    let a = w.answer;
    let y = w.slot;
    table::changed(t, s, y, a, w.octets)
}
