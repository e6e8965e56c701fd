// A portion of an open job (document 02): what it does to the slot is `slot_portion`'s. The contract is the equation with the definition of that call.
#![tactic(auto)]

ghost use Rattle.std.specs.Prelude.{◌≡◌, [], length};
ghost use Rattle.definition.specs.Ending.{end, end_of};
ghost use Rattle.definition.specs.Portions.{give_portion, portion_on};

use channel::{ChannelIndex, Served, Table};

// Takes a portion into the frame that is being filled in the buffer, as far as that reaches; a frame that is full is given out.
pub fn give_portion(t: Table, slot: ChannelIndex, octets: &[u8], buffer: &mut [u8]) -> Served
    ensures { end result [] buffer.new [] ≡ end_of t octets.now [] buffer.old [] (give_portion t slot.0 (length octets.now) (length buffer.old)) }
{
    let s = table::number(slot);
    match table_gate::gate(t, None, None, None, Some(s)) {
        Err(r) => table::refused(t, r),
        Ok(()) => portion_on(t, s, octets, buffer),
    }
}

// The same behind the gate.
fn portion_on(t: Table, s: usize, octets: &[u8], buffer: &mut [u8]) -> Served
    ensures { end result [] buffer.new [] ≡ end_of t octets.now [] buffer.old [] (portion_on t s (length octets.now) (length buffer.old)) }
{
    let x = table::slot_at(t, s);
    let w = slot_portion::portion_from(x, octets, buffer);
    let a = w.answer;
    let y = w.slot;
    table::changed(t, s, y, a, w.octets)
}
