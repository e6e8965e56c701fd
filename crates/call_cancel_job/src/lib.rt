// An open job given up (document 02): what it does to the slot is `slot_portion`'s. The contract is the equation with the definition of that call.
#![tactic(auto)]

ghost use Rattle.std.specs.Prelude.{◌≡◌, [], length};
ghost use Rattle.definition.specs.Ending.{end, end_of};
ghost use Rattle.definition.specs.Portions.{cancel_job};

use channel::{ChannelIndex, Served, Table};

// Gives the job that is open up: its credits return, or, once a frame was given out, the channel is left.
pub fn cancel_job(t: Table, room: &mut [u8], slot: ChannelIndex) -> Served
    ensures { end result room.new [] [] ≡ end_of t [] room.old [] [] (cancel_job t (length room.old) slot.0) }
{
    let s = table::number(slot);
    match table_gate::gate(t, Some(room.len()), None, None, Some(s)) {
        Err(r) => table::refused(t, r),
        Ok(()) => {
            let x = table::slot_at(t, s);
            let w = slot_portion::cancel_at(room, t.d, t.m, s, x);
            let a = w.answer;
            let y = w.slot;
            table::changed(t, s, y, a, w.octets)
        }
    }
}
