// A connection that we asked for given up (the clean-up of `poll_created` in the original). The contract is the equation with the definition
// of that call.
#![tactic(auto)]

ghost use Rattle.std.specs.Prelude.{◌≡◌, [], length};
ghost use Rattle.definition.specs.Ending.{end, end_of};
ghost use Rattle.definition.specs.Opening.{give_up};

use channel::{Answer, ChannelIndex, Served, Table};
use codes::Refusal;

// Gives our attempt up.
pub fn give_up(t: Table, room: &mut [u8], slot: ChannelIndex) -> Served
    ensures { end result room.new [] [] ≡ end_of t [] room.old [] [] (give_up t (length room.old) slot.0) }
{
    let s = table::number(slot);
    match table_gate::gate(t, Some(room.len()), None, None, Some(s)) {
        Err(r) => table::refused(t, r),
        Ok(()) => {
            let x = table::slot_at(t, s);
            let k = x.state;
            if table_state::is_connecting(k)
                | (table_state::is_connect_failed(k)
                    | (table_state::is_connected(k) & (x.hold == 0)))
            {
                return table_endings::free(t, room, s, x, Answer::Done);
            }
            table::refused(t, Refusal::NotFound)
        }
    }
}
