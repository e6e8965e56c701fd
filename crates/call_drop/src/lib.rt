// A pending connection dropped without a response (drop in the original). The contract is the equation with the definition of that call, for
// the answer, the table and every lent slice.
#![tactic(auto)]

ghost use Rattle.std.specs.Prelude.{◌≡◌, [], length};
ghost use Rattle.definition.specs.Ending.{end, end_of};
ghost use Rattle.definition.specs.Pending.{drop_pending};

use channel::{Answer, ChannelIndex, Served, Table};
use codes::Refusal;

// Drops a pending connection without a response: the hold falls by one, and a pending is freed.
pub fn drop_pending(t: Table, room: &mut [u8], slot: ChannelIndex) -> Served
    ensures { end result room.new [] [] ≡ end_of t [] room.old [] [] (drop_pending t (length room.old) slot.0) }
{
    let s = table::number(slot);
    match table_gate::gate(t, Some(room.len()), None, None, Some(s)) {
        Err(r) => table::refused(t, r),
        Ok(()) => {
            let x = table::slot_at(t, s);
            let k = x.state;
            if table_state::is_connected(k) {
                return table::done(t);
            }
            let hold = x.hold;
            if hold == 0 {
                return table::refused(t, Refusal::Held);
            }
            let y = table_slot::with_hold(x, hold - 1);
            if table_state::is_peer_connecting(k) {
                return table_endings::free(t, room, s, y, Answer::Done);
            }
            table_endings::alter(t, s, y, Answer::Done)
        }
    }
}
