// The next disconnect to be told to the peer (`poll_disconnecting` in the original). The contract is the equation with the definition of that call.
#![tactic(auto)]

mod behind;

ghost use Rattle.std.specs.Prelude.{◌≡◌, [], length};
ghost use Rattle.definition.specs.Ending.{end, end_of};
ghost use Rattle.definition.specs.Closing.{next_disconnect};

use channel::{Served, Table};
use table_slot::Want;

// The next disconnect: the response to the peer's request, and the slot is freed; or our own request, and the slot is marked.
pub fn next_disconnect(t: Table, room: &mut [u8], signal: &mut [u8]) -> Served
    ensures { end result room.new signal.new [] ≡ end_of t [] room.old signal.old [] (next_disconnect t (length room.old) (length signal.old)) }
{
    match table_gate::gate(t, Some(room.len()), Some(signal.len()), None, None) {
        Err(r) => table::refused(t, r),
        Ok(()) => {
            let s = table::find(t, Want::Due);
            if t.n <= s {
                return table::done(t);
            }
            let x = table::slot_at(t, s);
            let k = x.state;
            if table_state::is_peer_disconnecting(k) {
                return behind::respond(t, room, signal, s, x);
            }
            behind::request(t, signal, s, x)
        }
    }
}
