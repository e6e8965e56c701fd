// The opened query of a slot that is in use and of the link asked: what has ended is freed, and Connected takes a hold. It stands behind the gate,
// which has found the room to be as long as the table says. Its contract is the equation with the
// definition of that name.
ghost use Rattle.std.specs.Prelude.{◌≡◌, [], ◌<◌, length};
ghost use Rattle.definition.specs.Ending.{end, end_of};
ghost use Rattle.definition.specs.Opening.{polled};
ghost use Rattle.table_room.specs.Placed.{RoomOf};

use channel::{Answer, Served, Slot, Table};
use codes::Refusal;

// Has slot s, as x, opened?
pub fn polled(t: Table, room: &mut [u8], s: usize, x: Slot, up: bool) -> Served
    requires { RoomOf t (length room.old) × (s < t.n) }
    ensures { end result room.new [] [] ≡ end_of t [] room.old [] [] (polled t s x up) }
{
    let k = x.state;
    if !up {
        return table_endings::free(t, room, s, x, Answer::Refused(Refusal::Disconnected));
    }
    if table_state::is_peer_disconnecting(k) | table_state::is_disconnecting(k) {
        return table_endings::free(t, room, s, x, Answer::Refused(Refusal::Disconnected));
    }
    if table_state::is_connect_failed(k) {
        let e = table_state::failure_of(k);
        return table_endings::free(t, room, s, x, Answer::Refused(Refusal::ConnectError(e)));
    }
    if !table_state::is_connected(k) {
        return table::done(t);
    }
    if x.hold != 0 {
        return table::refused(t, Refusal::Held);
    }
    table_endings::alter(t, s, table_slot::with_hold(x, 1), Answer::Opened)
}
