// A channel that our side leaves, behind the gate, which has found the room to be as long as the table says. Its contract is the equation with the definition of that name.
ghost use Rattle.std.specs.Prelude.{◌≡◌, [], length, ◌<◌};
ghost use Rattle.definition.specs.Ending.{end, end_of};
ghost use Rattle.definition.specs.Closing.{disconnecting};
ghost use Rattle.table_room.specs.Placed.{RoomOf};

use channel::{Answer, ChannelState, Served, Table};

// Our side turns Connected into Disconnecting; nothing in another state.
pub fn disconnecting(t: Table, room: &mut [u8], s: usize) -> Served
    requires { RoomOf t (length room.old) × (s < t.n) }
    ensures { end result room.new [] [] ≡ end_of t [] room.old [] [] (disconnecting t s) }
{
    let x = table::slot_at(t, s);
    let k = x.state;
    if table_state::is_connected(k) {
        return table_endings::leave(
            t,
            room,
            s,
            x,
            ChannelState::Disconnecting(false),
            Answer::Done,
        );
    }
    table::done(t)
}
