// The peer's disconnect responses: code 0x07 (`handle_disconnect_response` in the original). They stand behind the gate, which has found room
// and signal buffer to be as long as the table says; `on_disconnection_res` is `pub` for the signal call alone. Its contract is the equation
// with the definition's handler.
ghost use Rattle.std.specs.Prelude.{◌≡◌, [], ◌≤◌, length};
ghost use Rattle.channel.specs.Limits.{signal_most};
ghost use Rattle.definition.specs.Ending.{end, end_of};
ghost use Rattle.definition.specs.Signals.{on_disconnection_res};
ghost use Rattle.table_room.specs.Placed.{RoomOf};

use channel::{Answer, Cid, Served, Table};
use signal_forms::DisconnectionRes;

// Code 0x07: the slot of this link that waits for it is freed.
pub fn on_disconnection_res(
    t: Table,
    room: &mut [u8],
    out: &mut [u8],
    link: u16,
    id: u8,
    read: Option<DisconnectionRes>,
) -> Served
    requires { RoomOf t (length room.old) × (signal_most ≤ length out.old) }
    ensures { end result room.new out.new [] ≡ end_of t [] room.old out.old [] (on_disconnection_res t link id read) }
{
    match read {
        None => on_rejects::bad_body(t, out, id),
        Some(res) => {
            let cid = Cid(res.scid);
            if !table::is_cid(t, cid) {
                return table::done(t);
            }
            let s = table::number(table::slot_of(cid));
            let x = table::slot_at(t, s);
            let k = x.state;
            if !(table_state::is_disconnecting(k) & (x.link == link)) {
                return table::done(t);
            }
            table_endings::free(t, room, s, x, Answer::Done)
        }
    }
}
