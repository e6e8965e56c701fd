// The peer's disconnect requests: code 0x06 (`handle_disconnect_request` in the original). They stand behind the gate, which has found room
// and signal buffer to be as long as the table says; `on_disconnection_req` is `pub` for the signal call alone. Its contract is the equation
// with the definition's handler.
#![tactic(auto)]

mod response;

ghost use Rattle.std.specs.Prelude.{◌≡◌, [], ◌≤◌, length};
ghost use Rattle.channel.specs.Limits.{signal_most};
ghost use Rattle.definition.specs.Ending.{end, end_of};
ghost use Rattle.definition.specs.Signals.{on_disconnection_req};
ghost use Rattle.table_room.specs.Placed.{RoomOf};

use channel::{Answer, ChannelState, Cid, Served, Table};
pub use response::on_disconnection_res;
use signal_forms::DisconnectionReq;

// Code 0x06: a slot of this link that the CID names is to answer; another CID is rejected.
pub fn on_disconnection_req(
    t: Table,
    room: &mut [u8],
    out: &mut [u8],
    link: u16,
    id: u8,
    read: Option<DisconnectionReq>,
) -> Served
    requires { RoomOf t (length room.old) × (signal_most ≤ length out.old) }
    ensures { end result room.new out.new [] ≡ end_of t [] room.old out.old [] (on_disconnection_req t link id read) }
{
    match read {
        None => on_rejects::bad_body(t, out, id),
        Some(req) => {
            let cid = Cid(req.dcid);
            if !table::is_cid(t, cid) {
                return on_rejects::reject(t, out, Answer::Done, id, 2);
            }
            let s = table::number(table::slot_of(cid));
            let x = table::slot_at(t, s);
            if !table_slot::of_link(x, link) {
                return on_rejects::reject(t, out, Answer::Done, id, 2);
            }
            table_endings::leave(
                t,
                room,
                s,
                x,
                ChannelState::PeerDisconnecting(id),
                Answer::Done,
            )
        }
    }
}
