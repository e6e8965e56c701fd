// The peer's credits: code 0x16 (`handle_credit_flow` in the original). It stands behind the gate, which has found room and signal buffer
// to be as long as the table says; it is `pub` for the signal call alone. The slot is searched for, `slot_credits` does the signal's work on it and on its part of the room, and it is put
// back. Its contract is the equation with the definition's handler.
#![tactic(auto)]

ghost use Rattle.std.specs.Prelude.{◌≡◌, [], ◌≤◌, length};
ghost use Rattle.channel.specs.Limits.{signal_most};
ghost use Rattle.definition.specs.Ending.{end, end_of};
ghost use Rattle.definition.specs.Signals.{on_credits};
ghost use Rattle.table_room.specs.Placed.{RoomOf};

use channel::{Served, Table};
use codes::Refusal;
use signal_forms::LeCreditFlowInd;
use table_slot::Want;

// Code 0x16: more credits for the first Connected slot of this link with that peer CID; a sum above 65,535 ends the channel.
pub fn on_credits(
    t: Table,
    room: &mut [u8],
    out: &mut [u8],
    link: u16,
    id: u8,
    read: Option<LeCreditFlowInd>,
) -> Served
    requires { RoomOf t (length room.old) × (signal_most ≤ length out.old) }
    ensures { end result room.new out.new [] ≡ end_of t [] room.old out.old [] (on_credits t link id read) }
{
    match read {
        None => on_rejects::bad_body(t, out, id),
        Some(ind) => {
            let cid = ind.cid;
            let s = table::find(t, Want::ConnectedTo { link, cid });
            if t.n <= s {
                return table::refused(t, Refusal::NotFound);
            }
            let x = table::slot_at(t, s);
            let w = slot_credits::credit_at(room, t.d, t.m, s, x, ind.credits);
            let a = w.answer;
            let y = w.slot;
            table::changed(t, s, y, a, w.octets)
        }
    }
}
