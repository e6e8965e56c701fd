// The calls that commands of pending connections and of attempts ask for, and the registering of an SPSM (docs/CHANRUN.md). Which call each is
// stands in specs/Called.antt; it rests on the calls.
#![tactic(auto)]

ghost use Rattle.std.specs.Prelude.{◌≡◌, []};
ghost use Rattle.definition.specs.Ending.{end};
ghost use Rattle.run_call_opening.specs.Called.{end_opening};

use channel::{Served, Table};
use script_commands::{Opening, slot_of};

pub fn called_opening(t: Table, c: Opening, room: &mut [u8], signal: &mut [u8]) -> Served
    ensures { end result room.new signal.new [] ≡ end_opening t room.old signal.old c }
{
    match c {
        Opening::RegisterSpsm(spsm) => call_register_spsm::register_spsm(t, spsm),
        Opening::NextPending { link, up } => call_next_pending::next_pending(t, link, up),
        Opening::RejectAllPending(link) => call_reject_all::reject_all_pending(
            t, room, signal, link,
        ),
        Opening::AcceptPending { slot, config } => {
            call_accept::accept_pending(t, signal, slot_of(slot), config)
        }
        Opening::RejectPending { slot, result } => {
            call_reject::reject_pending(t, room, signal, slot_of(slot), result)
        }
        Opening::DropPending(slot) => call_drop::drop_pending(t, room, slot_of(slot)),
        Opening::Create { link, spsm, config } => call_create::create(
            t, signal, link, spsm, config,
        ),
        Opening::GiveUp(slot) => call_give_up::give_up(t, room, slot_of(slot)),
    }
}
