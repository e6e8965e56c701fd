// The pending connections of a link rejected, one a call (the original's reject-all step). The contract is the equation with the definition of
// that call, for the answer, the table and every lent slice.
#![tactic(auto)]

ghost use Rattle.std.specs.Prelude.{◌≡◌, [], length};
ghost use Rattle.definition.specs.Ending.{end, end_of};
ghost use Rattle.definition.specs.Pending.{reject_all_pending};

use channel::{Answer, Served, Table};
use codes::LeCreditConnResultCode;
use signal_forms::{LeCreditConnRes, Signal};
use table_slot::Want;

// One step of rejecting all pendings: the link's lowest one without holds gets response 4 and is freed.
pub fn reject_all_pending(t: Table, room: &mut [u8], signal: &mut [u8], link: u16) -> Served
    ensures { end result room.new signal.new [] ≡ end_of t [] room.old signal.old [] (reject_all_pending t (length room.old) (length signal.old) link) }
{
    match table_gate::gate(
        t,
        Some(room.len()),
        Some(signal.len()),
        Some(link as usize),
        None,
    ) {
        Err(r) => table::refused(t, r),
        Ok(()) => {
            let s = table::find(t, Want::UnheldPendingOf(link));
            if t.n <= s {
                return table::done(t);
            }
            let x = table::slot_at(t, s);
            let k = x.state;
            let id = table_state::identifier_of(k);
            let i = table::index_at(s);
            let res = LeCreditConnRes::reject(LeCreditConnResultCode::NoResources);
            table_endings::free_and_tell(
                t,
                room,
                signal,
                s,
                x,
                Answer::At(i),
                id,
                Signal::LeCreditConnRes(res),
            )
        }
    }
}
