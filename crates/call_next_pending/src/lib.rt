// A connection that the peer asks for: next pending (the original's name). The contract is the equation with the definition of that call.
#![tactic(auto)]

ghost use Rattle.std.specs.Prelude.{◌≡◌};
ghost use Rattle.definition.specs.Ending.{served_of};
ghost use Rattle.definition.specs.Pending.{next_pending};

use channel::{Answer, Served, Table};
use codes::Refusal;
use table_slot::Want;

// The lowest pending connection of the link, which gets a hold.
pub fn next_pending(t: Table, link: u16, up: bool) -> Served
    ensures { result ≡ served_of (next_pending t link up) }
{
    match table_gate::gate(t, None, None, Some(link as usize), None) {
        Err(r) => table::refused(t, r),
        Ok(()) => {
            let s = table::find(t, Want::PendingOf(link));
            if t.n <= s {
                if up {
                    return table::done(t);
                }
                return table::refused(t, Refusal::Disconnected);
            }
            let x = table::slot_at(t, s);
            if x.hold != 0 {
                return table::refused(t, Refusal::Held);
            }
            let i = table::index_at(s);
            table::changed(t, s, table_slot::with_hold(x, 1), Answer::At(i), 0)
        }
    }
}
