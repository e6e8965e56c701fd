// Registering an SPSM (`register_spsm` in the original). The contract is the equation with the definition of that call.
#![tactic(auto)]

ghost use Rattle.std.specs.Prelude.{◌≡◌};
ghost use Rattle.definition.specs.Ending.{served_of};
ghost use Rattle.definition.specs.Asking.{register_spsm};

use channel::{Answer, SPSM_MOST, Served, Table};
use codes::Refusal;

// Listens on an SPSM from now on, on every link.
pub fn register_spsm(t: Table, n: u16) -> Served
    ensures { result ≡ served_of (register_spsm t n) }
{
    match table_gate::gate(t, None, None, None, None) {
        Err(r) => table::refused(t, r),
        Ok(()) => {
            if !((1 <= n) & (n <= SPSM_MOST)) {
                return table::refused(t, Refusal::BadSpsm);
            }
            table::still(table_spsms::registered(t, n), Answer::Done, 0)
        }
    }
}
