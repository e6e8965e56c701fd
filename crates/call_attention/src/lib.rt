// The attention call: which slots call, how many, and the lowest of them (N when none calls), behind the gate.
#![tactic(auto)]

ghost use Rattle.std.specs.Prelude.{◌≡◌};
ghost use Rattle.definition.specs.Ending.{served_of};
ghost use Rattle.definition.specs.Asking.{attention};

use channel::{Served, Table};

pub fn attention(t: Table) -> Served
    ensures { result ≡ served_of (attention t) }
{
    match table_gate::gate(t, None, None, None, None) {
        Err(r) => table::refused(t, r),
        Ok(()) => {
            let a = table_attention::attention(t);
            table::still(t, a, 0)
        }
    }
}
