// The query of a slot whose answer is known: it is told where the gate lets the call pass. Its
// contract is the equation with the definition's query.
ghost use Rattle.std.specs.Prelude.{◌≡◌};
ghost use Rattle.definition.specs.Ending.{served_of};
ghost use Rattle.definition.specs.Asking.{query};

use channel::{Answer, ChannelIndex, Served, Table};

// The query whose answer is n.
pub fn told(t: Table, slot: ChannelIndex, n: u64) -> Served
    ensures { result ≡ served_of (query (λ _. n) t slot.0) }
{
    match table_gate::gate(t, None, None, None, Some(table::number(slot))) {
        Err(r) => table::refused(t, r),
        Ok(()) => table::still(t, Answer::Number(n), 0),
    }
}
