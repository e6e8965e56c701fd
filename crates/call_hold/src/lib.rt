// A hold on a slot (`inc_ref` in the original); `release` gives one back. The contract is the equation with the definition of that call.
#![tactic(auto)]

mod release;

ghost use Rattle.std.specs.Prelude.{◌≡◌};
ghost use Rattle.definition.specs.Ending.{served_of};
ghost use Rattle.definition.specs.Closing.{inc_ref};

use channel::{Answer, ChannelIndex, HOLDS_MOST, Served, Table};
use codes::Refusal;
pub use release::dec_ref;

// One more hold on a slot, in any state.
pub fn inc_ref(t: Table, slot: ChannelIndex) -> Served
    ensures { result ≡ served_of (inc_ref t slot.0) }
{
    let s = table::number(slot);
    match table_gate::gate(t, None, None, None, Some(s)) {
        Err(r) => table::refused(t, r),
        Ok(()) => {
            let x = table::slot_at(t, s);
            let hold = x.hold;
            if HOLDS_MOST <= hold {
                return table::refused(t, Refusal::Held);
            }
            table::changed(t, s, table_slot::with_hold(x, hold + 1), Answer::Done, 0)
        }
    }
}
