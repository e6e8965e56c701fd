// The lowest free slot of a run of slot records that the caller lends, of any length, and a bridge for callers that have the records by value.
#![tactic(auto)]

ghost use Rattle.std.specs.Prelude.{◌≡◌};
ghost use Rattle.table_search.specs.Found.{found_in};

use channel::{SLOTS, Slot};

// The lowest Disconnected slot with no hold.
pub fn lowest_free_in(slots: &[Slot]) -> Option<usize>
    ensures { result ≡ found_in slots.now }
{
    slots.iter().position(|x| table_slot::is_free(*x))
}

// The same on records by value, lent from a local: what covered code calls.
pub fn lowest_free_among(slots: [Slot; SLOTS]) -> Option<usize>
    ensures { result ≡ found_in slots }
{
    lowest_free_in(&slots)
}
