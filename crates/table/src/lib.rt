// What a call gives back. Module `slots` has the table's slots, and the crate `table_identifiers` the numbers that name them.
// Each contract is the equation with the function of that name in the crate `definition`.
#![tactic(auto)]

mod slots;

ghost use Rattle.std.specs.Prelude.{◌≡◌};
ghost use Rattle.definition.specs.Table.{put_slot};
ghost use Rattle.definition.specs.Outcome.{refuse, done};
ghost use Rattle.definition.specs.Ending.{gave, served_of};

use channel::{Answer, Served, Slot, Table};
use codes::Refusal;
pub use slots::{find, free_all, put_slot, slot_at};
pub use table_identifiers::{cid_of, index_at, is_cid, next_id, number, slot_of, spent};

// Nothing changes, and the call is refused.
pub fn refused(t: Table, r: Refusal) -> Served
    ensures { result ≡ served_of (refuse t r) }
{
    still(t, Answer::Refused(r), 0)
}

// Nothing changes, and there is nothing to tell.
pub fn done(t: Table) -> Served
    ensures { result ≡ served_of (done t) }
{
    still(t, Answer::Done, 0)
}

// No slot changes; so many octets were written.
pub fn still(t: Table, a: Answer, octets: usize) -> Served
    ensures { result ≡ gave a t octets }
{
    Served {
        answer: a,
        table: t,
        octets,
    }
}

// Slot s becomes x; so many octets were written.
pub fn changed(t: Table, s: usize, x: Slot, a: Answer, octets: usize) -> Served
    ensures { result ≡ gave a (put_slot t s x) octets }
{
    still(put_slot(t, s, x), a, octets)
}
