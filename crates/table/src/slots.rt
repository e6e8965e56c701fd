// The table by value: slots read and stored, the one search, freeing. Total: a slot past the end reads as an unused one and takes no store.
// Each contract is the equation with the function of that name in the crate `definition`.
ghost use Rattle.std.specs.Prelude.{◌≡◌};
ghost use Rattle.channel.specs.declared.Answer.TheVariants.{Done};
ghost use Rattle.definition.specs.Table.{slot_at, put_slot, found};
ghost use Rattle.definition.specs.Outcome.{freed_if, sweep};
ghost use Rattle.table_slot.specs.Want.{wanted};

use channel::{SLOTS, Slot, Table};
use table_slot::{Want, fits, freed};

pub fn slot_at(t: Table, s: usize) -> Slot
    ensures { result ≡ slot_at t s }
{
    if s < SLOTS {
        t.slots[s]
    } else {
        table_slot::fresh(0)
    }
}

pub fn put_slot(t: Table, s: usize, x: Slot) -> Table
    ensures { result ≡ put_slot t s x }
{
    if s < SLOTS {
        // one element: no struct update says that
        let mut u = t;
        u.slots[s] = x;
        u
    } else {
        t
    }
}

// The lowest slot that is wanted, and N where none is.
pub fn find(t: Table, w: Want) -> usize
    ensures { result ≡ found (wanted w) t }
{
    let n = octets::least(t.n, SLOTS);
    for i in 0..n {
        if fits(t.slots[i], w) {
            return i;
        }
    }
    n
}

// The slot, freed if it is wanted.
fn freed_if(x: Slot, w: Want) -> Slot
    ensures { result ≡ freed_if (wanted w) x }
{
    if fits(x, w) { freed(x) } else { x }
}

// Every slot that is wanted is freed.
pub fn free_all(t: Table, w: Want) -> Table
    ensures { result ≡ (sweep t (wanted w) Done).table }
{
    let n = octets::least(t.n, SLOTS);
    let mut u = t;
    for i in 0..n {
        u.slots[i] = freed_if(u.slots[i], w);
    }
    u
}
