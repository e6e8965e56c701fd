// What a call makes of one slot, by value: the slot is the unit of work. A call on a table puts the slot back into the table, a call on octets writes its row.
// What is right stands in specs/Work.antt.
#![tactic(auto)]

ghost use Rattle.std.specs.Prelude.{◌≡◌};
ghost use Rattle.slot_work.specs.Work.{worked};

use channel::{Answer, Slot};

// The answer, the slot after the call, and the octets written at the start of the lent output. A refusal leaves the slot as it was, or as its row says.
#[derive(Clone, Copy)]
pub struct Worked {
    pub answer: Answer,
    pub slot: Slot,
    pub octets: usize,
}

// The slot is x now, and so many octets were written.
pub fn became(x: Slot, a: Answer, octets: usize) -> Worked
    ensures { result ≡ worked a x octets }
{
    Worked {
        answer: a,
        slot: x,
        octets,
    }
}
