// What the three calls on a job handed over in portions make of one slot by value: `starting` begins the job, `giving` takes a portion of it, `cancelling` gives it up. The frame that is being
// filled stands in a buffer that the caller lends. A call on a table and a call on octets both read the slot, have this done and put the slot back. What is right stands in specs/Starting.antt,
// specs/Giving.antt and specs/Cancelling.antt; that it is what the definition's calls do to that slot, in specs/Into.antt.
#![tactic(auto)]

mod cancelling;
mod giving;
mod sizes;
mod starting;

pub use cancelling::cancel_at;
pub use giving::portion_from;
pub use starting::start_from;
