// Refusal 1: one validity test of the table, slot by slot. Each contract is the equation with the function of that name in the crate `definition`.
#![tactic(auto)]

ghost use Rattle.std.specs.Prelude.{◌≡◌, ◌+◌, leb};
ghost use Rattle.lists.specs.Every.{every};
ghost use Rattle.credit.specs.Account.{credit_sum};
ghost use Rattle.channel.specs.Limits.{credits_most};
ghost use Rattle.definition.specs.Table.{place_of, live, lens_fit, slot_fits, well_formed};

use channel::{CREDITS_MOST, DEPTH, Queue, SLOTS, Slot, Table};
use credit::CreditFlowControl;

// ---- of one slot

// Each job that waits fits its place.
fn lens_fit(q: Queue, place: usize) -> bool
    ensures { result ≡ lens_fit place q }
{
    let n = octets::least(q.count as usize, DEPTH);
    q.lens[..n].iter().all(|x| *x as usize <= place)
}

// Credits held plus received stay in 16 bits.
fn sum_fits(a: CreditFlowControl) -> bool
    ensures { result ≡ leb (credit_sum a) credits_most }
{
    (a.credits as u32 + a.received as u32) <= CREDITS_MOST
}

// The peer's credits and those set aside for the job that is open stay in 16 bits.
fn peer_sum_fits(credits: u16, aside: u16) -> bool
    ensures { result ≡ leb (credits + aside) credits_most }
{
    (credits as u32 + aside as u32) <= CREDITS_MOST
}

// Is no job, queue count or local MTU beyond its place, no count of an open job beyond its length or frame, and no credit sum above 65,535?
pub fn slot_fits(x: Slot, d: usize, place: usize) -> bool
    ensures { result ≡ slot_fits d place x }
{
    let q = x.queue;
    let a = x.assembly;
    let account = x.account;
    let counted = q.count as usize <= d;
    let have = a.have as usize <= place;
    let want = a.want as usize <= place;
    let mtu = x.mtu as usize <= place;
    let job = x.job;
    let open = table_slot::job_fits(job, x.peer.mps) & peer_sum_fits(x.peer.credits, job.aside);
    counted & (lens_fit(q, place) & (have & (want & (mtu & (sum_fits(account) & open)))))
}

// ---- of the table

fn slots_fit(t: Table) -> bool
    ensures { result ≡ every (slot_fits t.d (place_of t)) (live t) }
{
    let n = octets::least(t.n, SLOTS);
    let d = t.d;
    let place = table_gate_sizes::place_size(t.m);
    // `all` writes a slot's tests out four times: 8,400 octets more for a board.
    for i in 0..n {
        if !slot_fits(t.slots[i], d, place) {
            return false;
        }
    }
    true
}

pub fn well_formed(t: Table) -> bool
    ensures { result ≡ well_formed t }
{
    table_gate_sizes::sizes_fit(t.n, t.d, t.m) & slots_fit(t)
}
