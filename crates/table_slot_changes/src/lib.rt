// One slot by value with one thing changed. Each contract is the equation with the function of that name in the crate `definition`.
#![tactic(auto)]

ghost use Rattle.std.specs.Prelude.{◌≡◌};
ghost use Rattle.definition.specs.Table.{fresh, freed, in_state, with_hold, with_account, with_peer, with_peer_credits, with_assembly, with_queue, with_job, with_tallies, with_sends, with_receives, no_job, no_tallies, more, blocked_more, count_sent, count_received, count_blocked_send, count_blocked_receive, blocked_by, tallies_left, left};

use channel::{ChannelState, DEPTH, OpenJob, Peer, Queue, Slot, Tallies, Tally};
use codes::Refusal;
use credit::{CreditFlowControl, CreditFlowPolicy};
use sar_join::Assembly;

// No job is open.
pub fn no_job() -> OpenJob
    ensures { result ≡ no_job }
{
    OpenJob {
        length: 0,
        taken: 0,
        filled: 0,
        aside: 0,
    }
}

// Nothing is counted yet.
pub fn no_tallies() -> Tallies
    ensures { result ≡ no_tallies }
{
    let none = Tally {
        frames: 0,
        blocked: 0,
    };
    Tallies {
        sends: none,
        receives: none,
    }
}

// A slot that was never used, with so many holds.
pub fn fresh(hold: u8) -> Slot
    ensures { result ≡ fresh hold }
{
    Slot {
        state: ChannelState::Disconnected,
        link: 0,
        spsm: 0,
        mps: 0,
        mtu: 0,
        account: CreditFlowControl::new(CreditFlowPolicy::Every(1), 0),
        hold,
        peer: Peer {
            cid: 0,
            mps: 0,
            mtu: 0,
            credits: 0,
        },
        assembly: Assembly { have: 0, want: 0 },
        queue: Queue {
            count: 0,
            lens: [0; DEPTH],
        },
        job: no_job(),
        tallies: no_tallies(),
    }
}

// Disconnected, and all numbers but the hold count reset.
pub fn freed(x: Slot) -> Slot
    ensures { result ≡ freed x }
{
    fresh(x.hold)
}

pub fn in_state(x: Slot, k: ChannelState) -> Slot
    ensures { result ≡ in_state k x }
{
    Slot { state: k, ..x }
}

pub fn with_hold(x: Slot, hold: u8) -> Slot
    ensures { result ≡ with_hold hold x }
{
    Slot { hold, ..x }
}

pub fn with_account(x: Slot, a: CreditFlowControl) -> Slot
    ensures { result ≡ with_account a x }
{
    Slot { account: a, ..x }
}

pub fn with_peer(x: Slot, p: Peer) -> Slot
    ensures { result ≡ with_peer p x }
{
    Slot { peer: p, ..x }
}

pub fn with_peer_credits(x: Slot, credits: u16) -> Slot
    ensures { result ≡ with_peer_credits credits x }
{
    Slot {
        peer: Peer { credits, ..x.peer },
        ..x
    }
}

pub fn with_assembly(x: Slot, a: Assembly) -> Slot
    ensures { result ≡ with_assembly a x }
{
    Slot { assembly: a, ..x }
}

pub fn with_queue(x: Slot, q: Queue) -> Slot
    ensures { result ≡ with_queue q x }
{
    Slot { queue: q, ..x }
}

pub fn with_job(x: Slot, j: OpenJob) -> Slot
    ensures { result ≡ with_job j x }
{
    Slot { job: j, ..x }
}

pub fn with_tallies(x: Slot, y: Tallies) -> Slot
    ensures { result ≡ with_tallies y x }
{
    Slot { tallies: y, ..x }
}

// ---- what is counted

// n frames more.
fn more(y: Tally, n: u64) -> Tally
    ensures { result ≡ more n y }
{
    Tally {
        frames: y.frames.wrapping_add(n),
        ..y
    }
}

// Blocked once more.
fn blocked_more(y: Tally) -> Tally
    ensures { result ≡ blocked_more y }
{
    Tally {
        blocked: y.blocked.wrapping_add(1),
        ..y
    }
}

fn with_sends(x: Slot, y: Tally) -> Slot
    ensures { result ≡ with_sends y x }
{
    Slot {
        tallies: Tallies {
            sends: y,
            ..x.tallies
        },
        ..x
    }
}

fn with_receives(x: Slot, y: Tally) -> Slot
    ensures { result ≡ with_receives y x }
{
    Slot {
        tallies: Tallies {
            receives: y,
            ..x.tallies
        },
        ..x
    }
}

// n frames were sent, or have their credits set aside.
pub fn count_sent(x: Slot, n: u64) -> Slot
    ensures { result ≡ count_sent n x }
{
    with_sends(x, more(x.tallies.sends, n))
}

// A frame came, and its credit is used.
pub fn count_received(x: Slot) -> Slot
    ensures { result ≡ count_received x }
{
    with_receives(x, more(x.tallies.receives, 1))
}

// A send or a start had too few credits.
fn count_blocked_send(x: Slot) -> Slot
    ensures { result ≡ count_blocked_send x }
{
    with_sends(x, blocked_more(x.tallies.sends))
}

// A send or a start that its plan refuses: one that had too few credits, refusal 14, is counted.
#[tactic(auto, unfolding(lists::specs::Choose::choose))]
pub fn blocked_by(x: Slot, r: Refusal) -> Slot
    ensures { result ≡ blocked_by r x }
{
    match r {
        Refusal::Busy => count_blocked_send(x),
        _ => x,
    }
}

// A frame came for which the peer had no credit.
pub fn count_blocked_receive(x: Slot) -> Slot
    ensures { result ≡ count_blocked_receive x }
{
    with_receives(x, blocked_more(x.tallies.receives))
}

// ---- a channel that is left

// What its tallies become: nothing where our side leaves it, and what they were where the peer does.
#[tactic(auto, unfolding(lists::specs::Choose::choose))]
fn tallies_left(k: ChannelState, y: Tallies) -> Tallies
    ensures { result ≡ tallies_left k y }
{
    if table_state::is_disconnecting(k) {
        no_tallies()
    } else {
        y
    }
}

// The slot in a state that is not Connected: no assembly and no job is open any more.
pub fn left(x: Slot, k: ChannelState) -> Slot
    ensures { result ≡ left k x }
{
    let mut y = x;
    y.state = k;
    y.assembly = Assembly { have: 0, want: 0 };
    y.job = no_job();
    y.tallies = tallies_left(k, x.tallies);
    y
}
