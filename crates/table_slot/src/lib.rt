// One slot by value: what slots are searched for, and what its peer and its open job are asked. The crate `table_slot_changes` has the slot with one thing changed.
// Each contract is the equation with the function of that name in the crate `definition`.
#![tactic(auto)]

ghost use Rattle.std.specs.Prelude.{◌≡◌};
ghost use Rattle.definition.specs.Table.{is_free, of_link, pending_of, unheld_pending_of, attempt_of, attempt_by, connected_to, uses_peer, due_slot, calls, below_least, is_open, job_fits};
ghost use Rattle.table_slot.specs.Want.{wanted};

use channel::{OpenJob, Peer, SIZE_LEAST, Slot};
pub use table_slot_changes::{
    blocked_by, count_blocked_receive, count_received, count_sent, freed, fresh, in_state, left,
    no_job, with_account, with_assembly, with_hold, with_job, with_peer, with_peer_credits,
    with_queue,
};

#[derive(Clone, Copy)]
pub enum Want {
    Free,
    OfLink(u16),
    PendingOf(u16),
    UnheldPendingOf(u16),
    AttemptOf(u16),
    AttemptBy { link: u16, id: u8 },
    ConnectedTo { link: u16, cid: u16 },
    UsesPeer { link: u16, cid: u16 },
    Due,
    Calls,
}

pub fn is_free(x: Slot) -> bool
    ensures { result ≡ is_free x }
{
    let k = x.state;
    table_state::is_disconnected(k) & (x.hold == 0)
}

pub fn of_link(x: Slot, link: u16) -> bool
    ensures { result ≡ of_link link x }
{
    let k = x.state;
    !table_state::is_disconnected(k) & (x.link == link)
}

pub fn pending_of(x: Slot, link: u16) -> bool
    ensures { result ≡ pending_of link x }
{
    let k = x.state;
    table_state::is_peer_connecting(k) & (x.link == link)
}

pub fn unheld_pending_of(x: Slot, link: u16) -> bool
    ensures { result ≡ unheld_pending_of link x }
{
    pending_of(x, link) & (x.hold == 0)
}

pub fn attempt_of(x: Slot, link: u16) -> bool
    ensures { result ≡ attempt_of link x }
{
    let k = x.state;
    table_state::is_connecting(k) & (x.link == link)
}

pub fn attempt_by(x: Slot, link: u16, id: u8) -> bool
    ensures { result ≡ attempt_by link id x }
{
    let k = x.state;
    attempt_of(x, link) & (table_state::identifier_of(k) == id)
}

pub fn connected_to(x: Slot, link: u16, cid: u16) -> bool
    ensures { result ≡ connected_to link cid x }
{
    let k = x.state;
    table_state::is_connected(k) & ((x.link == link) & (x.peer.cid == cid))
}

pub fn uses_peer(x: Slot, link: u16, cid: u16) -> bool
    ensures { result ≡ uses_peer link cid x }
{
    of_link(x, link) & (x.peer.cid == cid)
}

pub fn due_slot(x: Slot) -> bool
    ensures { result ≡ due_slot x }
{
    let k = x.state;
    table_state::is_due(k)
}

pub fn calls(x: Slot) -> bool
    ensures { result ≡ calls x }
{
    let k = x.state;
    (0 < x.queue.count) | (table_state::is_due(k) | table_state::is_connect_failed(k))
}

// Does the slot fit what is searched for?
pub fn fits(x: Slot, w: Want) -> bool
    ensures { result ≡ wanted w x }
{
    match w {
        Want::Free => is_free(x),
        Want::OfLink(link) => of_link(x, link),
        Want::PendingOf(link) => pending_of(x, link),
        Want::UnheldPendingOf(link) => unheld_pending_of(x, link),
        Want::AttemptOf(link) => attempt_of(x, link),
        Want::AttemptBy { link, id } => attempt_by(x, link, id),
        Want::ConnectedTo { link, cid } => connected_to(x, link, cid),
        Want::UsesPeer { link, cid } => uses_peer(x, link, cid),
        Want::Due => due_slot(x),
        Want::Calls => calls(x),
    }
}

// Is the peer's MTU or its MPS below the least that Core allows?
pub fn below_least(p: Peer) -> bool
    ensures { result ≡ below_least p }
{
    (p.mtu < SIZE_LEAST) | (p.mps < SIZE_LEAST)
}

// ---- the job that is handed over in portions

// A job is open while credits are set aside for its frames.
pub fn is_open(j: OpenJob) -> bool
    ensures { result ≡ is_open j }
{
    0 < j.aside
}

// Is no count of an open job beyond its length or its frame? (The peer's MPS is a frame's most; the two octets of the job's length are in its first.)
pub fn job_fits(j: OpenJob, mps: u16) -> bool
    ensures { result ≡ job_fits mps j }
{
    let long = j.taken <= j.length;
    let wide = j.filled <= mps;
    let had = j.filled as u32 <= j.taken as u32 + 2;
    !is_open(j) | (long & (wide & had))
}
