// A slot written into its row of the table's octets: our side (`local`), then the peer's, what is held and what waits. `edge_layout_encode`
// writes the whole table. It stands on `edge_layout`, whose specs/Layout.antt says what the octets mean.
#![tactic(auto)]

mod local;

ghost use Rattle.std.specs.Prelude.{◌≡◌, ◌≤◌, ◌<◌, length};
ghost use Rattle.octets.specs.Octets.{le16};
ghost use Rattle.channel.specs.Limits.{slots_most};
ghost use Rattle.edge_layout.specs.Layout.{table_octets, peer_octets, assembly_octets, queue_octets, job_octets, tally_octets, tallies_octets, row};
ghost use Rattle.edge_layout_write.specs.Puts.{puts, left_row, taken_row};

use channel::{OpenJob, Peer, Queue, SLOTS, Slot, Tallies, Tally};
use edge_layout::{
    COUNT, HAVE, HOLD, JOB_ASIDE, JOB_FILLED, JOB_LENGTH, JOB_TAKEN, LENS, PEER_CID, PEER_CREDITS,
    PEER_MPS, PEER_MTU, RECEIVES, SENDS, WANT,
};
pub use local::{put_account, put_state};
use local::{put_local, put_number, put_octet, put_tally};
use sar_join::Assembly;

fn put_peer(t: &mut [u8], i: usize, p: Peer)
    requires { (table_octets ≤ length t.old) × (i < slots_most) }
    ensures { t.new ≡ puts t.old i 18 (peer_octets p) }
{
    put_number(t, i, PEER_CID, p.cid);
    put_number(t, i, PEER_MPS, p.mps);
    put_number(t, i, PEER_MTU, p.mtu);
    put_number(t, i, PEER_CREDITS, p.credits);
}

// The peer's credits alone: what a send changes.
pub fn put_peer_credits(t: &mut [u8], i: usize, credits: u16)
    requires { (table_octets ≤ length t.old) × (i < slots_most) }
    ensures { t.new ≡ puts t.old i 24 (le16 credits) }
{
    put_number(t, i, PEER_CREDITS, credits);
}

pub fn put_assembly(t: &mut [u8], i: usize, a: Assembly)
    requires { (table_octets ≤ length t.old) × (i < slots_most) }
    ensures { t.new ≡ puts t.old i 26 (assembly_octets a) }
{
    put_number(t, i, HAVE, a.have);
    put_number(t, i, WANT, a.want);
}

pub fn put_queue(t: &mut [u8], i: usize, q: Queue)
    requires { (table_octets ≤ length t.old) × (i < slots_most) }
    ensures { t.new ≡ puts t.old i 30 (queue_octets q) }
{
    let lens = q.lens;
    put_octet(t, i, COUNT, q.count);
    put_number(t, i, LENS, lens[0]);
    put_number(t, i, LENS + 2 * SLOTS, lens[1]);
    put_number(t, i, LENS + 4 * SLOTS, lens[2]);
    put_number(t, i, LENS + 6 * SLOTS, lens[3]);
}

pub fn put_job(t: &mut [u8], i: usize, j: OpenJob)
    requires { (table_octets ≤ length t.old) × (i < slots_most) }
    ensures { t.new ≡ puts t.old i 39 (job_octets j) }
{
    put_number(t, i, JOB_LENGTH, j.length);
    put_number(t, i, JOB_TAKEN, j.taken);
    put_number(t, i, JOB_FILLED, j.filled);
    put_number(t, i, JOB_ASIDE, j.aside);
}

// What is counted of sends.
pub fn put_sends(t: &mut [u8], i: usize, y: Tally)
    requires { (table_octets ≤ length t.old) × (i < slots_most) }
    ensures { t.new ≡ puts t.old i 47 (tally_octets y) }
{
    put_tally(t, i, SENDS, y);
}

// What is counted of frames.
pub fn put_receives(t: &mut [u8], i: usize, y: Tally)
    requires { (table_octets ≤ length t.old) × (i < slots_most) }
    ensures { t.new ≡ puts t.old i 63 (tally_octets y) }
{
    put_tally(t, i, RECEIVES, y);
}

pub fn put_tallies(t: &mut [u8], i: usize, y: Tallies)
    requires { (table_octets ≤ length t.old) × (i < slots_most) }
    ensures { t.new ≡ puts t.old i 47 (tallies_octets y) }
{
    let a = y.sends;
    put_sends(t, i, a);
    let b = y.receives;
    put_receives(t, i, b);
}

// The job that arrives, those that wait and the open one.
fn put_jobs(t: &mut [u8], i: usize, a: Assembly, q: Queue, j: OpenJob)
    requires { (table_octets ≤ length t.old) × (i < slots_most) }
    ensures { t.new ≡ puts (puts (puts t.old i 26 (assembly_octets a)) i 30 (queue_octets q)) i 39 (job_octets j) }
{
    put_assembly(t, i, a);
    put_queue(t, i, q);
    put_job(t, i, j);
}

// Writes the slot's octets into row i.
pub fn put_slot(t: &mut [u8], i: usize, x: Slot)
    requires { (table_octets ≤ length t.old) × (i < slots_most) }
    ensures { t.new ≡ puts t.old i 0 (row x) }
{
    let k = x.state;
    put_state(t, i, k);
    put_local(t, i, x.link, x.spsm, x.mps, x.mtu);
    let a = x.account;
    put_account(t, i, a);
    put_octet(t, i, HOLD, x.hold);
    let p = x.peer;
    put_peer(t, i, p);
    let b = x.assembly;
    let q = x.queue;
    let j = x.job;
    put_jobs(t, i, b, q, j);
    let y = x.tallies;
    put_tallies(t, i, y);
}

// Writes of the slot what changes where its channel is left: its state, its account, its assembly, the jobs that wait, the open job and the tallies.
pub fn put_left(t: &mut [u8], i: usize, x: Slot)
    requires { (table_octets ≤ length t.old) × (i < slots_most) }
    ensures { t.new ≡ left_row t.old i x }
{
    let k = x.state;
    put_state(t, i, k);
    let a = x.account;
    put_account(t, i, a);
    let b = x.assembly;
    let q = x.queue;
    let j = x.job;
    put_jobs(t, i, b, q, j);
    let y = x.tallies;
    put_tallies(t, i, y);
}

// Writes of the slot what a take can change: its account and the jobs that wait.
pub fn put_taken(t: &mut [u8], i: usize, x: Slot)
    requires { (table_octets ≤ length t.old) × (i < slots_most) }
    ensures { t.new ≡ taken_row t.old i x }
{
    let a = x.account;
    put_account(t, i, a);
    let q = x.queue;
    put_queue(t, i, q);
}
