// A slot read from its row of the table's octets; `edge_layout_decode` reads the whole table. It stands on `edge_layout::cells`, and on `edge_layout`, whose
// specs/Layout.antt says what the octets mean.
#![tactic(auto, unfolding(edge_layout::specs::Layout::slot_in))]

ghost use Rattle.std.specs.Prelude.{◌≡◌, ◌+◌, ◌*◌, ◌≤◌, ◌<◌, length};
ghost use Rattle.channel.specs.Limits.{slots_most};
ghost use Rattle.edge_layout.specs.Layout.{table_octets, cell, tally_at, slot_in};

use channel::{ChannelState, OpenJob, Peer, Queue, SLOTS, Slot, Tallies, Tally};
use credit::CreditFlowControl;
pub use edge_layout::cells::row_spelled;
use edge_layout::cells::{long, number, octet};
use edge_layout::{
    COUNT, CREDITS, HAVE, HOLD, JOB_ASIDE, JOB_FILLED, JOB_LENGTH, JOB_TAKEN, KIND, LENS, LINK,
    MPS, MTU, PEER_CID, PEER_CREDITS, PEER_MPS, PEER_MTU, POLICY, POLICY_VALUE, RECEIVED, RECEIVES,
    SENDS, SPSM, VALUE, WANT,
};
use sar_join::Assembly;

pub fn state_at(t: &[u8], i: usize) -> ChannelState
    requires { (table_octets ≤ length t.now) × (i < slots_most) }
    ensures { result ≡ (slot_in (cell t.now i)).state }
{
    edge_layout::state_of(octet(t, i, KIND), octet(t, i, VALUE))
}

pub fn account_at(t: &[u8], i: usize) -> CreditFlowControl
    requires { (table_octets ≤ length t.now) × (i < slots_most) }
    ensures { result ≡ (slot_in (cell t.now i)).account }
{
    CreditFlowControl {
        policy: edge_layout::policy_of(octet(t, i, POLICY), number(t, i, POLICY_VALUE)),
        credits: number(t, i, CREDITS),
        received: number(t, i, RECEIVED),
    }
}

pub fn peer_at(t: &[u8], i: usize) -> Peer
    requires { (table_octets ≤ length t.now) × (i < slots_most) }
    ensures { result ≡ (slot_in (cell t.now i)).peer }
{
    Peer {
        cid: number(t, i, PEER_CID),
        mps: number(t, i, PEER_MPS),
        mtu: number(t, i, PEER_MTU),
        credits: number(t, i, PEER_CREDITS),
    }
}

pub fn assembly_at(t: &[u8], i: usize) -> Assembly
    requires { (table_octets ≤ length t.now) × (i < slots_most) }
    ensures { result ≡ (slot_in (cell t.now i)).assembly }
{
    Assembly {
        have: number(t, i, HAVE),
        want: number(t, i, WANT),
    }
}

pub fn queue_at(t: &[u8], i: usize) -> Queue
    requires { (table_octets ≤ length t.now) × (i < slots_most) }
    ensures { result ≡ (slot_in (cell t.now i)).queue }
{
    Queue {
        count: octet(t, i, COUNT),
        lens: [
            number(t, i, LENS),
            number(t, i, LENS + 2 * SLOTS),
            number(t, i, LENS + 4 * SLOTS),
            number(t, i, LENS + 6 * SLOTS),
        ],
    }
}

pub fn job_at(t: &[u8], i: usize) -> OpenJob
    requires { (table_octets ≤ length t.now) × (i < slots_most) }
    ensures { result ≡ (slot_in (cell t.now i)).job }
{
    OpenJob {
        length: number(t, i, JOB_LENGTH),
        taken: number(t, i, JOB_TAKEN),
        filled: number(t, i, JOB_FILLED),
        aside: number(t, i, JOB_ASIDE),
    }
}

// A direction's tallies, whose frames are in that column.
fn tally_at(t: &[u8], i: usize, column: usize) -> Tally
    requires { i + (column + 15 * slots_most) < length t.now }
    ensures { result ≡ tally_at t.now i column }
{
    Tally {
        frames: long(t, i, column),
        blocked: long(t, i, column + 8 * SLOTS),
    }
}

pub fn tallies_at(t: &[u8], i: usize) -> Tallies
    requires { (table_octets ≤ length t.now) × (i < slots_most) }
    ensures { result ≡ (slot_in (cell t.now i)).tallies }
{
    Tallies {
        sends: tally_at(t, i, SENDS),
        receives: tally_at(t, i, RECEIVES),
    }
}

// The slot that row i says.
pub fn slot_at(t: &[u8], i: usize) -> Slot
    requires { (table_octets ≤ length t.now) × (i < slots_most) }
    ensures { result ≡ slot_in (cell t.now i) }
{
    Slot {
        state: state_at(t, i),
        link: number(t, i, LINK),
        spsm: number(t, i, SPSM),
        mps: number(t, i, MPS),
        mtu: number(t, i, MTU),
        account: account_at(t, i),
        hold: octet(t, i, HOLD),
        peer: peer_at(t, i),
        assembly: assembly_at(t, i),
        queue: queue_at(t, i),
        job: job_at(t, i),
        tallies: tallies_at(t, i),
    }
}
