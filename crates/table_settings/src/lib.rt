// What an accept or a create asks for: our MTU, MPS and initial credits with their defaults, and the slot and the response that come of an
// accept. Each contract is the equation with the definition of that name.
#![tactic(auto)]

mod sizing;

ghost use Rattle.std.specs.Prelude.{◌≡◌, ◌≤◌, ◌<◌, ltb};
ghost use Rattle.channel.specs.Limits.{packet_least, packet_most, depth_most};
ghost use Rattle.definition.specs.Pending.{settled, mtu_of, mps_of, credits_of, accepted_as, accepting};
ghost use Rattle.definition.specs.Opening.{attempt_as, asking};

use channel::{ChannelState, FRAME_HEAD, JOB_HEAD, L2capChannelConfig, Slot, Table};
use codes::LeCreditConnResultCode;
use credit::CreditFlowControl;
use signal_forms::{LeCreditConnReq, LeCreditConnRes};
pub use sizing::too_large;

// The number that the caller gives, or the usual one.
pub fn settled(usual: u16, g: Option<u16>) -> u16
    ensures { result ≡ settled usual g }
{
    match g {
        None => usual,
        Some(n) => n,
    }
}

// Our MTU, MPS and initial credits in an accept or a create.
pub fn mtu_of(t: Table, c: L2capChannelConfig) -> u16
    requires { (packet_least ≤ t.m) × (t.m ≤ packet_most) }
    ensures { result ≡ mtu_of t c }
{
    settled((t.m - JOB_HEAD) as u16, c.mtu)
}

pub fn mps_of(t: Table, c: L2capChannelConfig) -> u16
    requires { (packet_least ≤ t.m) × (t.m ≤ packet_most) }
    ensures { result ≡ mps_of t c }
{
    settled((t.m - FRAME_HEAD) as u16, c.mps)
}

pub fn credits_of(t: Table, c: L2capChannelConfig) -> u16
    requires { t.d ≤ depth_most }
    ensures { result ≡ credits_of t c }
{
    settled(t.d as u16, c.credits)
}

// Is one of them more than the packet leaves room for?
pub fn above(most: usize, n: u16) -> bool
    ensures { result ≡ ltb most n }
{
    most < n as usize
}

// The slot once it is accepted.
pub fn accepted(x: Slot, mps: u16, mtu: u16, account: CreditFlowControl) -> Slot
    ensures { result ≡ accepted_as mps mtu account x }
{
    Slot {
        state: ChannelState::Connected,
        mps,
        mtu,
        account,
        ..x
    }
}

// The response to the peer's request once slot s is accepted.
pub fn response(s: usize, mtu: u16, mps: u16, credits: u16) -> LeCreditConnRes
    requires { s < 256 }
    ensures { result ≡ accepting s mtu mps credits }
{
    let cid = table_identifiers::cid_of(table_identifiers::index_at(s));
    LeCreditConnRes {
        dcid: cid.0,
        mtu,
        mps,
        credits,
        result: LeCreditConnResultCode::Success,
    }
}

// The slot of our own attempt. (It was free, so that all else in it is as in a slot never used.)
pub fn attempted(
    id: u8,
    link: u16,
    spsm: u16,
    mps: u16,
    mtu: u16,
    account: CreditFlowControl,
) -> Slot
    ensures { result ≡ attempt_as id link spsm mps mtu account }
{
    Slot {
        state: ChannelState::Connecting(id),
        link,
        spsm,
        mps,
        mtu,
        account,
        ..table_slot::fresh(0)
    }
}

// The request for it.
pub fn request(s: usize, spsm: u16, mtu: u16, mps: u16, credits: u16) -> LeCreditConnReq
    requires { s < 256 }
    ensures { result ≡ asking s spsm mtu mps credits }
{
    let cid = table_identifiers::cid_of(table_identifiers::index_at(s));
    LeCreditConnReq {
        spsm,
        scid: cid.0,
        mtu,
        mps,
        credits,
    }
}
