// The table as octets: where each column is, and states and policies as octets. What the octets mean is in specs/Layout.antt.
// It stands on the table's types; `edge_layout_read` and `edge_layout_write` read and write one row, `edge_layout_decode` and `edge_layout_encode` whole tables.
#![tactic(auto)]

pub mod cells;

ghost use Rattle.std.specs.Prelude.{◌≡◌};
ghost use Rattle.lists.specs.Bits as Bits;
ghost use Rattle.edge_layout.specs.Layout.{state_kind, state_value, policy_kind, policy_value, state_of, failed_by, policy_of};
ghost use Rattle.edge_layout.specs.Spelled.{state_spelled};

use channel::{ChannelState, DEPTH, SLOTS, Table};
use codes::LeCreditConnResultCode;
use credit::CreditFlowPolicy;

// What octets were read as: the table, where they are exactly its spelling; else a table of no slots. No `Option`: an entry makes its
// call either way, and the gate refuses a table of no slots by 1, so that there is one path.
#[derive(Clone, Copy)]
pub struct Decoded {
    pub ok: bool,
    pub table: Table,
}

// This layout's number, the table's first octet.
pub const LAYOUT: u8 = 3;

// Where each column starts. A number of two octets has its higher octets SLOTS further on.
pub const HEAD: usize = 48;

pub const KIND: usize = HEAD;

pub const VALUE: usize = KIND + SLOTS;

pub const LINK: usize = VALUE + SLOTS;

pub const SPSM: usize = LINK + 2 * SLOTS;

pub const MPS: usize = SPSM + 2 * SLOTS;

pub const MTU: usize = MPS + 2 * SLOTS;

pub const POLICY: usize = MTU + 2 * SLOTS;

pub const POLICY_VALUE: usize = POLICY + SLOTS;

pub const CREDITS: usize = POLICY_VALUE + 2 * SLOTS;

pub const RECEIVED: usize = CREDITS + 2 * SLOTS;

pub const HOLD: usize = RECEIVED + 2 * SLOTS;

pub const PEER_CID: usize = HOLD + SLOTS;

pub const PEER_MPS: usize = PEER_CID + 2 * SLOTS;

pub const PEER_MTU: usize = PEER_MPS + 2 * SLOTS;

pub const PEER_CREDITS: usize = PEER_MTU + 2 * SLOTS;

pub const HAVE: usize = PEER_CREDITS + 2 * SLOTS;

pub const WANT: usize = HAVE + 2 * SLOTS;

pub const COUNT: usize = WANT + 2 * SLOTS;

pub const LENS: usize = COUNT + SLOTS;

pub const JOB_LENGTH: usize = LENS + 2 * DEPTH * SLOTS;

pub const JOB_TAKEN: usize = JOB_LENGTH + 2 * SLOTS;

pub const JOB_FILLED: usize = JOB_TAKEN + 2 * SLOTS;

pub const JOB_ASIDE: usize = JOB_FILLED + 2 * SLOTS;

// A direction's frames and how often it was blocked, eight columns each.
pub const SENDS: usize = JOB_ASIDE + 2 * SLOTS;

pub const RECEIVES: usize = SENDS + 16 * SLOTS;

// The octets of a table.
pub const TABLE_OCTETS: usize = RECEIVES + 16 * SLOTS;

// ---- a state and a policy as octets

pub fn state_kind(k: ChannelState) -> u8
    ensures { result ≡ state_kind k }
{
    match k {
        ChannelState::Disconnected => 0,
        ChannelState::Connecting(_) => 1,
        ChannelState::PeerConnecting(_) => 2,
        ChannelState::Connected => 3,
        ChannelState::ConnectFailed(_) => 4,
        ChannelState::PeerDisconnecting(_) => 5,
        ChannelState::Disconnecting(_) => 6,
    }
}

fn bit(b: bool) -> u8
    ensures { result ≡ Bits.bit b }
{
    if b { 1 } else { 0 }
}

pub fn state_value(k: ChannelState) -> u8
    ensures { result ≡ state_value k }
{
    match k {
        ChannelState::Disconnected => 0,
        ChannelState::Connecting(id) => id,
        ChannelState::PeerConnecting(id) => id,
        ChannelState::Connected => 0,
        ChannelState::ConnectFailed(c) => codes::result_number(c) as u8,
        ChannelState::PeerDisconnecting(id) => id,
        ChannelState::Disconnecting(announced) => bit(announced),
    }
}

pub fn state_of(kind: u8, value: u8) -> ChannelState
    ensures { result ≡ state_of kind value }
{
    if kind == 1 {
        return ChannelState::Connecting(value);
    }
    if kind == 2 {
        return ChannelState::PeerConnecting(value);
    }
    if kind == 3 {
        return ChannelState::Connected;
    }
    if kind == 4 {
        return failed_by(codes::result_of(value as u16));
    }
    if kind == 5 {
        return ChannelState::PeerDisconnecting(value);
    }
    if kind == 6 {
        return ChannelState::Disconnecting(value == 1);
    }
    ChannelState::Disconnected
}

fn failed_by(r: Option<LeCreditConnResultCode>) -> ChannelState
    ensures { result ≡ failed_by r }
{
    match r {
        Some(c) => ChannelState::ConnectFailed(c),
        None => ChannelState::Disconnected,
    }
}

pub fn state_spelled(kind: u8, value: u8) -> bool
    ensures { result ≡ state_spelled kind value }
{
    ((kind == 1) | ((kind == 2) | (kind == 5)))
        | ((((kind == 0) | (kind == 3)) & (value == 0))
            | (((kind == 4) & ((value == 0) | ((value == 2) | ((4 <= value) & (value <= 11)))))
                | ((kind == 6) & (value <= 1))))
}

pub fn policy_kind(p: CreditFlowPolicy) -> u8
    ensures { result ≡ policy_kind p }
{
    match p {
        CreditFlowPolicy::Every(_) => 0,
        CreditFlowPolicy::MinThreshold(_) => 1,
    }
}

pub fn policy_value(p: CreditFlowPolicy) -> u16
    ensures { result ≡ policy_value p }
{
    match p {
        CreditFlowPolicy::Every(k) => k,
        CreditFlowPolicy::MinThreshold(t) => t,
    }
}

// The policy by its number in the octets (C interface).
pub fn policy_of(kind: u8, value: u16) -> CreditFlowPolicy
    ensures { result ≡ policy_of kind value }
{
    if kind == 1 {
        return CreditFlowPolicy::MinThreshold(value);
    }
    CreditFlowPolicy::Every(value)
}
