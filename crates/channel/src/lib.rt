// The types of the channel table: slots, table, what a call is given and what it answers. No functions: what they mean is in
// the crate `definition`, and the code over them stands in the crates above it.
#![tactic(auto)]

pub use codes::SIZE_LEAST;
use codes::{LeCreditConnResultCode, Refusal};
use credit::{CreditFlowControl, CreditFlowPolicy};
use sar_join::Assembly;
pub use signal_forms::SIGNAL_MOST;

// The most slots that a table has.
pub const SLOTS: usize = 16;

// The most finished jobs that wait in a slot (L2CAP_RX_QUEUE_SIZE).
pub const DEPTH: usize = 4;

// A packet's octets are PACKET_LEAST to PACKET_MOST; a frame's header takes FRAME_HEAD of them, the header and the SDU length JOB_HEAD.
pub const PACKET_LEAST: usize = 29;

pub const PACKET_MOST: usize = 1024;

pub const FRAME_HEAD: usize = 4;

pub const JOB_HEAD: usize = 6;

// A slot's CID is CID_BASE and its number.
pub const CID_BASE: u16 = 0x40;

// Link handles are 0 to HANDLE_MOST.
pub const HANDLE_MOST: usize = 0x0EFF;

// Identifiers are 1 to IDENTIFIER_MOST, the SPSMs that can be registered 1 to SPSM_MOST.
pub const IDENTIFIER_MOST: u8 = 255;

pub const SPSM_MOST: u16 = 255;

// Holds end here, and sums of credits (`credit` has the number; a sum is taken in 32 bits).
pub const HOLDS_MOST: u8 = 255;

pub const CREDITS_MOST: u32 = credit::CREDITS_MOST as u32;

// A slot's number. It becomes a CID by the 0x40 rule alone.
#[derive(Clone, Copy)]
pub struct ChannelIndex(pub u8);

// A channel's CID on the air.
#[derive(Clone, Copy)]
pub struct Cid(pub u16);

// A slot's state. PeerConnecting, Connecting and PeerDisconnecting carry a signal's identifier; Disconnecting says whether its
// request was announced.
#[derive(Clone, Copy)]
pub enum ChannelState {
    Disconnected,
    Connecting(u8),
    PeerConnecting(u8),
    Connected,
    ConnectFailed(LeCreditConnResultCode),
    PeerDisconnecting(u8),
    Disconnecting(bool),
}

// The peer's side of a channel.
#[derive(Clone, Copy)]
pub struct Peer {
    pub cid: u16,
    pub mps: u16,
    pub mtu: u16,
    pub credits: u16,
}

// The finished jobs that wait, oldest first: how many, and the octets of each.
#[derive(Clone, Copy)]
pub struct Queue {
    pub count: u8,
    pub lens: [u16; DEPTH],
}

// The job that is handed over in portions: the octets that were stated, those taken so far, those in the frame that is being filled (the job's
// length, the stream's first two octets, counts), and the credits still set aside, one for each frame to come. A job is open while credits are
// set aside; else all four are 0.
#[derive(Clone, Copy)]
pub struct OpenJob {
    pub length: u16,
    pub taken: u16,
    pub filled: u16,
    pub aside: u16,
}

// One direction's tallies: its frames, and how often it was refused for want of credits. Each wraps at 64 bits.
#[derive(Clone, Copy)]
pub struct Tally {
    pub frames: u64,
    pub blocked: u64,
}

// What a service screen shows of a channel (`Metrics` in the original): frames sent and blocked sends, frames received and blocked receives.
#[derive(Clone, Copy)]
pub struct Tallies {
    pub sends: Tally,
    pub receives: Tally,
}

// One slot (`ChannelStorage` in the original). Its local CID is 0x40 + its number and isn't stored.
#[derive(Clone, Copy)]
pub struct Slot {
    pub state: ChannelState,
    pub link: u16,
    pub spsm: u16,
    pub mps: u16,
    pub mtu: u16,
    pub account: CreditFlowControl,
    pub hold: u8,
    pub peer: Peer,
    pub assembly: Assembly,
    pub queue: Queue,
    pub job: OpenJob,
    pub tallies: Tallies,
}

// The table: N slots in use, D waiting jobs a slot, packets of M octets, the next identifier, a bit for each registered SPSM.
#[derive(Clone, Copy)]
pub struct Table {
    pub slots: [Slot; SLOTS],
    pub n: usize,
    pub d: usize,
    pub m: usize,
    pub identifier: u8,
    pub spsms: [u8; 32],
}

// What an accept or a create asks for.
#[derive(Clone, Copy)]
pub struct L2capChannelConfig {
    pub mtu: Option<u16>,
    pub mps: Option<u16>,
    pub policy: CreditFlowPolicy,
    pub credits: Option<u16>,
}

// What a call answers.
#[derive(Clone, Copy)]
pub enum Answer {
    // 0, with nothing more to tell.
    Done,
    Refused(Refusal),
    // 0, and the slot that was given, rejected or opened.
    At(ChannelIndex),
    // 0, and the link on which what was written goes out.
    Link(u16),
    // 0, and a hold was taken on the opened channel.
    Opened,
    // 0, and the link and slot whose disconnect was written.
    Due {
        link: u16,
        slot: ChannelIndex,
    },
    // 0, and the frames of the job that was sent or begun, with their link.
    Frames {
        link: u16,
        count: usize,
    },
    // 0, and the job that was taken: its length, and the link for the credit signal.
    Job {
        link: u16,
        length: u16,
    },
    // 0, and the slots that call: a bit each, how many, and the lowest.
    Attention {
        set: u16,
        count: u8,
        lowest: u8,
    },
    // 0, and the number asked for: of a tally all 64 bits.
    Number(u64),
    // 0, and the valid parameters that the peer asks for.
    Event {
        min: u16,
        max: u16,
        latency: u16,
        timeout: u16,
    },
    // 0, and what was taken of a portion: its octets, whether a frame is full and given out, and the link on which that goes out.
    Portion {
        link: u16,
        taken: usize,
        full: bool,
    },
}

// What a call gives back: its answer, the table after it, and the octets that it gives out at the start of the lent signal buffer, frame
// output or job's frame buffer.
#[derive(Clone, Copy)]
pub struct Served {
    pub answer: Answer,
    pub table: Table,
    pub octets: usize,
}
