// The eight signals, with the names and fields of types/l2cap.rs, fields in Core's order.
#![tactic(auto)]

ghost use Rattle.std.specs.Prelude.{◌≡◌};
ghost use Rattle.signal_forms.specs.Forms.{reject_res};

use codes::LeCreditConnResultCode;

// The longest signal that is written, and the least buffer that is taken for any.
pub const SIGNAL_MOST: usize = 18;

// Code 0x01 (Core Vol 3 Part A 4.1), without the data that Core adds for reasons 1 and 2.
#[derive(Clone, Copy)]
pub struct CommandRejectRes {
    pub reason: u16,
}

// Code 0x06 (4.6).
#[derive(Clone, Copy)]
pub struct DisconnectionReq {
    pub dcid: u16,
    pub scid: u16,
}

// Code 0x07 (4.7).
#[derive(Clone, Copy)]
pub struct DisconnectionRes {
    pub dcid: u16,
    pub scid: u16,
}

// Code 0x12 (4.20).
#[derive(Clone, Copy)]
pub struct ConnParamUpdateReq {
    pub min: u16,
    pub max: u16,
    pub latency: u16,
    pub timeout: u16,
}

// Code 0x13 (4.21).
#[derive(Clone, Copy)]
pub struct ConnParamUpdateRes {
    pub result: u16,
}

// Code 0x14 (4.22).
#[derive(Clone, Copy)]
pub struct LeCreditConnReq {
    pub spsm: u16,
    pub scid: u16,
    pub mtu: u16,
    pub mps: u16,
    pub credits: u16,
}

// Code 0x15 (4.23).
#[derive(Clone, Copy)]
pub struct LeCreditConnRes {
    pub dcid: u16,
    pub mtu: u16,
    pub mps: u16,
    pub credits: u16,
    pub result: LeCreditConnResultCode,
}

impl LeCreditConnRes {
    // A refused response: zeros before the result.
    pub fn reject(res: LeCreditConnResultCode) -> Self
        ensures { result ≡ reject_res res }
    {
        LeCreditConnRes {
            dcid: 0,
            mtu: 0,
            mps: 0,
            credits: 0,
            result: res,
        }
    }
}

// Code 0x16 (4.24).
#[derive(Clone, Copy)]
pub struct LeCreditFlowInd {
    pub cid: u16,
    pub credits: u16,
}

// Any of them.
#[derive(Clone, Copy)]
pub enum Signal {
    CommandRejectRes(CommandRejectRes),
    DisconnectionReq(DisconnectionReq),
    DisconnectionRes(DisconnectionRes),
    ConnParamUpdateReq(ConnParamUpdateReq),
    ConnParamUpdateRes(ConnParamUpdateRes),
    LeCreditConnReq(LeCreditConnReq),
    LeCreditConnRes(LeCreditConnRes),
    LeCreditFlowInd(LeCreditFlowInd),
}
