// The bodies of the signals, read, but those of LE credit based connections (`le_credit`): the length first, then fields of two octets.
// A body of another length is Decode (refusal 15).
#![tactic(auto)]

pub mod le_credit;

ghost use Rattle.std.specs.Prelude.{◌≡◌};
ghost use Rattle.signal_bodies.specs.Bodies.{command_reject_res, disconnection_req, disconnection_res, conn_param_update_req, conn_param_update_res};

use octets::number;
use signal_forms::{
    CommandRejectRes, ConnParamUpdateReq, ConnParamUpdateRes, DisconnectionReq, DisconnectionRes,
};

// Code 0x01: longer bodies carry data, which is not read.
pub fn read_command_reject_res(body: &[u8]) -> Option<CommandRejectRes>
    ensures { result ≡ command_reject_res body.now }
{
    if body.len() < 2 {
        return None;
    }
    Some(CommandRejectRes {
        reason: number(body, 0),
    })
}

// Code 0x06.
pub fn read_disconnection_req(body: &[u8]) -> Option<DisconnectionReq>
    ensures { result ≡ disconnection_req body.now }
{
    if body.len() != 4 {
        return None;
    }
    Some(DisconnectionReq {
        dcid: number(body, 0),
        scid: number(body, 2),
    })
}

// Code 0x07.
pub fn read_disconnection_res(body: &[u8]) -> Option<DisconnectionRes>
    ensures { result ≡ disconnection_res body.now }
{
    if body.len() != 4 {
        return None;
    }
    Some(DisconnectionRes {
        dcid: number(body, 0),
        scid: number(body, 2),
    })
}

// Code 0x12.
pub fn read_conn_param_update_req(body: &[u8]) -> Option<ConnParamUpdateReq>
    ensures { result ≡ conn_param_update_req body.now }
{
    if body.len() != 8 {
        return None;
    }
    Some(ConnParamUpdateReq {
        min: number(body, 0),
        max: number(body, 2),
        latency: number(body, 4),
        timeout: number(body, 6),
    })
}

// Code 0x13.
pub fn read_conn_param_update_res(body: &[u8]) -> Option<ConnParamUpdateRes>
    ensures { result ≡ conn_param_update_res body.now }
{
    if body.len() != 2 {
        return None;
    }
    Some(ConnParamUpdateRes {
        result: number(body, 0),
    })
}
