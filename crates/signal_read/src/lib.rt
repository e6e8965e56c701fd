// Any signal, read: its body by its code (Core Vol 3 Part A 4).
#![tactic(auto)]

ghost use Rattle.std.specs.Prelude.{◌≡◌};
ghost use Rattle.signal_read.specs.SignalRead.{signal_of};

use codes::Refusal;
use signal_bodies::le_credit::{
    read_le_credit_conn_req, read_le_credit_conn_res, read_le_credit_flow_ind,
};
use signal_bodies::{
    read_command_reject_res, read_conn_param_update_req, read_conn_param_update_res,
    read_disconnection_req, read_disconnection_res,
};
use signal_forms::Signal;

// A body by its code: Decode where it is bad, NotSupported where the code is none of the eight.
pub fn read_signal(code: u8, body: &[u8]) -> Result<Signal, Refusal>
    ensures { result ≡ signal_of code body.now }
{
    match code {
        0x01 => read_command_reject_res(body)
            .map(Signal::CommandRejectRes)
            .ok_or(Refusal::Decode),
        0x06 => read_disconnection_req(body)
            .map(Signal::DisconnectionReq)
            .ok_or(Refusal::Decode),
        0x07 => read_disconnection_res(body)
            .map(Signal::DisconnectionRes)
            .ok_or(Refusal::Decode),
        0x12 => read_conn_param_update_req(body)
            .map(Signal::ConnParamUpdateReq)
            .ok_or(Refusal::Decode),
        0x13 => read_conn_param_update_res(body)
            .map(Signal::ConnParamUpdateRes)
            .ok_or(Refusal::Decode),
        0x14 => read_le_credit_conn_req(body)
            .map(Signal::LeCreditConnReq)
            .ok_or(Refusal::Decode),
        0x15 => read_le_credit_conn_res(body)
            .map(Signal::LeCreditConnRes)
            .ok_or(Refusal::Decode),
        0x16 => read_le_credit_flow_ind(body)
            .map(Signal::LeCreditFlowInd)
            .ok_or(Refusal::Decode),
        _ => Err(Refusal::NotSupported),
    }
}
