// The two parameter senders under the original's names: a parameter request and a parameter response of ours, each with the next identifier.
// Each contract is the equation with the definition of that call. Both come to one function that writes any form, and no caller reaches that.
#![tactic(auto)]

ghost use Rattle.std.specs.Prelude.{◌≡◌, [], length};
ghost use Rattle.definition.specs.Ending.{end, end_of};
ghost use Rattle.definition.specs.Asking.{send_signal, send_conn_param_update_req, send_conn_param_update_res};

use channel::{Answer, Served, Table};
use signal_forms::{ConnParamUpdateReq, ConnParamUpdateRes, Signal};

// Asks the peer for connection parameters.
pub fn send_conn_param_update_req(
    t: Table,
    signal: &mut [u8],
    link: u16,
    min: u16,
    max: u16,
    latency: u16,
    timeout: u16,
) -> Served
    ensures { end result [] signal.new [] ≡ end_of t [] [] signal.old [] (send_conn_param_update_req t (length signal.old) link min max latency timeout) }
{
    let form = ConnParamUpdateReq {
        min,
        max,
        latency,
        timeout,
    };
    send_signal(t, signal, link, Signal::ConnParamUpdateReq(form))
}

// Answers the peer's request for connection parameters: 0 accepts, 1 refuses.
pub fn send_conn_param_update_res(t: Table, signal: &mut [u8], link: u16, res: u16) -> Served
    ensures { end result [] signal.new [] ≡ end_of t [] [] signal.old [] (send_conn_param_update_res t (length signal.old) link res) }
{
    let form = ConnParamUpdateRes { result: res };
    send_signal(t, signal, link, Signal::ConnParamUpdateRes(form))
}

// A signal of ours, with the next identifier.
fn send_signal(t: Table, signal: &mut [u8], link: u16, form: Signal) -> Served
    ensures { end result [] signal.new [] ≡ end_of t [] [] signal.old [] (send_signal t (length signal.old) link form) }
{
    match table_gate::gate(t, None, Some(signal.len()), Some(link as usize), None) {
        Err(r) => table::refused(t, r),
        Ok(()) => {
            let u = table::spent(t);
            let id = table::next_id(t);
            table_endings::tell(u, signal, Answer::Done, id, form)
        }
    }
}
