// What the peer says of connection parameters, and its rejects: codes 0x12, 0x13, 0x01. They stand behind the gate, which has found the
// signal buffer long enough; each is `pub` for the signal call alone. Each contract is the equation with the definition's handler.
ghost use Rattle.std.specs.Prelude.{◌≡◌, List, [], ℕ, ◌≤◌, length};
ghost use Rattle.channel.specs.Limits.{signal_most};
ghost use Rattle.channel.specs.declared.Table.{Table as TableOf};
ghost use Rattle.definition.specs.Ending.{end, end_of};
ghost use Rattle.definition.specs.Signals.{on_parameters, on_reject, on_parameter_response};

use channel::{Answer, Served, Table};
use signal_forms::{CommandRejectRes, ConnParamUpdateReq, ConnParamUpdateRes, Signal};
use signal_parameter_rule::parameters_valid;

// Code 0x12 to a central: valid parameters are told to the caller, others are refused by a response.
pub fn on_parameters(t: Table, out: &mut [u8], id: u8, read: Option<ConnParamUpdateReq>) -> Served
    requires { signal_most ≤ length out.old }
    ensures { (t₀ : TableOf) (room job : List ℕ) → end result room out.new job ≡ end_of t₀ [] room out.old job (on_parameters t id read) }
{
    match read {
        None => on_rejects::bad_body(t, out, id),
        Some(req) => {
            if parameters_valid(req) {
                return table::still(
                    t,
                    Answer::Event {
                        min: req.min,
                        max: req.max,
                        latency: req.latency,
                        timeout: req.timeout,
                    },
                    0,
                );
            }
            let res = ConnParamUpdateRes { result: 1 };
            table_endings::tell(t, out, Answer::Done, id, Signal::ConnParamUpdateRes(res))
        }
    }
}

// Code 0x01: read, and nothing more.
pub fn on_reject(t: Table, out: &mut [u8], id: u8, read: Option<CommandRejectRes>) -> Served
    requires { signal_most ≤ length out.old }
    ensures { (t₀ : TableOf) (room job : List ℕ) → end result room out.new job ≡ end_of t₀ [] room out.old job (on_reject t id read) }
{
    match read {
        None => on_rejects::bad_body(t, out, id),
        Some(_) => table::done(t),
    }
}

// Code 0x13: read, and nothing more.
pub fn on_parameter_response(
    t: Table,
    out: &mut [u8],
    id: u8,
    read: Option<ConnParamUpdateRes>,
) -> Served
    requires { signal_most ≤ length out.old }
    ensures { (t₀ : TableOf) (room job : List ℕ) → end result room out.new job ≡ end_of t₀ [] room out.old job (on_parameter_response t id read) }
{
    match read {
        None => on_rejects::bad_body(t, out, id),
        Some(_) => table::done(t),
    }
}
