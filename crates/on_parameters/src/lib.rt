// The peer's parameter requests: code 0x12. A central alone takes parameters. They stand behind the gate, which has found the signal buffer to be
// long enough; `on_update` is `pub` for the signal call alone. Its contract is the equation with the definition's `on_update`.
#![tactic(auto)]

mod body;

ghost use Rattle.std.specs.Prelude.{◌≡◌, List, [], ℕ, ◌≤◌, length};
ghost use Rattle.channel.specs.Limits.{signal_most};
ghost use Rattle.channel.specs.declared.Table.{Table as TableOf};
ghost use Rattle.definition.specs.Ending.{end, end_of};
ghost use Rattle.definition.specs.Signals.{on_update};

pub use body::{on_parameter_response, on_reject};
use channel::{Answer, Served, Table};
use signal_bodies::read_conn_param_update_req;

// Code 0x12: a central alone takes parameters; any other side rejects before the body is read.
pub fn on_update(t: Table, out: &mut [u8], central: bool, id: u8, body: &[u8]) -> Served
    requires { signal_most ≤ length out.old }
    ensures { (t₀ : TableOf) (room job : List ℕ) → end result room out.new job ≡ end_of t₀ [] room out.old job (on_update t central id body.now) }
{
    if central {
        return body::on_parameters(t, out, id, read_conn_param_update_req(body));
    }
    on_rejects::reject(t, out, Answer::Done, id, 0)
}
