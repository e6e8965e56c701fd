// The replies that turn a signal down, with nothing changed: a command reject, a refused connect response, a refused parameter request.
// They stand behind the gate, which has found the signal buffer long enough; each is `pub` for the handlers above alone.
#![tactic(auto)]

ghost use Rattle.std.specs.Prelude.{◌≡◌, List, [], ◌∷◌, ℕ, ◌≤◌, length};
ghost use Rattle.channel.specs.Limits.{signal_most};
ghost use Rattle.channel.specs.declared.Answer.TheVariants.{Done};
ghost use Rattle.channel.specs.declared.Table.{Table as TableOf};
ghost use Rattle.definition.specs.Outcome.{still};
ghost use Rattle.definition.specs.Ending.{end, end_of};
ghost use Rattle.definition.specs.Pending.{refused_response};
ghost use Rattle.definition.specs.Signals.{reject_reply, bad_body};

use channel::{Answer, Served, Table};
use codes::{LeCreditConnResultCode, Refusal};
use signal_forms::{CommandRejectRes, LeCreditConnRes, Signal};

// A command reject, with its reason.
pub fn reject(t: Table, out: &mut [u8], a: Answer, id: u8, reason: u16) -> Served
    requires { signal_most ≤ length out.old }
    ensures { (t₀ : TableOf) (room job : List ℕ) → end result room out.new job ≡ end_of t₀ [] room out.old job (still t a (reject_reply id reason)) }
{
    let res = CommandRejectRes { reason };
    table_endings::tell(t, out, a, id, Signal::CommandRejectRes(res))
}

// A body that can't be read.
pub fn bad_body(t: Table, out: &mut [u8], id: u8) -> Served
    requires { signal_most ≤ length out.old }
    ensures { (t₀ : TableOf) (room job : List ℕ) → end result room out.new job ≡ end_of t₀ [] room out.old job (bad_body t id) }
{
    reject(t, out, Answer::Refused(Refusal::Decode), id, 0)
}

// A connect request that is refused: zeros before the result.
pub fn refuse(t: Table, out: &mut [u8], id: u8, outcome: LeCreditConnResultCode) -> Served
    requires { signal_most ≤ length out.old }
    ensures { (t₀ : TableOf) (room job : List ℕ) → end result room out.new job ≡ end_of t₀ [] room out.old job (still t Done (refused_response id outcome)) }
{
    let res = LeCreditConnRes::reject(outcome);
    table_endings::tell(t, out, Answer::Done, id, Signal::LeCreditConnRes(res))
}
