// An accept that nothing refuses: our numbers, a new account, and the response. It stands behind the gate, which has found the sizes to be within
// their limits and the signal buffer to be long enough. Its contract is the equation with the definition's `agreed`.
ghost use Rattle.std.specs.Prelude.{◌≡◌, [], ◌≤◌, ◌<◌, length};
ghost use Rattle.channel.specs.Limits.{signal_most};
ghost use Rattle.definition.specs.Ending.{end, end_of};
ghost use Rattle.definition.specs.Pending.{agreed};
ghost use Rattle.table_gate.specs.Sizes.{Sized};

use channel::{Answer, L2capChannelConfig, Served, Slot, Table};
use credit::CreditFlowControl;
use signal_forms::Signal;

// Slot s, as x, becomes a channel.
pub fn agree(t: Table, signal: &mut [u8], s: usize, x: Slot, c: L2capChannelConfig) -> Served
    requires { Sized t.n t.d t.m × (s < t.n) × (signal_most ≤ length signal.old) }
    ensures { end result [] signal.new [] ≡ end_of t [] [] signal.old [] (agreed t s x c) }
{
    let k = x.state;
    let mps = table_settings::mps_of(t, c);
    let mtu = table_settings::mtu_of(t, c);
    let credits = table_settings::credits_of(t, c);
    let p = c.policy;
    let account = CreditFlowControl::new(p, credits);
    let y = table_settings::accepted(x, mps, mtu, account);
    let res = table_settings::response(s, mtu, mps, credits);
    let id = table_state::identifier_of(k);
    table_endings::alter_and_tell(
        t,
        signal,
        s,
        y,
        Answer::Link(x.link),
        id,
        Signal::LeCreditConnRes(res),
    )
}
