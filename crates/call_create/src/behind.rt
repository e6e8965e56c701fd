// A create that nothing refuses: our attempt in a free slot, and the request. It stands behind the gate, which has found the sizes to be within
// their limits and the signal buffer to be long enough. Its contract is the equation with the definition's `started`.
ghost use Rattle.std.specs.Prelude.{◌≡◌, [], ◌≤◌, ◌<◌, length};
ghost use Rattle.channel.specs.Limits.{signal_most};
ghost use Rattle.definition.specs.Ending.{end, end_of};
ghost use Rattle.definition.specs.Opening.{started};
ghost use Rattle.table_gate.specs.Sizes.{Sized};

use channel::{Answer, L2capChannelConfig, Served, Table};
use credit::CreditFlowControl;
use signal_forms::Signal;

// Slot s starts our attempt, which uses an identifier.
pub fn start(
    t: Table,
    signal: &mut [u8],
    s: usize,
    link: u16,
    spsm: u16,
    c: L2capChannelConfig,
) -> Served
    requires { Sized t.n t.d t.m × (s < t.n) × (signal_most ≤ length signal.old) }
    ensures { end result [] signal.new [] ≡ end_of t [] [] signal.old [] (started t s link spsm c) }
{
    let u = table::spent(t);
    let id = table::next_id(t);
    let mps = table_settings::mps_of(t, c);
    let mtu = table_settings::mtu_of(t, c);
    let credits = table_settings::credits_of(t, c);
    let p = c.policy;
    let account = CreditFlowControl::new(p, credits);
    let y = table_settings::attempted(id, link, spsm, mps, mtu, account);
    let req = table_settings::request(s, spsm, mtu, mps, credits);
    let i = table::index_at(s);
    table_endings::alter_and_tell(
        u,
        signal,
        s,
        y,
        Answer::At(i),
        id,
        Signal::LeCreditConnReq(req),
    )
}
