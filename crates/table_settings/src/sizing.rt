// Refusal 12 of an accept and a create: our MPS goes up to M-4, our MTU up to M-6. It stands behind the gate, which has found M to be within its
// limits; `too_large` is `pub` for these two calls alone.
ghost use Rattle.std.specs.Prelude.{◌≡◌, ◌≤◌};
ghost use Rattle.channel.specs.Limits.{packet_least, packet_most};
ghost use Rattle.table_settings.specs.Sizing.{too_large};

use channel::{FRAME_HEAD, JOB_HEAD, L2capChannelConfig, Table};

// Is one of our numbers more than the packet leaves room for?
pub fn too_large(t: Table, c: L2capChannelConfig) -> bool
    requires { (packet_least ≤ t.m) × (t.m ≤ packet_most) }
    ensures { result ≡ too_large t c }
{
    let mps = crate::mps_of(t, c);
    let mtu = crate::mtu_of(t, c);
    let long = crate::above(t.m - FRAME_HEAD, mps);
    let wide = crate::above(t.m - JOB_HEAD, mtu);
    long | wide
}
