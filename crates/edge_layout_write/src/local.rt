// Our side of a slot written into its row of the table's octets: its state, its own numbers and its account; `edge_layout_write` writes the whole row.
// It stands on `edge_layout`, whose specs/Layout.antt says what the octets mean.
ghost use Rattle.std.specs.Prelude.{◌≡◌, ◌+◌, ◌*◌, ◌≤◌, ◌<◌, length, set};
ghost use Rattle.channel.specs.Limits.{slots_most};
ghost use Rattle.edge_layout.specs.Layout.{table_octets, state_octets, local_octets, account_octets};
ghost use Rattle.edge_layout_write.specs.Puts.{puts, put_number, put_long, put_tally};

use channel::{ChannelState, SLOTS, Tally};
use credit::CreditFlowControl;
use edge_layout::{CREDITS, KIND, LINK, MPS, MTU, POLICY, POLICY_VALUE, RECEIVED, SPSM, VALUE};

// ---- one column

pub fn put_octet(t: &mut [u8], i: usize, column: usize, v: u8)
    requires { i + column < length t.old }
    ensures { t.new ≡ set t.old (i + column) v }
{
    t[i + column] = v;
}

pub fn put_number(t: &mut [u8], i: usize, column: usize, v: u16)
    requires { i + (column + slots_most) < length t.old }
    ensures { t.new ≡ put_number t.old i column v }
{
    put_octet(t, i, column, (v % 256) as u8);
    put_octet(t, i, column + SLOTS, (v / 256) as u8);
}

fn put_long(t: &mut [u8], i: usize, column: usize, v: u64)
    requires { i + (column + 7 * slots_most) < length t.old }
    ensures { t.new ≡ put_long t.old i column v }
{
    let l = octets::limbs_of(v);
    put_number(t, i, column, l.first);
    put_number(t, i, column + 2 * SLOTS, l.second);
    put_number(t, i, column + 4 * SLOTS, l.third);
    put_number(t, i, column + 6 * SLOTS, l.fourth);
}

pub fn put_tally(t: &mut [u8], i: usize, column: usize, y: Tally)
    requires { i + (column + 15 * slots_most) < length t.old }
    ensures { t.new ≡ put_tally t.old i column y }
{
    put_long(t, i, column, y.frames);
    put_long(t, i, column + 8 * SLOTS, y.blocked);
}

// ---- columns in a row

pub fn put_state(t: &mut [u8], i: usize, k: ChannelState)
    requires { (table_octets ≤ length t.old) × (i < slots_most) }
    ensures { t.new ≡ puts t.old i 0 (state_octets k) }
{
    put_octet(t, i, KIND, edge_layout::state_kind(k));
    put_octet(t, i, VALUE, edge_layout::state_value(k));
}

pub fn put_local(t: &mut [u8], i: usize, link: u16, spsm: u16, mps: u16, mtu: u16)
    requires { (table_octets ≤ length t.old) × (i < slots_most) }
    ensures { t.new ≡ puts t.old i 2 (local_octets link spsm mps mtu) }
{
    put_number(t, i, LINK, link);
    put_number(t, i, SPSM, spsm);
    put_number(t, i, MPS, mps);
    put_number(t, i, MTU, mtu);
}

pub fn put_account(t: &mut [u8], i: usize, a: CreditFlowControl)
    requires { (table_octets ≤ length t.old) × (i < slots_most) }
    ensures { t.new ≡ puts t.old i 10 (account_octets a) }
{
    let p = a.policy;
    put_octet(t, i, POLICY, edge_layout::policy_kind(p));
    put_number(t, i, POLICY_VALUE, edge_layout::policy_value(p));
    put_number(t, i, CREDITS, a.credits);
    put_number(t, i, RECEIVED, a.received);
}
