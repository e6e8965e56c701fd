// One octet or number of a row of the table's octets, and the test that the row is the spelling of its slot; `edge_layout_read` reads the slot.
// It stands on `edge_layout`, whose specs/Layout.antt says what the octets mean.
ghost use Rattle.std.specs.Prelude.{◌≡◌, ◌+◌, ◌*◌, ◌≤◌, ◌<◌, length, get_or};
ghost use Rattle.channel.specs.Limits.{slots_most};
ghost use Rattle.edge_layout.specs.Layout.{table_octets, cell, number_at, long_at};
ghost use Rattle.edge_layout.specs.Spelled.{row_spelled};

use crate::{KIND, POLICY, VALUE};
use channel::SLOTS;

pub fn octet(t: &[u8], i: usize, column: usize) -> u8
    requires { i + column < length t.now }
    ensures { result ≡ get_or t.now (i + column) 0 }
{
    t[i + column]
}

// The number whose lower octets are in that column.
pub fn number(t: &[u8], i: usize, column: usize) -> u16
    requires { i + (column + slots_most) < length t.now }
    ensures { result ≡ number_at t.now i column }
{
    (octet(t, i, column) as u16) + 256 * (octet(t, i, column + SLOTS) as u16)
}

// The number of 64 bits whose lowest octets are in that column.
pub fn long(t: &[u8], i: usize, column: usize) -> u64
    requires { i + (column + 7 * slots_most) < length t.now }
    ensures { result ≡ long_at t.now i column }
{
    octets::of_limbs(
        number(t, i, column),
        number(t, i, column + 2 * SLOTS),
        number(t, i, column + 4 * SLOTS),
        number(t, i, column + 6 * SLOTS),
    )
}

// Is row i the spelling of the slot that it says?
pub fn row_spelled(t: &[u8], i: usize) -> bool
    requires { (table_octets ≤ length t.now) × (i < slots_most) }
    ensures { result ≡ row_spelled (cell t.now i) }
{
    crate::state_spelled(octet(t, i, KIND), octet(t, i, VALUE)) & (octet(t, i, POLICY) <= 1)
}
