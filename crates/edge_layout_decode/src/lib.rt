// A whole table read from its octets, where they are exactly its spelling. It stands on `edge_layout_read`, which reads one row.
#![tactic(auto)]

ghost use Rattle.std.specs.Prelude.{◌≡◌, ◌≤◌, length};
ghost use Rattle.edge_layout.specs.Layout.{table_octets, taken, read};
ghost use Rattle.edge_layout.specs.Spelled.{head_spelled, rows_spelled};
ghost use Rattle.edge_layout_decode.specs.Whole.{spelled, not_read};

use channel::{SLOTS, Slot, Table};
use edge_layout::{Decoded, LAYOUT, TABLE_OCTETS};

// ---- the tests

// Has line 0 this layout's number, and zeros at its end?
fn head_spelled(t: &[u8]) -> bool
    requires { table_octets ≤ length t.now }
    ensures { result ≡ head_spelled t.now }
{
    let mut ok = true;
    for i in 0..10 {
        ok = ok & (t[i + 6] == 0);
    }
    (t[0] == LAYOUT) & ok
}

// Is every row the spelling of the slot that it says?
fn rows_spelled(t: &[u8]) -> bool
    requires { table_octets ≤ length t.now }
    ensures { result ≡ rows_spelled t.now }
{
    let mut ok = true;
    for i in 0..SLOTS {
        ok = ok & edge_layout_read::row_spelled(t, i);
    }
    ok
}

// Are they the spelling of the table that they say?
pub fn spelled(t: &[u8]) -> bool
    requires { table_octets ≤ length t.now }
    ensures { result ≡ spelled t.now }
{
    head_spelled(t) & rows_spelled(t)
}

// ---- the table

// The slot of every row.
fn slots_in(t: &[u8]) -> [Slot; SLOTS]
    requires { table_octets ≤ length t.now }
    ensures { result ≡ (taken t.now).slots }
{
    let x = edge_layout_read::slot_at(t, 0);
    let mut xs = [x; SLOTS];
    // Not `array::from_fn`: a table is read an eighth slower by it, in more code.
    for i in 0..SLOTS {
        xs[i] = edge_layout_read::slot_at(t, i);
    }
    xs
}

// Lines 1 and 2.
fn spsms_in(t: &[u8]) -> [u8; 32]
    requires { table_octets ≤ length t.now }
    ensures { result ≡ (taken t.now).spsms }
{
    let mut xs = [0u8; 32];
    octets::copy_to(&mut xs, 0, t, 16, 32);
    xs
}

// The table that the octets say.
fn table_in(t: &[u8]) -> Table
    requires { table_octets ≤ length t.now }
    ensures { result ≡ taken t.now }
{
    let slots = slots_in(t);
    let spsms = spsms_in(t);
    Table {
        slots,
        n: octets::octet(t, 1) as usize,
        d: octets::octet(t, 2) as usize,
        m: octets::number(t, 3) as usize,
        identifier: octets::octet(t, 5),
        spsms,
    }
}

// ---- reading

// What octets that are no spelling are read as.
fn not_read() -> Decoded
    ensures { result ≡ not_read }
{
    let table = call_make::blank(0, 0, 0);
    Decoded { ok: false, table }
}

// The table, where the octets are exactly its spelling; else a table of no slots.
pub fn decode(octets: &[u8]) -> Decoded
    ensures { result ≡ read octets.now }
{
    if octets.len() != TABLE_OCTETS {
        return not_read();
    }
    if !spelled(octets) {
        return not_read();
    }
    let table = table_in(octets);
    Decoded { ok: true, table }
}
