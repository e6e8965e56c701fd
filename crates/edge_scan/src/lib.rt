// Refusal 1 by one pass over the table's octets, without a table made of them: are they the spelling of a well-formed table? Numbers are compared octet by octet, for every row, with no
// branch, so that the compiler can take all rows at once. What is tested is in specs/Scan.antt, and that it is refusal 1 in specs/Valid.antt.
#![tactic(auto)]

ghost use Rattle.std.specs.Prelude.{◌≡◌, ◌||◌, ◌+◌, ◌-◌, ◌/◌, ◌%◌, ◌≤◌, ◌<◌, leb, length, get_or};
ghost use Rattle.channel.specs.Limits.{slots_most};
ghost use Rattle.edge_layout.specs.Layout.{table_octets, cell};
ghost use Rattle.edge_layout.specs.Spelled.{all_below};
ghost use Rattle.edge_scan.specs.Scan.{most_of, sum_fits, aside_fits, two_more, job_fits, lens_fit, row_fits, valid_octets};

use channel::SLOTS;
use edge_layout::cells::octet;
use edge_layout::{
    COUNT, CREDITS, HAVE, JOB_ASIDE, JOB_FILLED, JOB_LENGTH, JOB_TAKEN, LENS, MTU, PEER_CREDITS,
    PEER_MPS, RECEIVED, TABLE_OCTETS, WANT,
};

// ---- of one row

// Is a number at most another? Each by its lower and its higher octet.
fn most(low: u8, high: u8, l: u8, h: u8) -> bool
    ensures { result ≡ most_of low high l h }
{
    (high < h) | ((high == h) & (low <= l))
}

// The same of the number whose lower octets are in that column.
fn within(t: &[u8], i: usize, column: usize, low: u8, high: u8) -> bool
    requires { i + (column + slots_most) < length t.now }
    ensures { result ≡ most_of (get_or t.now (i + column) 0) (get_or t.now (i + (column + slots_most)) 0) low high }
{
    most(octet(t, i, column), octet(t, i, column + SLOTS), low, high)
}

// Credits held are at most what those received leave of 16 bits.
fn sum_fits(t: &[u8], i: usize) -> bool
    requires { (table_octets ≤ length t.now) × (i < slots_most) }
    ensures { result ≡ sum_fits (cell t.now i) }
{
    let low = 255 - octet(t, i, RECEIVED);
    let high = 255 - octet(t, i, RECEIVED + SLOTS);
    within(t, i, CREDITS, low, high)
}

// The peer's credits are at most what those set aside leave of 16 bits.
fn aside_fits(t: &[u8], i: usize) -> bool
    requires { (table_octets ≤ length t.now) × (i < slots_most) }
    ensures { result ≡ aside_fits (cell t.now i) }
{
    let low = 255 - octet(t, i, JOB_ASIDE);
    let high = 255 - octet(t, i, JOB_ASIDE + SLOTS);
    within(t, i, PEER_CREDITS, low, high)
}

// One less, and 0 of 0.
fn less(n: u8) -> u8
    ensures { result ≡ n - 1 }
{
    if n == 0 { 0 } else { n - 1 }
}

// Is a number at most another and 2? Each by its lower and its higher octet.
fn two_more(low: u8, high: u8, l: u8, h: u8) -> bool
    ensures { result ≡ two_more low high l h }
{
    let carry = 254 <= l;
    let under = low <= ((l as u16 + 2) % 256) as u8;
    (high < h) | (((high == h) & (carry | under)) | (carry & ((less(high) == h) & under)))
}

// Has the open job, if there is one, no count beyond its length or its frame?
fn job_fits(t: &[u8], i: usize) -> bool
    requires { (table_octets ≤ length t.now) × (i < slots_most) }
    ensures { result ≡ job_fits (cell t.now i) }
{
    let closed = (octet(t, i, JOB_ASIDE) == 0) & (octet(t, i, JOB_ASIDE + SLOTS) == 0);
    let low = octet(t, i, JOB_TAKEN);
    let high = octet(t, i, JOB_TAKEN + SLOTS);
    let taken = most(
        low,
        high,
        octet(t, i, JOB_LENGTH),
        octet(t, i, JOB_LENGTH + SLOTS),
    );
    let filled = within(
        t,
        i,
        JOB_FILLED,
        octet(t, i, PEER_MPS),
        octet(t, i, PEER_MPS + SLOTS),
    );
    let begun = two_more(
        octet(t, i, JOB_FILLED),
        octet(t, i, JOB_FILLED + SLOTS),
        low,
        high,
    );
    closed | (taken & (filled & begun))
}

// Each job that waits fits its place.
fn lens_fit(t: &[u8], i: usize, count: u8, low: u8, high: u8) -> bool
    requires { (table_octets ≤ length t.now) × (i < slots_most) }
    ensures { result ≡ lens_fit (cell t.now i) count low high }
{
    ((count <= 0) | within(t, i, LENS, low, high))
        & (((count <= 1) | within(t, i, LENS + 2 * SLOTS, low, high))
            & (((count <= 2) | within(t, i, LENS + 4 * SLOTS, low, high))
                & ((count <= 3) | within(t, i, LENS + 6 * SLOTS, low, high))))
}

// Is no job, queue count or local MTU beyond its place, no count of an open job beyond it, and no credit sum above 65,535?
fn row_fits(t: &[u8], i: usize, d: u8, low: u8, high: u8) -> bool
    requires { (table_octets ≤ length t.now) × (i < slots_most) }
    ensures { result ≡ row_fits (cell t.now i) d low high }
{
    let count = octet(t, i, COUNT);
    let lens = lens_fit(t, i, count, low, high);
    let have = within(t, i, HAVE, low, high);
    let want = within(t, i, WANT, low, high);
    let mtu = within(t, i, MTU, low, high);
    let sum = sum_fits(t, i);
    let job = job_fits(t, i);
    let aside = aside_fits(t, i);
    (count <= d) & (lens & (have & (want & (mtu & (sum & (job & aside))))))
}

// ---- of the table

// The rows of the slots in use.
fn rows_fit(t: &[u8], n: u8, d: u8, place: usize) -> bool
    requires { (table_octets ≤ length t.now) × (place < 65536) }
    ensures { result ≡ all_below (λ k. leb n k || row_fits (cell t.now k) d (place % 256) (place / 256)) slots_most }
{
    let low = (place % 256) as u8;
    let high = (place / 256) as u8;
    let mut ok = true;
    for i in 0..16u8 {
        let fits = row_fits(t, i as usize, d, low, high);
        ok = ok & ((n <= i) | fits);
    }
    ok
}

// Are they the spelling of a well-formed table?
pub fn valid(table: &[u8]) -> bool
    ensures { result ≡ valid_octets table.now }
{
    if table.len() != TABLE_OCTETS {
        return false;
    }
    let n = table[1];
    let d = table[2];
    let m = octets::number(table, 3) as usize;
    let place = table_gate_sizes::place_size(m);
    let spelled = edge_layout_decode::spelled(table);
    let sizes = table_gate_sizes::sizes_fit(n as usize, d as usize, m);
    let rows = rows_fit(table, n, d, place);
    spelled & (sizes & rows)
}
