// Single octets and numbers of two octets, the lower first, read from lent slices and written to them; a number of 64 bits in four of 16; and the two
// lengths that every loop over octets asks for. Every function is total: a place past the end reads as 0 and takes no store, as in the list terms of the contracts.
#![tactic(auto)]

ghost use Rattle.std.specs.Prelude.{◌≡◌, ◌-◌, min, get_or, set};
ghost use Rattle.std.proofs.lemmas.List.Edits.{sets};
ghost use Rattle.octets_numbers.specs.Octets.{u16_at, le16};
ghost use Rattle.octets_numbers.specs.Limbs.{limbs_of, of_limbs};

// The lesser of two lengths: one value, so that no two branches meet behind it.
pub fn least(a: usize, b: usize) -> usize
    ensures { result ≡ min a b }
{
    if a < b { a } else { b }
}

// How many of `len` octets stand at index `at` and after it.
pub fn left(len: usize, at: usize) -> usize
    ensures { result ≡ len - at }
{
    if at < len { len - at } else { 0 }
}

// The octet at `at`; 0 past the end.
pub fn octet(s: &[u8], at: usize) -> u8
    ensures { result ≡ get_or s.now at 0 }
{
    if at < s.len() { s[at] } else { 0 }
}

// The number at `at`, the lower octet first.
pub fn number(s: &[u8], at: usize) -> u16
    ensures { result ≡ u16_at s.now at }
{
    if at < s.len() {
        (octet(s, at) as u16) + 256 * (octet(s, at + 1) as u16)
    } else {
        0
    }
}

// Writes an octet at `at`.
pub fn put(out: &mut [u8], at: usize, v: u8)
    ensures { out.new ≡ set out.old at v }
{
    if at < out.len() {
        out[at] = v;
    }
}

// Writes a number at `at`, the lower octet first.
pub fn put_number(out: &mut [u8], at: usize, v: u16)
    ensures { out.new ≡ sets out.old at (le16 v) }
{
    if at < out.len() {
        put(out, at, (v % 256) as u8);
        put(out, at + 1, (v / 256) as u8);
    }
}

// A number of 64 bits in four of 16, the lowest first.
#[derive(Clone, Copy)]
pub struct Limbs {
    pub first: u16,
    pub second: u16,
    pub third: u16,
    pub fourth: u16,
}

pub fn limbs_of(n: u64) -> Limbs
    ensures { result ≡ limbs_of n }
{
    Limbs {
        first: (n % 65536) as u16,
        second: (n / 65536 % 65536) as u16,
        third: (n / 65536 / 65536 % 65536) as u16,
        fourth: (n / 65536 / 65536 / 65536) as u16,
    }
}

// The number that four of 16 bits make.
pub fn of_limbs(a: u16, b: u16, c: u16, d: u16) -> u64
    ensures { result ≡ of_limbs a b c d }
{
    a as u64 + 65536 * (b as u64 + 65536 * (c as u64 + 65536 * (d as u64)))
}
