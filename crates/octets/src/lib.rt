// Octets in lent slices: zeroed and moved down here; copied (`octets_copy`), and read and written as numbers of two octets (`octets_numbers`), which are
// passed on. Every function is total: a place past the end reads as 0 and takes no store, as in the list terms of the contracts.
#![tactic(auto)]

ghost use Rattle.std.specs.Prelude.{◌≡◌, ◌≤◌, replicate};
ghost use Rattle.std.proofs.lemmas.List.Edits.{sets};
ghost use Rattle.lists.specs.Sets.{part};

pub use octets_copy::copy_to;
pub use octets_numbers::{Limbs, least, left, limbs_of, number, octet, of_limbs, put, put_number};

// Writes `n` zeros into `dst` from index `at` on, as far as it reaches.
pub fn zero(dst: &mut [u8], at: usize, n: usize)
    ensures { dst.new ≡ sets dst.old at (replicate n 0) }
{
    let m = least(n, left(dst.len(), at));
    // `fill` stores the last octet apart, behind the others: that takes longer.
    for i in 0..m {
        dst[at + i] = 0;
    }
}

// Moves the `n` octets of `dst` from index `from` on down to index `at`; the two places may overlap.
pub fn shift_down(dst: &mut [u8], at: usize, from: usize, n: usize)
    requires { at ≤ from }
    ensures { dst.new ≡ sets dst.old at (part dst.old from n) }
{
    let m = least(n, left(dst.len(), from));
    // `copy_within` brings a loop that moves up beside this one, and a test: that takes longer.
    for i in 0..m {
        dst[at + i] = dst[from + i];
    }
}
