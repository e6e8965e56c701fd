// Octets copied from one lent slice to another, as far as both reach.
#![tactic(auto)]

mod eight;

ghost use Rattle.std.specs.Prelude.{◌≡◌, ◌+◌, ◌≤◌, ◌<◌, length};
ghost use Rattle.std.proofs.lemmas.List.Edits.{sets};
ghost use Rattle.lists.specs.Sets.{part};

use octets_numbers::{least, left};

// As many of `m` octets as are copied one by one: all where they are under eight, else the whole eights.
fn whole(m: usize) -> usize
    ensures { (result ≤ m) × (m < result + 8) × (m < 8 → result ≡ m) }
{
    if m < 8 { m } else { m - m % 8 }
}

fn copy_run(dst: &mut [u8], at: usize, src: &[u8], from: usize, count: usize)
    requires { (at + count ≤ length dst.old) × (from + count ≤ length src.now) }
    ensures { dst.new ≡ sets dst.old at (part src.now from count) }
{
    // `copy_from_slice` would call `memmove`, which the archive doesn't ask for.
    for i in 0..count {
        dst[at + i] = src[from + i];
    }
}

// Copies the `n` octets of `src` from index `from` on into `dst` from index `at` on, as far as both reach. Behind
// the whole eights the last eight are moved once more and at once, since single octets at the end take longest.
pub fn copy_to(dst: &mut [u8], at: usize, src: &[u8], from: usize, n: usize)
    ensures { dst.new ≡ sets dst.old at (part src.now from n) }
{
    let m = least(n, least(left(dst.len(), at), left(src.len(), from)));
    if m == 0 {
        return;
    }
    copy_run(dst, at, src, from, whole(m));
    if 8 <= m {
        eight::copy_eight(dst, at + (m - 8), src, from + (m - 8));
    }
}
