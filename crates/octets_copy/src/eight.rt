// Eight octets copied at once.
ghost use Rattle.std.specs.Prelude.{◌≡◌, ◌+◌, ◌≤◌, length, take, drop};
ghost use Rattle.std.proofs.lemmas.List.Edits.{sets};

// Eight octets, all read before the first is written: one move of the machine. Written out, since by `copy_from_slice`
// it takes longer, and as a vector or an array it is 2,300 octets more on a 32-bit board, or 3,400.
pub fn copy_eight(dst: &mut [u8], at: usize, src: &[u8], from: usize)
    requires { (at + 8 ≤ length dst.old) × (from + 8 ≤ length src.now) }
    ensures { dst.new ≡ sets dst.old at (take 8 (drop from src.now)) }
{
    let a = src[from];
    let b = src[from + 1];
    let c = src[from + 2];
    let d = src[from + 3];
    let e = src[from + 4];
    let f = src[from + 5];
    let g = src[from + 6];
    let h = src[from + 7];
    dst[at] = a;
    dst[at + 1] = b;
    dst[at + 2] = c;
    dst[at + 3] = d;
    dst[at + 4] = e;
    dst[at + 5] = f;
    dst[at + 6] = g;
    dst[at + 7] = h;
}
