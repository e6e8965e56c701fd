// Lines 0 to 2 of a table's octets written: layout, sizes, identifier and SPSMs. They are defined in specs/Layout.antt of `edge_layout`.
ghost use Rattle.std.specs.Prelude.{◌≡◌, [], ◌∷◌, ◌/◌, ◌%◌};
ghost use Rattle.std.proofs.lemmas.List.Edits.{sets};
ghost use Rattle.edge_layout.specs.Layout.{layout_number, head};

use channel::Table;
use edge_layout::LAYOUT;

// The octets before the zeros of line 0.
fn put_sizes(out: &mut [u8], n: usize, d: usize, m: usize, identifier: u8)
    ensures { out.new ≡ sets out.old 0 (layout_number ∷ n % 256 ∷ d % 256 ∷ m % 256 ∷ m / 256 % 256 ∷ identifier ∷ []) }
{
    octets::put(out, 0, LAYOUT);
    octets::put(out, 1, (n % 256) as u8);
    octets::put(out, 2, (d % 256) as u8);
    octets::put(out, 3, (m % 256) as u8);
    octets::put(out, 4, (m / 256 % 256) as u8);
    octets::put(out, 5, identifier);
}

fn put_spsms(out: &mut [u8], spsms: [u8; 32])
    ensures { out.new ≡ sets out.old 16 spsms }
{
    octets::copy_to(out, 16, &spsms, 0, 32);
}

// Lines 0 to 2.
pub fn put_head(out: &mut [u8], t: Table)
    ensures { out.new ≡ sets out.old 0 (head t) }
{
    put_sizes(out, t.n, t.d, t.m, t.identifier);
    octets::zero(out, 6, 10);
    let spsms = t.spsms;
    put_spsms(out, spsms);
}
