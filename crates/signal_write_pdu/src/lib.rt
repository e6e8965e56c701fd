// The PDU of one signal, written from the buffer's start: the head, then as many fields of two octets as the form has.
#![tactic(auto)]

ghost use Rattle.std.specs.Prelude.{◌≡◌, [], ◌∷◌};
ghost use Rattle.std.proofs.lemmas.List.Edits.{sets};
ghost use Rattle.signal_write_pdu.specs.Pdu.{pdu_of};

use octets::put_number;
use signal_write_head::put_head;

pub fn put_one(out: &mut [u8], code: u8, id: u8, a: u16)
    ensures { out.new ≡ sets out.old 0 (pdu_of code id (a ∷ [])) }
{
    put_head(out, code, id, 2);
    put_number(out, 8, a);
}

pub fn put_two(out: &mut [u8], code: u8, id: u8, a: u16, b: u16)
    ensures { out.new ≡ sets out.old 0 (pdu_of code id (a ∷ b ∷ [])) }
{
    put_head(out, code, id, 4);
    put_number(out, 8, a);
    put_number(out, 10, b);
}

pub fn put_four(out: &mut [u8], code: u8, id: u8, a: u16, b: u16, c: u16, d: u16)
    ensures { out.new ≡ sets out.old 0 (pdu_of code id (a ∷ b ∷ c ∷ d ∷ [])) }
{
    put_head(out, code, id, 8);
    put_number(out, 8, a);
    put_number(out, 10, b);
    put_number(out, 12, c);
    put_number(out, 14, d);
}

pub fn put_five(out: &mut [u8], code: u8, id: u8, a: u16, b: u16, c: u16, d: u16, e: u16)
    ensures { out.new ≡ sets out.old 0 (pdu_of code id (a ∷ b ∷ c ∷ d ∷ e ∷ [])) }
{
    put_head(out, code, id, 10);
    put_number(out, 8, a);
    put_number(out, 10, b);
    put_number(out, 12, c);
    put_number(out, 14, d);
    put_number(out, 16, e);
}
