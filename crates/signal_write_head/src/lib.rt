// The head of a signal's PDU, written from the buffer's start: length, CID 0x0005, code, identifier, body length (Core Vol 3 Part A 3.1 and 4).
#![tactic(auto)]

ghost use Rattle.std.specs.Prelude.{◌≡◌, ◌≤◌};
ghost use Rattle.std.proofs.lemmas.List.Edits.{sets};
ghost use Rattle.signal_write_head.specs.SignalHead.{head_of};

use octets::{put, put_number};

pub fn put_head(out: &mut [u8], code: u8, id: u8, n: u16)
    requires { n ≤ 10 }
    ensures { out.new ≡ sets out.old 0 (head_of code id n) }
{
    put_number(out, 0, 4 + n);
    put_number(out, 2, 5);
    put(out, 4, code);
    put(out, 5, id);
    put_number(out, 6, n);
}
