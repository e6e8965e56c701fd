// A call's answer as octets in a lent slice, for callers in other languages. The layout is in specs/Answers.antt. A slice of fewer octets gets as
// many as it has. It rests on `octets`, and on `channel_answer` for what the answer tells.
#![tactic(auto)]

ghost use Rattle.std.specs.Prelude.{◌≡◌};
ghost use Rattle.std.proofs.lemmas.List.Edits.{sets};
ghost use Rattle.channel_answer.specs.Tells.{tells, answer_number};
ghost use Rattle.edge_answer.specs.Answers.{told_octets};

use channel::Answer;
use channel_answer::{Told, tells};
use octets::{least, put, put_number};

// Writes what was told, and how many octets the call wrote.
pub fn put_told(out: &mut [u8], x: Told, n: usize)
    ensures { out.new ≡ sets out.old 0 (told_octets x n) }
{
    let k = least(n, 4294967295);
    put(out, 0, x.kind);
    put(out, 1, x.refusal);
    put_number(out, 2, (k % 65536) as u16);
    put_number(out, 4, (k / 65536) as u16);
    put_number(out, 6, x.first);
    put_number(out, 8, x.second);
    put_number(out, 10, x.third);
    put_number(out, 12, x.fourth);
    put_number(out, 14, 0);
}

// Writes the answer of a call, and how many octets it wrote: the two parts of what it gave that are told, and no table with them.
pub fn put_answer(out: &mut [u8], a: Answer, n: usize) -> u32
    ensures value { result ≡ answer_number a }
    ensures out_after { out.new ≡ sets out.old 0 (told_octets (tells a) n) }
{
    let x = tells(a);
    put_told(out, x, n);
    x.refusal as u32
}
