// The plain rows of a script's calls (docs/CHANRUN.md), each written at the start of a lent `row` with its newline. Each answers how many octets the
// row has. The texts are defined in specs/PlainRows.antt; it rests on `row_answer` and `text_write`.
ghost use Rattle.std.specs.Prelude.{◌≡◌, [], take};
ghost use Rattle.text_write.specs.Rows.{Writes};
ghost use Rattle.row_call.specs.PlainRows.{bad_text, row_text, more_text};

use channel::Answer;
use octets::least;
use row_answer::{write_answer, write_columns};
use text_write::{write_character, write_text};

// The first `n` octets of `s`, or as many as there are.
pub fn first(s: &[u8], n: usize) -> &[u8]
    ensures { result.now ≡ take n s.now }
{
    let k = least(n, s.len());
    &s[..k]
}

// The row of a line that asks for nothing.
pub fn bad(row: &mut [u8]) -> usize
    ensures { Writes row.old 0 bad_text result row.new }
{
    write_text(row, 0, b"? -\n")
}

// The row of an answer, with the octets that were written.
pub fn answered(row: &mut [u8], a: Answer, octets: &[u8]) -> usize
    ensures { Writes row.old 0 (row_text a octets.now) result row.new }
{
    let n = write_answer(row, 0, a, octets);
    write_character(row, n, b'\n')
}

// The row of an answer that wrote nothing.
pub fn told(row: &mut [u8], a: Answer) -> usize
    ensures { Writes row.old 0 (row_text a []) result row.new }
{
    answered(row, a, b"")
}

// The same with numbers behind it.
pub fn told_more(row: &mut [u8], a: Answer, more: &[u64]) -> usize
    ensures { Writes row.old 0 (more_text a [] more.now) result row.new }
{
    answered_more(row, a, b"", more)
}

// The row of an answer with octets, and numbers behind it.
pub fn answered_more(row: &mut [u8], a: Answer, octets: &[u8], more: &[u64]) -> usize
    ensures { Writes row.old 0 (more_text a octets.now more.now) result row.new }
{
    let n = write_answer(row, 0, a, octets);
    let numbers = write_columns(row, n, more);
    write_character(row, numbers, b'\n')
}
