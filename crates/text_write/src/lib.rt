// Rows of text, written piece by piece into a lent buffer. Each writer answers the place behind its piece, which never passes the
// buffer's end, so that pieces written one after the other are the row (writes-append). It rests on the leaves of `octets`.
#![tactic(auto)]

ghost use Rattle.std.specs.Prelude.{◌≡◌, ◌∷◌, [], ◌+◌, min};
ghost use Rattle.text_write.specs.Rows.{Writes};

use octets::{copy_to, left, put};

// The place behind `n` octets that begin at `at`, in a buffer of `len`.
pub fn behind(len: usize, at: usize, n: usize) -> usize
    ensures { result ≡ min (at + n) len }
{
    if n < left(len, at) { at + n } else { len }
}

// Writes a text at `at`, as far as the buffer reaches.
pub fn write_text(out: &mut [u8], at: usize, text: &[u8]) -> usize
    ensures { Writes out.old at text.now result out.new }
{
    copy_to(out, at, text, 0, text.len());
    behind(out.len(), at, text.len())
}

// Writes one character at `at`: the space between two words, the newline behind a row.
pub fn write_character(out: &mut [u8], at: usize, c: u8) -> usize
    ensures { Writes out.old at (c ∷ []) result out.new }
{
    put(out, at, c);
    behind(out.len(), at, 1)
}
