// The words of a line, which exactly one space separates, as places in the caller's line. What the words are is defined in
// specs/Words.antt; it rests on `text_cut` and the leaves of `octets`.
#![tactic(auto)]

ghost use Rattle.std.specs.Prelude.{◌≡◌, length};
ghost use Rattle.text_words.specs.Words.{words_of, word_at, word_after, text_of};

use octets::least;
use text_cut::find;

// Where a word stands in its line: from `start` up to, and not with, `end`.
#[derive(Clone, Copy)]
pub struct Word {
    pub start: usize,
    pub end: usize,
}

// The word that starts at `at`: it ends at the next space, or with the line.
pub fn word_at(line: &[u8], at: usize) -> Word
    ensures { result ≡ word_at line.now at }
{
    Word {
        start: at,
        end: find(line, at, line.len(), b' '),
    }
}

// The word behind the space that ends `w`. Behind the line's last word it is an empty one.
pub fn word_after(line: &[u8], w: Word) -> Word
    ensures { result ≡ word_after line.now w }
{
    let end = w.end;
    if end < line.len() {
        word_at(line, end + 1)
    } else {
        word_at(line, line.len())
    }
}

// How many words a line has: one more than its spaces.
pub fn count(line: &[u8]) -> usize
    ensures { result ≡ length (words_of line.now) }
{
    // Not `filter` and `count`: a line of many words takes up to two fifths longer by them.
    let mut n: usize = 1;
    for i in 0..line.len() {
        if line[i] == b' ' {
            n += 1;
        }
    }
    n
}

// The characters of a word.
pub fn text(line: &[u8], w: Word) -> &[u8]
    ensures { result.now ≡ text_of line.now w }
{
    let start = w.start;
    let end = least(w.end, line.len());
    if start < end {
        &line[start..end]
    } else {
        &line[..0]
    }
}
