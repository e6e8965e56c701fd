// Lines out of a buffer that is filled by pieces of any size. `Held` says which octets of the buffer wait to be read; each function answers what
// is held after it. Empty lines and notes, which begin with `#`, are passed over. A line that the buffer cannot hold is told once and its rest passed
// over. What comes of a text, whatever its pieces, is defined in specs/Lines.antt; it rests on `text_cut`, `text_words` and `octets`.
#![tactic(auto)]

ghost use Rattle.std.specs.Prelude.{◌≡◌, false, ◌-◌, length};
ghost use Rattle.std.proofs.lemmas.List.Edits.{sets};
ghost use Rattle.octets.specs.Octets.{part};
ghost use Rattle.text_lines.specs.Lines.{own_of, is_note, line_as, next_of, ready_of, grown_of, last_of};

use octets::{least, left, octet, shift_down};
use text_words::Word;

// The octets of the buffer that wait, from `start` up to, and not with, `end`. `skipping`: they belong to a line that was too long.
#[derive(Clone, Copy)]
pub struct Held {
    pub start: usize,
    pub end: usize,
    pub skipping: bool,
}

// What was found.
#[derive(Clone, Copy)]
pub enum Found {
    // A line that asks for something, without its newline and the carriage return before that.
    Line(Word),
    // Nothing to be read: an empty line, a note, or more of a line that was told already.
    Passed,
    // A line that the buffer cannot hold.
    Long,
    // No whole line: more is to be read.
    More,
}

#[derive(Clone, Copy)]
pub struct Next {
    pub found: Found,
    pub held: Held,
}

// Nothing is held.
pub fn none() -> Held
    ensures { result ≡ record { start = 0; end = 0; skipping = false } }
{
    Held {
        start: 0,
        end: 0,
        skipping: false,
    }
}

// The octets of a line: a carriage return right before its end is not part of it.
fn own_length(line: &[u8]) -> usize
    ensures { result ≡ length (own_of line.now) }
{
    let last = left(line.len(), 1);
    if octet(line, last) == b'\r' {
        return last;
    }
    line.len()
}

// A note begins with `#`.
fn is_note(line: &[u8]) -> bool
    ensures { result ≡ is_note line.now }
{
    octet(line, 0) == b'#'
}

// The line from `start` up to `end`: an empty one and a note are passed over.
fn line_as(buf: &[u8], start: usize, end: usize) -> Found
    ensures { result ≡ line_as buf.now start end }
{
    let line = text_words::text(buf, Word { start, end });
    let n = own_length(line);
    if n == 0 {
        return Found::Passed;
    }
    if is_note(line) {
        return Found::Passed;
    }
    Found::Line(Word {
        start,
        end: start + n,
    })
}

// What comes next of what is held.
pub fn next_line(buf: &[u8], h: Held) -> Next
    ensures { result ≡ next_of buf.now h }
{
    let start = h.start;
    let end = h.end;
    let skipping = h.skipping;
    let at = text_cut::find(buf, start, end, b'\n');
    if at < least(end, buf.len()) {
        let held = Held {
            start: at + 1,
            end,
            skipping: false,
        };
        if skipping {
            let found = Found::Passed;
            return Next { found, held };
        }
        let found = line_as(buf, start, at);
        return Next { found, held };
    }
    if left(end, start) < buf.len() {
        let found = Found::More;
        return Next { found, held: h };
    }
    let held = Held {
        start: 0,
        end: 0,
        skipping: true,
    };
    if skipping {
        let found = Found::Passed;
        return Next { found, held };
    }
    if is_note(text_words::text(buf, Word { start, end })) {
        let found = Found::Passed;
        return Next { found, held };
    }
    let found = Found::Long;
    Next { found, held }
}

// Moves what is held to the buffer's start, so that there is place behind it.
pub fn ready(buf: &mut [u8], h: Held) -> Held
    ensures value { result ≡ ready_of h }
    ensures buf_after { buf.new ≡ sets buf.old 0 (part buf.old h.start (h.end - h.start)) }
{
    let start = h.start;
    let n = left(h.end, start);
    shift_down(buf, 0, start, n);
    Held {
        start: 0,
        end: n,
        skipping: h.skipping,
    }
}

// `n` octets more are held, of a buffer of `len`.
pub fn grown(len: usize, h: Held, n: usize) -> Held
    ensures { result ≡ grown_of len h n }
{
    let end = text_write::behind(len, h.end, n);
    Held {
        start: h.start,
        end,
        skipping: h.skipping,
    }
}

// What is held where the input ends: a last line without its newline, or nothing.
pub fn last_line(buf: &[u8], h: Held) -> Found
    ensures { result ≡ last_of buf.now h }
{
    if h.skipping {
        return Found::Passed;
    }
    line_as(buf, h.start, h.end)
}
