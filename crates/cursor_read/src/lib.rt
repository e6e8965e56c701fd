// The read cursor of cursor.rs by value: a cursor is the position alone, and the octets are lent at each call.
// It stands on octets; a position past the end has nothing available.
#![tactic(auto, unfolding(lists::specs::Choose::choose))]

ghost use Rattle.std.specs.Prelude.{◌≡◌, ◌-◌, length, drop};
ghost use Rattle.cursor_read.specs.ReadCursor.{read_number, read_slice, read_past};

use octets::{left, number};

// Where octets are being read.
#[derive(Clone, Copy)]
pub struct ReadCursor {
    pub pos: usize,
}

impl ReadCursor {
    pub fn new() -> Self
        ensures { result.pos ≡ 0 }
    {
        ReadCursor { pos: 0 }
    }

    // How many octets are left to read.
    pub fn available(self, src: &[u8]) -> usize
        ensures { result ≡ length src.now - self.pos }
    {
        left(src.len(), self.pos)
    }

    // How many octets were read.
    pub fn len(self) -> usize
        ensures { result ≡ self.pos }
    {
        self.pos
    }

    // Reads a number of two octets: it, and the cursor behind it. None: insufficient space.
    pub fn read(self, src: &[u8]) -> Option<(u16, ReadCursor)>
        ensures { result ≡ read_number src.now self.pos }
    {
        let pos = self.pos;
        if left(src.len(), pos) < 2 {
            None
        } else {
            Some((number(src, pos), ReadCursor { pos: pos + 2 }))
        }
    }

    // The next `n` octets; empty where fewer are left. `past` says which, and gives the cursor behind them.
    pub fn slice(self, src: &[u8], n: usize) -> &[u8]
        ensures { result.now ≡ read_slice src.now self.pos n }
    {
        self.remaining(src).get(..n).unwrap_or(&[])
    }

    // The cursor behind the next `n` octets. None: insufficient space.
    pub fn past(self, src: &[u8], n: usize) -> Option<ReadCursor>
        ensures { result ≡ read_past src.now self.pos n }
    {
        let pos = self.pos;
        if left(src.len(), pos) < n {
            None
        } else {
            Some(ReadCursor { pos: pos + n })
        }
    }

    // What is left to read.
    pub fn remaining(self, src: &[u8]) -> &[u8]
        ensures { result.now ≡ drop self.pos src.now }
    {
        src.get(self.pos..).unwrap_or(&[])
    }

    // Back to the start.
    pub fn reset(self) -> Self
        ensures { result.pos ≡ 0 }
    {
        ReadCursor { pos: 0 }
    }
}
