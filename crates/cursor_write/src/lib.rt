// The write cursor of cursor.rs by value: a cursor is the position alone, and the octets are lent at each call.
// It stands on octets; a position past the end has no room.
#![tactic(auto, unfolding(lists::specs::Choose::choose))]

ghost use Rattle.std.specs.Prelude.{◌≡◌, ◌-◌, min, length, take};
ghost use Rattle.octets.specs.Octets.{le16};
ghost use Rattle.cursor_write.specs.WriteCursor.{Appends, committed};

use octets::{copy_to, left, put_number};

// Where octets are being written.
#[derive(Clone, Copy)]
pub struct WriteCursor {
    pub pos: usize,
}

impl WriteCursor {
    pub fn new() -> Self
        ensures { result.pos ≡ 0 }
    {
        WriteCursor { pos: 0 }
    }

    // How many octets can still be written.
    pub fn available(self, out: &[u8]) -> usize
        ensures { result ≡ length out.now - self.pos }
    {
        left(out.len(), self.pos)
    }

    // How many octets were written.
    pub fn len(self) -> usize
        ensures { result ≡ self.pos }
    {
        self.pos
    }

    // Writes all octets of `src`, and gives the cursor behind them. None: insufficient space, nothing is written.
    pub fn append(self, out: &mut [u8], src: &[u8]) -> Option<WriteCursor>
        ensures { Appends out.old self.pos src.now result out.new }
    {
        let behind = self.commit(out, src.len())?;
        copy_to(out, self.pos, src, 0, src.len());
        Some(behind)
    }

    // Writes a number of two octets. None: as for `append`.
    pub fn write(self, out: &mut [u8], v: u16) -> Option<WriteCursor>
        ensures { Appends out.old self.pos (le16 v) result out.new }
    {
        let behind = self.commit(out, 2)?;
        put_number(out, self.pos, v);
        Some(behind)
    }

    // Takes `n` octets behind the cursor as written: the caller has put them there. None: insufficient space.
    pub fn commit(self, out: &[u8], n: usize) -> Option<WriteCursor>
        ensures { result ≡ committed out.now self.pos n }
    {
        let pos = self.pos;
        if left(out.len(), pos) < n {
            None
        } else {
            Some(WriteCursor { pos: pos + n })
        }
    }

    // Back to `npos` octets from the start; never forwards.
    pub fn truncate(self, npos: usize) -> Self
        ensures { result.pos ≡ min self.pos npos }
    {
        let pos = self.pos.min(npos);
        WriteCursor { pos }
    }

    // Back to the start.
    pub fn reset(self) -> Self
        ensures { result.pos ≡ 0 }
    {
        WriteCursor { pos: 0 }
    }

    // What was written.
    pub fn finish(self, out: &[u8]) -> &[u8]
        ensures { result.now ≡ take self.pos out.now }
    {
        out.get(..self.pos).unwrap_or(out)
    }
}
