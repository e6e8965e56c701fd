// A played call (docs/CHANRUN.md): the table after it, and the octets of its row, which is written at the start of a lent `row`; the octets of a room, and of
// a word, as calls are given them. What each is, is defined in specs/Plays.antt.
#![tactic(auto)]

ghost use Rattle.std.specs.Prelude.{◌≡◌, length, take};
ghost use Rattle.run_play.specs.Plays.{size_of, spelled_of};

use channel::Table;
use text_words::Word;

// The table after a call, and the octets of its row.
#[derive(Clone, Copy)]
pub struct Played {
    pub table: Table,
    pub octets: usize,
}

// The octets of a room of these sizes; none where no table has them.
pub fn size_of(n: usize, d: usize, m: usize) -> usize
    ensures { result ≡ size_of n d m }
{
    if table_gate::sizes_fit(n, d, m) {
        table_gate::room_size(n, d, m)
    } else {
        0
    }
}

// The octets of a word, read into `octets`: how many.
pub fn spelled(line: &[u8], w: Word, octets: &mut [u8]) -> usize
    ensures { take result octets.new ≡ spelled_of (length octets.old) line.now w }
{
    text_hex::read_hex(text_words::text(line, w), octets).unwrap_or(0)
}
