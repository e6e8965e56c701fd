// The lines that ask for the table itself, each with its row (docs/CHANRUN.md): `T` makes one, `M` shows a slot's part of the room. What each comes to is defined in specs/PlayedTable.antt; it rests on the calls, on `run_play` and on `row_call`.
#![tactic(auto)]

ghost use Rattle.text_write.specs.Rows.{Writes};
ghost use Rattle.run_play.specs.Plays.{Plays};
ghost use Rattle.run_table.specs.PlayedTable.{made_of, part_of};

use channel::{Answer, Table};
use codes::Refusal;
use run_play::Played;
use text_words::Word;

// ---- `T`

// A room that `room` cannot hold is refused by 1.
pub fn made(n: u16, d: u16, m: u16, room: &mut [u8], row: &mut [u8]) -> Played
    ensures { Plays (made_of n d m room.old) row.old result room.new row.new }
{
    let size = run_play::size_of(n as usize, d as usize, m as usize);
    if room.len() < size {
        let octets = row_call::told(row, Answer::Refused(Refusal::BadTable));
        let table = call_make::blank(0, 0, 0);
        return Played { table, octets };
    }
    let s = call_make::make(n, d, m, &mut room[..size]);
    let answer = s.answer;
    let octets = row_call::told(row, answer);
    let table = s.table;
    Played { table, octets }
}

// ---- `U`

// ---- `M`

pub fn shown(t: Table, slot: u16, room: &[u8], row: &mut [u8]) -> usize
    ensures { Writes row.old 0 (part_of t slot room.now) result row.new }
{
    let s = slot as usize;
    if table_gate::sizes_fit(t.n, t.d, t.m) {
        if t.n <= s {
            return row_call::told(row, Answer::Refused(Refusal::BadSlot));
        }
        let at = table_room::part_at(t.d, t.m, s);
        let end = at + table_gate::part_size(t.d, t.m);
        return row_call::answered(
            row,
            Answer::Done,
            text_words::text(room, Word { start: at, end }),
        );
    }
    row_call::told(row, Answer::Refused(Refusal::BadTable))
}
