// The calls of `run_call_opening` and `run_call_closing`, and the opened query, each with its row (docs/CHANRUN.md): the call is made on the table and the lent
// room, and its row is written at the start of a lent `row`. What each comes to is defined in specs/Played.antt. Signals, frames and jobs are in
// `run_frames`.
#![tactic(auto)]

ghost use Rattle.std.specs.Prelude.{◌≡◌, take};
ghost use Rattle.text_write.specs.Rows.{Writes};
ghost use Rattle.row_call.specs.Printed.{row_text};
ghost use Rattle.run_play.specs.Plays.{Plays};
ghost use Rattle.run_plain.specs.Played.{opening_of, closing_of, opened_of};

use channel::{SIGNAL_MOST, Served, Table};
use row_call::first;
use run_call_closing::called_closing;
use run_call_opening::called_opening;
use run_play::Played;
use script_commands::{Closing, Opening, slot_of};

// The row of what a call gave back, with what it wrote to its signal buffer.
fn answered(s: Served, signal: &[u8], row: &mut [u8]) -> Played
    ensures { (result.table ≡ s.table) × Writes row.old 0 (row_text s.answer (take s.octets signal.now)) result.octets row.new }
{
    let answer = s.answer;
    let octets = row_call::answered(row, answer, first(signal, s.octets));
    let table = s.table;
    Played { table, octets }
}

// `R`, `P`, `J`, `A`, `X`, `Z`, `C` and `G`
pub fn opening(t: Table, c: Opening, room: &mut [u8], row: &mut [u8]) -> Played
    ensures { Plays (opening_of t room.old c) row.old result room.new row.new }
{
    let mut signal = [0u8; SIGNAL_MOST];
    let s = called_opening(t, c, room, &mut signal);
    answered(s, &signal, row)
}

// `H`, `L`, `D`, `E`, `W`, `Q`, `I`, `Y` and `y`
pub fn closing(t: Table, c: Closing, room: &mut [u8], row: &mut [u8]) -> Played
    ensures { Plays (closing_of t room.old c) row.old result room.new row.new }
{
    let mut signal = [0u8; SIGNAL_MOST];
    let s = called_closing(t, c, room, &mut signal);
    answered(s, &signal, row)
}

// `O`
pub fn opened(t: Table, slot: u16, link: u16, up: bool, room: &mut [u8], row: &mut [u8]) -> Played
    ensures { Plays (opened_of t room.old slot link up) row.old result room.new row.new }
{
    let s = call_opened::opened(t, room, slot_of(slot), link, up);
    let answer = s.answer;
    let octets = row_call::opened(row, answer);
    let table = s.table;
    Played { table, octets }
}
