// Jobs handed over in portions, each call with its row (docs/CHANRUN.md): `N`, `p`, `x` and `n`. `buffers` has one buffer a slot, for the frame that is being
// filled; a call is lent a stretch of its slot's own. What each comes to is defined in specs/PlayedPortions.antt; it rests on the calls and on `row_call`.
#![tactic(auto)]

ghost use Rattle.std.specs.Prelude.{◌≡◌, ◌+◌, ◌≤◌, length};
ghost use Rattle.text_write.specs.Rows.{Writes};
ghost use Rattle.run_play.specs.Plays.{Plays, spelled_of};
ghost use Rattle.run_portions.specs.PlayedPortions.{Fills, start_of, give_of, cancel_of, show_of, cleared, buffer_at, lent_size, PlaysLent, portions_of};

use channel::{Answer, Table};
use codes::Refusal;
use octets::{least, left};
use row_call::first;
use run_play::{Played, spelled};
use script_commands::{BUFFER_MOST, Portions, slot_of};
use text_words::Word;

// ---- the calls, each lent its slot's buffer

// `N`
fn start(t: Table, slot: u16, stated: u16, buffer: &mut [u8], row: &mut [u8]) -> Played
    ensures { Fills (start_of t slot stated buffer.old) row.old result buffer.new row.new }
{
    let s = call_start_job::start_job(t, slot_of(slot), stated as usize, buffer);
    let answer = s.answer;
    let octets = row_call::told(row, answer);
    let table = s.table;
    Played { table, octets }
}

// `p`: the portion is a word of the line, spelled out in `octets`.
fn give(
    t: Table,
    slot: u16,
    line: &[u8],
    portion: Word,
    octets: &mut [u8],
    buffer: &mut [u8],
    row: &mut [u8],
) -> Played
    ensures { Fills (give_of t slot (spelled_of (length octets.old) line.now portion) buffer.old) row.old result buffer.new row.new }
{
    let n = spelled(line, portion, octets);
    let s = call_give_portion::give_portion(t, slot_of(slot), first(octets, n), buffer);
    let answer = s.answer;
    let octets = row_call::answered(row, answer, first(buffer, s.octets));
    let table = s.table;
    Played { table, octets }
}

// `x`
fn cancel(t: Table, slot: u16, room: &mut [u8], row: &mut [u8]) -> Played
    ensures { Plays (cancel_of t room.old slot) row.old result room.new row.new }
{
    let s = call_cancel_job::cancel_job(t, room, slot_of(slot));
    let answer = s.answer;
    let octets = row_call::told(row, answer);
    let table = s.table;
    Played { table, octets }
}

// `n`
fn show(t: Table, slot: u16, buffer: &[u8], row: &mut [u8]) -> usize
    ensures { Writes row.old 0 (show_of t slot buffer.now) result row.new }
{
    let s = slot as usize;
    if table_gate::sizes_fit(t.n, t.d, t.m) {
        if t.n <= s {
            return row_call::told(row, Answer::Refused(Refusal::BadSlot));
        }
        let x = table::slot_at(t, s);
        let job = x.job;
        return row_call::filling(row, job, buffer);
    }
    row_call::told(row, Answer::Refused(Refusal::BadTable))
}

// ---- the buffers, and every line of these

// `T`: all zeros.
pub fn clear(buffers: &mut [u8])
    ensures { buffers.new ≡ cleared buffers.old }
{
    let all = buffers.len();
    octets::zero(buffers, 0, all);
}

// A stretch of the buffers.
#[derive(Clone, Copy)]
struct Stretch {
    at: usize,
    end: usize,
}

// So much of a slot's buffer, where there are `all` octets of buffers: none for a slot that has no buffer.
fn of_slot(slot: u16, size: u16, all: usize) -> Stretch
    ensures { (result.at ≡ buffer_at slot all) × (result.end ≡ buffer_at slot all + lent_size slot size all) }
{
    let at = least(least(slot as usize, 255) * BUFFER_MOST as usize, all);
    let end = at + least(least(size as usize, BUFFER_MOST as usize), left(all, at));
    Stretch { at, end }
}

pub fn play(
    t: Table,
    c: Portions,
    line: &[u8],
    room: &mut [u8],
    octets: &mut [u8],
    buffers: &mut [u8],
    row: &mut [u8],
) -> Played
    ensures { PlaysLent (portions_of t room.old line.now octets.old buffers.old c) row.old result room.new buffers.new row.new }
{
    match c {
        Portions::StartJob { slot, stated, size } => {
            let b = of_slot(slot, size, buffers.len());
            let at = b.at;
            let end = b.end;
            start(t, slot, stated, &mut buffers[at..end], row)
        }
        Portions::GivePortion {
            slot,
            size,
            portion,
        } => {
            let own = of_slot(slot, size, buffers.len());
            let at = own.at;
            let end = own.end;
            give(t, slot, line, portion, octets, &mut buffers[at..end], row)
        }
        Portions::CancelJob(slot) => cancel(t, slot, room, row),
        Portions::ShowJob(slot) => {
            let b = of_slot(slot, BUFFER_MOST, buffers.len());
            let start = b.at;
            let end = b.end;
            let n = show(t, slot, text_words::text(buffers, Word { start, end }), row);
            Played {
                table: t,
                octets: n,
            }
        }
    }
}
