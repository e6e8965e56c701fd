// The lines: each command is played by a proved function and its rows are printed. What a line leaves is defined in specs/Served.antt.
ghost use Rattle.std.specs.Prelude.{◌≡◌, IfOk, OnErr};
ghost use Rattle.std.proofs.lemmas.List.Edits.{sets};
ghost use Rattle.definition.specs.Asking.{no_slots};
ghost use Rattle.row_call.specs.Printed.{bad_text};
ghost use Rattle.script.specs.Script.{command_of};
ghost use Rattle.run.specs.Playing.{play_of};
ghost use Rattle.run_signals.specs.Signalled.{Leaves, left};
ghost use Rattle.run_portions.specs.PlayedPortions.{portions_of};
ghost use Rattle.chanrun.specs.Served.{Serves, Stands, StandsLine, StandsFound, made_all, lent_all, line_of, found_of};

use channel::Table;
use octets::least;
use row_call::first;
use run_play::{Played, size_of, spelled};
use run_signals::{every_signal, printed_row};
use script_commands::{Command, Portions};
use std::io;
use text_lines::Found;

// ---- making

// The table of no slots, as before the first `T`.
pub fn no_table() -> Table
    ensures { result ≡ no_slots }
{
    call_make::blank(0, 0, 0)
}

// `T`: the buffers are zeroed, also where it is refused.
fn make(
    rt: &impl Print,
    n: u16,
    d: u16,
    m: u16,
    room: &mut [u8],
    buffers: &mut [u8],
    row: &mut [u8],
) -> io::Result<Table>
    ensures ok { IfOk result (λ u. Serves (made_all n d m room.old buffers.old) u room.new buffers.new) }
    ensures err { OnErr result (Stands (made_all n d m room.old buffers.old) room.new buffers.new) }
{
    let p = run_table::made(n, d, m, room, row);
    run_portions::clear(buffers);
    printed_row(rt, p, row)
}

// ---- the rows

// A line that asks for nothing.
fn bad(rt: &impl Print, t: Table, row: &mut [u8]) -> io::Result<Table>
    ensures ok { IfOk result (λ u. u ≡ t) }
    ensures row { row.new ≡ sets row.old 0 bad_text }
{
    let n = row_call::bad(row);
    let p = Played {
        table: t,
        octets: n,
    };
    printed_row(rt, p, row)
}

// Every other command, and its row.
fn one_row(
    rt: &impl Print,
    t: Table,
    c: Command,
    line: &[u8],
    room: &mut [u8],
    octets: &mut [u8],
    frames: &mut [u8],
    row: &mut [u8],
) -> io::Result<Table>
    ensures ok { IfOk result (λ u. Leaves (left (play_of t room.old line.now octets.old frames.old c)) u room.new) }
    ensures err { OnErr result (room.new ≡ (play_of t room.old line.now octets.old frames.old c).room) }
{
    let p = run::play(t, c, line, room, octets, frames, row);
    printed_row(rt, p, row)
}

// A call that is lent a slot's buffer, and its row.
fn portions(
    rt: &impl Print,
    t: Table,
    c: Portions,
    line: &[u8],
    room: &mut [u8],
    octets: &mut [u8],
    buffers: &mut [u8],
    row: &mut [u8],
) -> io::Result<Table>
    ensures ok { IfOk result (λ u. Serves (lent_all (portions_of t room.old line.now octets.old buffers.old c)) u room.new buffers.new) }
    ensures err { OnErr result (Stands (lent_all (portions_of t room.old line.now octets.old buffers.old c)) room.new buffers.new) }
{
    let p = run_portions::play(t, c, line, room, octets, buffers, row);
    printed_row(rt, p, row)
}

// ---- a line

// One line: its call is made and its rows are printed. The table after it.
fn serve(
    rt: &impl Print,
    t: Table,
    line: &[u8],
    room: &mut [u8],
    octets: &mut [u8],
    frames: &mut [u8],
    buffers: &mut [u8],
    row: &mut [u8],
) -> io::Result<Table>
    ensures ok { IfOk result (λ u. Serves (line_of t line.now room.old octets.old frames.old buffers.old (command_of line.now)) u room.new buffers.new) }
    ensures err { OnErr result (StandsLine t line.now room.old octets.old frames.old buffers.old (command_of line.now) room.new buffers.new) }
{
    let c = script::read_command(line);
    if let Command::Make { n, d, m } = c {
        return make(rt, n, d, m, room, buffers, row);
    }
    let size = least(size_of(t.n, t.d, t.m), room.len());
    if let Command::Signal {
        link,
        listening,
        central,
        pdu,
    } = c
    {
        let n = spelled(line, pdu, octets);
        return every_signal(
            rt,
            t,
            link,
            listening,
            central,
            first(octets, n),
            &mut room[..size],
            row,
        );
    }
    if let Command::Portions(call) = c {
        return portions(rt, t, call, line, &mut room[..size], octets, buffers, row);
    }
    one_row(rt, t, c, line, &mut room[..size], octets, frames, row)
}

// What was found in the input: a line is served, and one that is too long gets its row.
pub fn serve_found(
    rt: &impl Print,
    t: Table,
    found: Found,
    input: &[u8],
    room: &mut [u8],
    octets: &mut [u8],
    frames: &mut [u8],
    buffers: &mut [u8],
    row: &mut [u8],
) -> io::Result<Table>
    ensures ok { IfOk result (λ u. Serves (found_of t input.now room.old octets.old frames.old buffers.old found) u room.new buffers.new) }
    ensures err { OnErr result (StandsFound t input.now room.old octets.old frames.old buffers.old found room.new buffers.new) }
{
    match found {
        Found::Line(w) => {
            serve(
                rt,
                t,
                text_words::text(input, w),
                room,
                octets,
                frames,
                buffers,
                row,
            )
        }
        Found::Passed => Ok(t),
        Found::Long => bad(rt, t, row),
        Found::More => Ok(t),
    }
}
