// `S` of a script (docs/CHANRUN.md): the signals of a PDU one after the other, a row a signal. What they leave is defined in specs/Signalled.antt.
#![tactic(auto)]

mod output;

ghost use Rattle.std.specs.Prelude.{◌≡◌, IfOk, OnErr};
ghost use Rattle.run_frames.specs.PlayedFrames.{signal_of};
ghost use Rattle.run_signals.specs.Signalled.{Leaves, LeavesSome, left, signals_of};

use channel::Table;
pub use output::printed_row;
use std::io;

// One signal of a PDU, and its row. Where that can't be printed, the room is as the signal left it.
fn one_signal(
    rt: &impl Print,
    t: Table,
    link: u16,
    listening: bool,
    central: bool,
    pdu: &[u8],
    room: &mut [u8],
    row: &mut [u8],
) -> io::Result<Table>
    ensures ok { IfOk result (λ u. Leaves (left (signal_of t room.old link listening central pdu.now)) u room.new) }
    ensures err { OnErr result (room.new ≡ (signal_of t room.old link listening central pdu.now).room) }
{
    let p = run_frames::signal(t, link, listening, central, pdu, room, row);
    printed_row(rt, p, row)
}

// `S`: a row a signal, one row for empty input. Where a row can't be printed, the room is as that row's signal left it.
pub fn every_signal(
    rt: &impl Print,
    t: Table,
    link: u16,
    listening: bool,
    central: bool,
    pdu: &[u8],
    room: &mut [u8],
    row: &mut [u8],
) -> io::Result<Table>
    ensures ok { IfOk result (λ u. Leaves (signals_of link listening central t room.old pdu.now) u room.new) }
    ensures err { OnErr result (LeavesSome link listening central t room.old pdu.now room.new) }
{
    let mut u = one_signal(rt, t, link, listening, central, pdu, room, row)?;
    let mut rest = signal_headers::rest(pdu);
    while 0 < rest.len() {
        let next = one_signal(rt, u, link, listening, central, rest, room, row)?;
        u = next;
        let tail = signal_headers::rest(rest);
        rest = tail;
    }
    Ok(u)
}
