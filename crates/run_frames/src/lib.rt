// Signals, frames and jobs, each call with its row (docs/CHANRUN.md): `S`, one signal of the PDU, `F`, `K` and `B`. What each comes to is defined in
// specs/PlayedFrames.antt; it rests on the calls and on `row_call`.
#![tactic(auto)]

ghost use Rattle.std.specs.Prelude.{length};
ghost use Rattle.run_play.specs.Plays.{Plays, spelled_of};
ghost use Rattle.run_frames.specs.PlayedFrames.{signal_of, frame_of, send_of, take_of};

use channel::{Cid, SIGNAL_MOST, Table};
use row_call::first;
use run_play::{Played, spelled};
use script_commands::slot_of;
use text_words::Word;

// `S`: one signal of the PDU.
pub fn signal(
    t: Table,
    link: u16,
    listening: bool,
    central: bool,
    pdu: &[u8],
    room: &mut [u8],
    row: &mut [u8],
) -> Played
    ensures { Plays (signal_of t room.old link listening central pdu.now) row.old result room.new row.new }
{
    let mut signal = [0u8; SIGNAL_MOST];
    let s = call_signal::signal(t, room, &mut signal, link, listening, central, pdu);
    let answer = s.answer;
    let octets = row_call::answered(row, answer, first(&signal, s.octets));
    let table = s.table;
    Played { table, octets }
}

// `F`: the payload is a word of the line, spelled out in `octets`.
pub fn frame(
    t: Table,
    link: u16,
    cid: u16,
    line: &[u8],
    payload: Word,
    octets: &mut [u8],
    room: &mut [u8],
    row: &mut [u8],
) -> Played
    ensures { Plays (frame_of t room.old link cid (spelled_of (length octets.old) line.now payload)) row.old result room.new row.new }
{
    let n = spelled(line, payload, octets);
    let s = call_dispatch::dispatch(t, room, link, Cid(cid), first(octets, n));
    let answer = s.answer;
    let octets = row_call::told(row, answer);
    let table = s.table;
    Played { table, octets }
}

// `K`: the job is a word of the line, spelled out in `octets`.
pub fn send(
    t: Table,
    slot: u16,
    line: &[u8],
    job: Word,
    octets: &mut [u8],
    room: &[u8],
    frames: &mut [u8],
    row: &mut [u8],
) -> Played
    ensures { Plays (send_of t room.now frames.old slot (spelled_of (length octets.old) line.now job)) row.old result room.now row.new }
{
    let n = spelled(line, job, octets);
    let s = call_send::send(t, slot_of(slot), first(octets, n), frames);
    let answer = s.answer;
    let octets = row_call::answered(row, answer, first(frames, s.octets));
    let table = s.table;
    Played { table, octets }
}

// `B`
pub fn take(t: Table, slot: u16, room: &mut [u8], job: &mut [u8], row: &mut [u8]) -> Played
    ensures { Plays (take_of t room.old job.old slot) row.old result room.new row.new }
{
    let mut signal = [0u8; SIGNAL_MOST];
    let s = call_receive::receive(t, room, &mut signal, slot_of(slot), job);
    let answer = s.answer;
    let octets = row_call::taken(row, answer, job, first(&signal, s.octets));
    let table = s.table;
    Played { table, octets }
}
