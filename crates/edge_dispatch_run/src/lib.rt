// A run of frames on a table's octets where they stand: the table and the room are tested once, then each frame is a frame in (`incoming` of `edge_dispatch`). Defined in specs/Frames.antt, by the
// definition of one frame. The exported name is in `entries`.
#![tactic(auto)]

ghost use Rattle.std.specs.Prelude.{◌≡◌, true, [], ◌+◌, ◌≤◌, ◌<◌, leb, length};
ghost use Rattle.codes.specs.Codes.{refusal_number};
ghost use Rattle.octets.specs.Octets.{part};
ghost use Rattle.edge_scan.specs.Scan.{valid_octets};
ghost use Rattle.edge_run.specs.Run.{ended_as, answer_size, run_edge};
ghost use Rattle.edge_dispatch_run.specs.Frames.{frame_size, frame_call, lent_by, frames_run, left_by, dispatch_run_edge};

use codes::Refusal;
use edge_dispatch::incoming;
use edge_run::{ANSWER_OCTETS, Ended};

// The octets of a frame before its payload, and where its CID and its payload's length stand.
const HEAD: usize = 6;

const CID: usize = 2;

const LENGTH: usize = 4;

// A run that a refusal ends.
fn refused(x: Refusal, count: usize, used: usize) -> Ended
    ensures { result ≡ ended_as (refusal_number x) count used 0 }
{
    edge_run::ending(codes::refusal_number(x), count, used, 0)
}

// Is the frame that begins at `at` whole?
fn whole(frames: &[u8], at: usize) -> bool
    requires { at < length frames.now }
    ensures { result ≡ leb (at + frame_size frames.now at) (length frames.now) }
{
    let left = frames.len() - at;
    if left < HEAD {
        return false;
    }
    let n = octets::number(frames, at + LENGTH) as usize;
    n <= left - HEAD
}

// A whole frame on octets that are a well-formed table's, its answer at `to` of the answers. It gives the place behind the frame.
fn frame_next(
    table: &mut [u8],
    room: &mut [u8],
    frames: &[u8],
    at: usize,
    answers: &mut [u8],
    to: usize,
) -> usize
    requires { (valid_octets table.old ≡ true) × (at + frame_size frames.now at ≤ length frames.now) × (to + answer_size ≤ length answers.old) }
    ensures value { result ≡ at + frame_size frames.now at }
    ensures answers_after { lent_by table.new room.new answers.new ≡ frame_call frames.now at to (part answers.old to answer_size) (lent_by table.old room.old answers.old) }
{
    let link = octets::number(frames, at);
    let cid = octets::number(frames, at + CID);
    let n = octets::number(frames, at + LENGTH) as usize;
    let from = at + HEAD;
    let end = from + n;
    let past = to + ANSWER_OCTETS;
    incoming::admitted(
        table,
        &mut answers[to..past],
        room,
        link,
        cid,
        &frames[from..end],
    );
    end
}

// The frames of a run, on octets that are a well-formed table's.
fn frames_in(table: &mut [u8], room: &mut [u8], frames: &[u8], answers: &mut [u8]) -> Ended
    requires { valid_octets table.old ≡ true }
    ensures { left_by result table.new room.new answers.new ≡ frames_run table.old room.old frames.now answers.old }
{
    let mut count: usize = 0;
    let mut at: usize = 0;
    // A `while`: a turn's step is its frame's length, which stands in the frame.
    while at < frames.len() {
        if !whole(frames, at) {
            return refused(Refusal::Decode, count, at);
        }
        let to = ANSWER_OCTETS * count;
        if answers.len() - to < ANSWER_OCTETS {
            return refused(Refusal::NoRoom, count, at);
        }
        let next = frame_next(table, room, frames, at, answers, to);
        at = next;
        count += 1;
    }
    edge_run::ending(0, count, at, 0)
}

// Frames that came in, one after the other: link, CID, length, payload. Each has its answer, and the run its own.
pub fn dispatch_run(
    table: &mut [u8],
    answer: &mut [u8],
    room: &mut [u8],
    frames: &[u8],
    answers: &mut [u8],
) -> u32
    ensures { run_edge result table.new answer.new room.new [] answers.new ≡ dispatch_run_edge table.old answer.old room.old frames.now answers.old }
{
    if !edge_scan::valid(table) {
        return edge_run::put_ended(answer, refused(Refusal::BadTable, 0, 0));
    }
    if !incoming::room_fits(table, room.len()) {
        return edge_run::put_ended(answer, refused(Refusal::BadRoom, 0, 0));
    }
    let e = frames_in(table, room, frames, answers);
    edge_run::put_ended(answer, e)
}
