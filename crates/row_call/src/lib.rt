// The rows of a script's calls (docs/CHANRUN.md), each written at the start of a lent `row` with its newline. Each answers how many octets the row
// has. The texts are defined in specs/Printed.antt; it rests on `plain`, on `channel_answer` for what an answer tells, and for a
// job's row on `row_answer`, `text_hex_write` and `text_write`.
#![tactic(auto)]

mod plain;

ghost use Rattle.std.specs.Prelude.{◌≡◌};
ghost use Rattle.text_write.specs.Rows.{Writes};
ghost use Rattle.row_call.specs.Printed.{opened_text, taken_text, queries_text, tallies_text, standing, filling_text};

use channel::{Answer, FRAME_HEAD, OpenJob};
use channel_answer::{DONE, JOB, NUMBER, number_told, tells};
pub use plain::{answered, bad, first, told};
use plain::{answered_more, told_more};
use row_answer::write_answer;
use text_hex_write::write_hex;
use text_write::write_character;

// `O`: where nothing is to be told yet, 0 is.
pub fn opened(row: &mut [u8], a: Answer) -> usize
    ensures { Writes row.old 0 (opened_text a) result row.new }
{
    let x = tells(a);
    if x.kind == DONE {
        told_more(row, a, &[0])
    } else {
        told(row, a)
    }
}

// `B`: a job's octets, its length twice and the credit signal.
pub fn taken(row: &mut [u8], a: Answer, job: &[u8], signal: &[u8]) -> usize
    ensures { Writes row.old 0 (taken_text a job.now signal.now) result row.new }
{
    let x = tells(a);
    if x.kind == JOB {
        let n = write_answer(row, 0, a, first(job, x.second as usize));
        let space = write_character(row, n, b' ');
        let m = write_hex(row, space, signal);
        write_character(row, m, b'\n')
    } else {
        told(row, a)
    }
}

// `U`: the answers of the five queries.
pub fn queried(
    row: &mut [u8],
    spsm: Answer,
    mtu: Answer,
    mps: Answer,
    peer_mtu: Answer,
    peer_mps: Answer,
) -> usize
    ensures { Writes row.old 0 (queries_text spsm mtu mps peer_mtu peer_mps) result row.new }
{
    let x = tells(spsm);
    if x.kind == NUMBER {
        told_more(
            row,
            spsm,
            &[
                number_told(tells(mtu)),
                number_told(tells(mps)),
                number_told(tells(peer_mtu)),
                number_told(tells(peer_mps)),
            ],
        )
    } else {
        told(row, spsm)
    }
}

// `t`: the answers of the four tallies.
pub fn tallied(
    row: &mut [u8],
    sent: Answer,
    received: Answer,
    blocked_sends: Answer,
    blocked_receives: Answer,
) -> usize
    ensures { Writes row.old 0 (tallies_text sent received blocked_sends blocked_receives) result row.new }
{
    let x = tells(sent);
    if x.kind == NUMBER {
        told_more(
            row,
            sent,
            &[
                number_told(tells(received)),
                number_told(tells(blocked_sends)),
                number_told(tells(blocked_receives)),
            ],
        )
    } else {
        told(row, sent)
    }
}

// The octets that stand in an open job's buffer: the header and what the frame has of its payload.
fn standing(j: OpenJob) -> usize
    ensures { result ≡ standing j }
{
    if j.filled == 0 {
        0
    } else {
        FRAME_HEAD + j.filled as usize
    }
}

// `n`: the frame that is being filled, and the four numbers of the open job.
pub fn filling(row: &mut [u8], j: OpenJob, buffer: &[u8]) -> usize
    ensures { Writes row.old 0 (filling_text j buffer.now) result row.new }
{
    let n = standing(j);
    answered_more(
        row,
        Answer::Done,
        first(buffer, n),
        &[
            j.length as u64,
            j.taken as u64,
            j.filled as u64,
            j.aside as u64,
        ],
    )
}
