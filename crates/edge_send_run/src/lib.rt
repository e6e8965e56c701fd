// A run of jobs on a table's octets where they stand: the table is tested once, then each job is a send (`outgoing` of `edge_send`). Defined in specs/Jobs.antt, by the definition of one send. The
// exported name is in `entries`.
#![tactic(auto)]

ghost use Rattle.std.specs.Prelude.{◌≡◌, true, []};
ghost use Rattle.edge_scan.specs.Scan.{valid_octets};
ghost use Rattle.edge_run.specs.Run.{run_edge};
ghost use Rattle.edge_send_run.specs.Jobs.{jobs_run, left_by, send_run_edge};

use codes::Refusal;
use edge_run::{ANSWER_OCTETS, Ended};
use edge_send::outgoing;

// The octets of a job before the job itself: slot, length.
const HEAD: usize = 3;

// The jobs of a run, on octets that are a well-formed table's.
fn jobs_out(table: &mut [u8], out: &mut [u8], jobs: &[u8], answers: &mut [u8]) -> Ended
    requires { valid_octets table.old ≡ true }
    ensures { left_by result table.new out.new answers.new ≡ jobs_run table.old out.old jobs.now answers.old }
{
    let cut = codes::refusal_number(Refusal::Decode);
    let full = codes::refusal_number(Refusal::NoRoom);
    let mut count: usize = 0;
    let mut at: usize = 0;
    let mut wrote: usize = 0;
    // A `while`: a turn's step is its job's length, which stands before the job.
    while at < jobs.len() {
        let left = jobs.len() - at;
        let size = octets::number(jobs, at + 1) as usize + HEAD;
        if left < size {
            return edge_run::ending(cut, count, at, wrote);
        }
        if (answers.len() - ANSWER_OCTETS * count) < ANSWER_OCTETS {
            return edge_run::ending(full, count, at, wrote);
        }
        let slot = jobs[at];
        let from = at + HEAD;
        let end = at + size;
        let to = ANSWER_OCTETS * count;
        let past = to + ANSWER_OCTETS;
        let s = outgoing::sent(
            &mut *table,
            &mut answers[to..past],
            &mut out[wrote..],
            slot,
            &jobs[from..end],
        );
        wrote += s.octets;
        at = end;
        count += 1;
    }
    edge_run::ending(0, count, at, wrote)
}

// Jobs that go out, one after the other: slot, length, octets. Their frames follow one another in the output; each has its answer, and the run its own.
pub fn send_run(
    table: &mut [u8],
    answer: &mut [u8],
    out: &mut [u8],
    jobs: &[u8],
    answers: &mut [u8],
) -> u32
    ensures { run_edge result table.new answer.new [] out.new answers.new ≡ send_run_edge table.old answer.old out.old jobs.now answers.old }
{
    if !edge_scan::valid(table) {
        let stop = codes::refusal_number(Refusal::BadTable);
        return edge_run::put_ended(answer, edge_run::ending(stop, 0, 0, 0));
    }
    let e = jobs_out(table, out, jobs, answers);
    edge_run::put_ended(answer, e)
}
