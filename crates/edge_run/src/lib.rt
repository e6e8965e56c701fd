// A run of calls: what it told in the end, and that written as its answer. What a run is stands in specs/Run.antt; the runs of frames and of jobs are in `edge_dispatch_run` and `edge_send_run`.
#![tactic(auto)]

ghost use Rattle.std.specs.Prelude.{◌≡◌};
ghost use Rattle.std.proofs.lemmas.List.Edits.{sets};
ghost use Rattle.edge_run.specs.Run.{ran_octets, ended_as, low, high};

use channel_answer::Told;
use octets::least;

// The kind of a run's answer.
pub const RUN: u8 = 11;

// The octets of an answer.
pub const ANSWER_OCTETS: usize = 16;

// What a run came to: 0 or what ended it, the calls made, the octets of the run that they took, the octets written to the output.
#[derive(Clone, Copy)]
pub struct Ended {
    pub stop: u8,
    pub count: usize,
    pub used: usize,
    pub wrote: usize,
}

// So it came.
pub fn ending(stop: u8, count: usize, used: usize, wrote: usize) -> Ended
    ensures { result ≡ ended_as stop count used wrote }
{
    Ended {
        stop,
        count,
        used,
        wrote,
    }
}

// The lower two octets of a number of four; one that takes more is told as the greatest.
fn low(n: usize) -> u16
    ensures { result ≡ low n }
{
    (least(n, 4294967295) % 65536) as u16
}

// The higher two.
fn high(n: usize) -> u16
    ensures { result ≡ high n }
{
    (least(n, 4294967295) / 65536) as u16
}

// Writes the run's own answer.
pub fn put_ended(answer: &mut [u8], e: Ended) -> u32
    ensures value { result ≡ e.stop }
    ensures answer_after { answer.new ≡ sets answer.old 0 (ran_octets e.stop e.count e.used e.wrote) }
{
    let x = Told {
        kind: RUN,
        refusal: e.stop,
        first: low(e.count),
        second: high(e.count),
        third: low(e.used),
        fourth: high(e.used),
    };
    edge_answer::put_told(answer, x, e.wrote);
    e.stop as u32
}
