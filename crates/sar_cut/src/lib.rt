// Cutting a job into K-frames (Core Vol 3 Part A 3.4): how many frames, and what is planned for a send. What is right stands in
// specs/Cutting.antt, for the frames written (`sar_frames`) too.
#![tactic(auto)]

ghost use Rattle.std.specs.Prelude.{◌≡◌, ◌*◌, ◌/◌, ◌<◌};
ghost use Rattle.sar_cut.specs.Cutting.{frame_count, plan_send};

use codes::{Refusal, SIZE_LEAST};

// The longest job whose frame of one payload has a length of two octets.
pub const LONGEST_JOB: usize = 65533;

// What a send comes to where nothing refuses it: so many frames, of so many octets in all.
#[derive(Clone, Copy)]
pub struct Framed {
    pub n: usize,
    pub octets: usize,
}

// How many frames of `mps` octets a job of `l` octets takes; none where mps is 0.
pub fn frame_count(l: u16, mps: u16) -> usize
    ensures { result ≡ frame_count l mps }
{
    if mps == 0 {
        return 0;
    }
    // most jobs are one frame, and nothing is divided for them
    if l as u32 + 2 <= mps as u32 {
        return 1;
    }
    quotient(l as u32 + 2 + (mps as u32 - 1), mps) as usize
}

// x divided by m, for boards that have no divide instruction (document 02 (iv)): long division, a bit of the quotient a turn. The steps are m times 2^16, 2^15 and so
// on down to 1, so that it takes 17 turns whatever the numbers. The loop ends by the step and counts no turns: the compiler writes a loop of a known number out turn by
// turn, some 300 octets more of the archive.
fn quotient(x: u32, m: u16) -> u32
    requires { x < m * 131072 }
    ensures { result ≡ x / m }
{
    let last = m as u32;
    let mut step = last * 65536;
    let mut rest = x;
    let mut q: u32 = 0;
    while last <= step {
        q = 2 * q;
        if step <= rest {
            rest = rest - step;
            q = q + 1;
        }
        step = step / 2;
    }
    q
}

// What a send of a job of `l` octets comes to, from the peer's MTU, MPS and credits and the octets of the output.
pub fn plan_send(l: usize, mtu: u16, mps: u16, credits: u16, room: usize) -> Result<Framed, Refusal>
    ensures { result ≡ plan_send l mtu mps credits room }
{
    if (mtu as usize) < l {
        return Err(Refusal::InsufficientSpace);
    }
    if LONGEST_JOB < l {
        return Err(Refusal::TooLong);
    }
    if mps < SIZE_LEAST {
        return Err(Refusal::BadMps);
    }
    let n = frame_count(l as u16, mps);
    if (credits as usize) < n {
        return Err(Refusal::Busy);
    }
    let octets = l + 2 + 4 * n;
    if room < octets {
        return Err(Refusal::NoRoom);
    }
    Ok(Framed { n, octets })
}
