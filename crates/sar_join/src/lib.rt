// Joining the payloads of K-frames to a job (l2cap/sar.rs in the original; Core Vol 3 Part A 3.4): the step that a payload makes, decided from
// numbers alone. What is right stands in specs/Joining.antt. The same on a slot's part of the room is `sar_join_room`.
#![tactic(auto)]

ghost use Rattle.std.specs.Prelude.{◌≡◌};
ghost use Rattle.sar_join.specs.Joining.{reached, join_step};

use codes::Refusal;

// The open assembly of one slot: `have` of the job's `want` octets are there. A want of 0 says that none is open.
#[derive(Clone, Copy)]
pub struct Assembly {
    pub have: u16,
    pub want: u16,
}

// What a good payload comes to: a whole job for which no place is free, a whole job of so many octets, or the assembly that is open now. A refusal in its
// place leaves the channel.
#[derive(Clone, Copy)]
pub enum Joined {
    Dropped,
    Finished(u16),
    Assembling(Assembly),
}

// `have` octets of a job of `want` are there, and `queued` of `d` places are taken.
fn reach(d: usize, queued: usize, want: u16, have: usize) -> Result<Joined, Refusal>
    ensures { result ≡ reached d queued want have }
{
    if (want as usize) < have {
        return Err(Refusal::InvalidValue);
    }
    if have < want as usize {
        return Ok(Joined::Assembling(Assembly {
            have: have as u16,
            want,
        }));
    }
    if d <= queued {
        return Ok(Joined::Dropped);
    }
    Ok(Joined::Finished(want))
}

// The step that a payload of `n` octets makes, whose first two octets say `said`. No other octet decides anything. A payload longer than our MPS is
// refused first.
pub fn join_step(
    mtu: u16,
    mps: u16,
    d: usize,
    a: Assembly,
    queued: usize,
    n: usize,
    said: u16,
) -> Result<Joined, Refusal>
    ensures { result ≡ join_step mtu mps d a queued n said }
{
    if (mps as usize) < n {
        return Err(Refusal::InvalidValue);
    }
    let want = a.want;
    if want == 0 {
        if n < 2 {
            return Err(Refusal::ShortFrame);
        }
        if mtu < said {
            return Err(Refusal::InvalidValue);
        }
        return reach(d, queued, said, n - 2);
    }
    reach(d, queued, want, a.have as usize + n)
}
