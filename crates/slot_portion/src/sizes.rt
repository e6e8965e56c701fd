// The sizes of a job's frames, from its numbers: each is the definition's function of that name (Portions.antt).
ghost use Rattle.std.specs.Prelude.{◌≡◌};
ghost use Rattle.definition.specs.Portions.{given_out, longest, frame_size};

use channel::OpenJob;

// The octets of a job's longest payload, of `l` stated.
pub fn longest(mps: u16, l: u16) -> u16
    ensures { result ≡ longest mps l }
{
    octets::least(mps as usize, l as usize + 2) as u16
}

// The stream's octets that are in frames given out.
pub fn given_out(j: OpenJob) -> usize
    ensures { result ≡ given_out j }
{
    octets::left(j.taken as usize + 2, j.filled as usize)
}

// The payload of the frame that is being filled, once it is full.
pub fn frame_size(mps: u16, j: OpenJob) -> u16
    ensures { result ≡ frame_size mps j }
{
    let rest = octets::left(j.length as usize + 2, given_out(j));
    octets::least(mps as usize, rest) as u16
}
