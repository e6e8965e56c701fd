// A payload's octets of a job, written in a slot's part of the room: to the place for assembly, or with what is there to the place of a
// finished job. What is right stands in specs/SarPlaces.antt; it rests on `octets`.
ghost use Rattle.std.specs.Prelude.{◌≡◌, ◌+◌, ◌≤◌, length};
ghost use Rattle.std.proofs.lemmas.List.Edits.{sets};
ghost use Rattle.sar_join.specs.Joining.{assembled, job_octets};
ghost use Rattle.sar_join_room.specs.SarPlaces.{finish};

use sar_join::Assembly;

// The payload's octets of the job come to those in the place for assembly.
pub fn grow(places: &mut [u8], a: Assembly, payload: &[u8])
    ensures { places.new ≡ sets places.old (assembled a) (job_octets a payload.now) }
{
    let n = payload.len();
    if a.want == 0 {
        octets::copy_to(places, 0, payload, 2, octets::left(n, 2));
        return;
    }
    octets::copy_to(places, a.have as usize, payload, 0, n);
}

// The whole job goes to its own place, at `at`; a place for assembly that was in use is zeroed.
pub fn put_job(places: &mut [u8], place: usize, a: Assembly, at: usize, payload: &[u8])
    requires { (at + place ≤ length places.old) × (a.have ≤ place) × (place ≤ at) }
    ensures { places.new ≡ finish place a at places.old payload.now }
{
    let n = payload.len();
    if a.want == 0 {
        octets::copy_to(places, at, payload, 2, octets::left(n, 2));
        return;
    }
    let have = a.have as usize;
    let (assembly, job) = places.split_at_mut(at);
    octets::copy_to(job, 0, assembly, 0, have);
    octets::copy_to(job, have, payload, 0, n);
    octets::zero(assembly, 0, place);
}
