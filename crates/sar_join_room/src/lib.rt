// Joining the payloads of K-frames to a job in a slot's part of the room (l2cap/sar.rs in the original; Core Vol 3 Part A 3.4): the step that
// `sar_join` decides, and what `places` writes for it. What is right stands in specs/SarRoom.antt.
#![tactic(auto)]

mod places;

ghost use Rattle.std.specs.Prelude.{◌≡◌, ◌+◌, ◌*◌, ◌≤◌, length};
ghost use Rattle.octets.specs.Octets.{u16_at};
ghost use Rattle.sar_join.specs.Joining.{join_step};
ghost use Rattle.sar_join_room.specs.SarRoom.{join_part};

use codes::Refusal;
use places::{grow, put_job};
use sar_join::{Assembly, Joined};

// Joins a payload in a slot's part of the room: its place for assembly and the `d` places of its finished jobs, `place` octets each.
// A refusal by which the channel is left leaves the part as it is: who leaves Connected zeroes the place for assembly.
pub fn join_frame(
    places: &mut [u8],
    place: usize,
    mtu: u16,
    mps: u16,
    d: usize,
    a: Assembly,
    queued: usize,
    payload: &[u8],
) -> Result<Joined, Refusal>
    requires { ((d + 1) * place ≤ length places.old) × (a.have ≤ place) }
    ensures { (result ≡ join_step mtu mps d a queued (length payload.now) (u16_at payload.now 0))
        × (places.new ≡ join_part place a queued result places.old payload.now) }
{
    let said = octets::number(payload, 0);
    match sar_join::join_step(mtu, mps, d, a, queued, payload.len(), said)? {
        Joined::Dropped => {
            octets::zero(places, 0, place);
            Ok(Joined::Dropped)
        }
        Joined::Finished(n) => {
            let at = (queued + 1) * place;
            put_job(places, place, a, at, payload);
            Ok(Joined::Finished(n))
        }
        Joined::Assembling(b) => {
            grow(places, a, payload);
            Ok(Joined::Assembling(b))
        }
    }
}
