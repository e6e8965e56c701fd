// What a frame makes of the slot that it comes to: whose frame it is, one credit used, and the payload joined (`joining`) in the slot's part of the room. No table
// is passed: a call on a table and a call on octets both read the slot, have this done and put the slot back. What is right stands in specs/FrameIn.antt.
#![tactic(auto)]

mod joining;

ghost use Rattle.std.specs.Prelude.{◌≡◌, ◌+◌, ◌*◌, ◌≤◌, length};
ghost use Rattle.sar_join.specs.Joining.{job_octets};
ghost use Rattle.channel.specs.Limits.{depth_most};
ghost use Rattle.definition.specs.Mem.{moves, parts};
ghost use Rattle.definition.specs.Table.{place_size, part_width};
ghost use Rattle.definition.specs.Outcome.{only};
ghost use Rattle.table_room.specs.Placed.{Placed};
ghost use Rattle.slot_work.specs.Work.{worked_of};
ghost use Rattle.slot_frame.specs.FrameIn.{frame_of};

use channel::{Answer, Slot};
use codes::Refusal;
use slot_work::Worked;

// A frame comes to slot x, of `d` places for finished jobs and one for assembly, `place` octets each: `part` is the slot's part of the room.
pub fn frame_in(
    x: Slot,
    d: usize,
    place: usize,
    part: &mut [u8],
    link: u16,
    payload: &[u8],
) -> Worked
    requires { ((d + 1) * place ≤ length part.old) × (x.assembly.have ≤ place) × (d ≤ depth_most) }
    ensures { (result ≡ worked_of (frame_of d place x link payload.now))
        × (part.new ≡ moves (λ n. n) (job_octets x.assembly payload.now) part.old (frame_of d place x link payload.now).moves) }
{
    let k = x.state;
    if !table_state::is_connected(k) {
        return slot_work::became(x, Answer::Done, 0);
    }
    let account = x.account;
    let stranger = x.link != link;
    let no_credit = account.credits == 0;
    if stranger {
        return slot_work::became(x, Answer::Refused(Refusal::NotFound), 0);
    }
    if no_credit {
        let y = table_slot::count_blocked_receive(x);
        return slot_work::became(y, Answer::Refused(Refusal::OutOfMemory), 0);
    }
    let y = table_slot::with_account(x, credit_in_place::received_through(account, 1));
    let z = table_slot::count_received(y);
    joining::join(z, d, place, part, payload)
}

// The same where slot s has its part in the room.
pub fn frame_at(
    room: &mut [u8],
    d: usize,
    m: usize,
    s: usize,
    x: Slot,
    link: u16,
    payload: &[u8],
) -> Worked
    requires { Placed d m s (length room.old) × (x.assembly.have ≤ place_size m) }
    ensures { (result ≡ worked_of (frame_of d (place_size m) x link payload.now))
        × (room.new ≡ parts (λ n. n) (job_octets x.assembly payload.now) (part_width d m) (only s (frame_of d (place_size m) x link payload.now).moves) room.old) }
{
    let place = table_gate::place_size(m);
    let w = table_gate::part_size(d, m);
    let at = table_room::part_at(d, m, s);
    let end = at + w;
    frame_in(x, d, place, &mut room[at..end], link, payload)
}
