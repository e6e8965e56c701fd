// A job given up: before its first frame was given out, the credits set aside return; later the channel is left, since the peer holds a part of a job.
ghost use Rattle.std.specs.Prelude.{◌≡◌, [], ◌+◌, ◌≤◌, length};
ghost use Rattle.channel.specs.Limits.{credits_most};
ghost use Rattle.definition.specs.Mem.{parts};
ghost use Rattle.definition.specs.Table.{place_size, part_width};
ghost use Rattle.definition.specs.Outcome.{only};
ghost use Rattle.table_room.specs.Placed.{Placed};
ghost use Rattle.slot_work.specs.Work.{worked_of};
ghost use Rattle.slot_portion.specs.Cancelling.{cancel_of};

use channel::{Answer, ChannelState, Slot};
use codes::Refusal;
use slot_work::Worked;

// Slot x, number s, gives up the job that is open; its part is in the room.
pub fn cancel_at(room: &mut [u8], d: usize, m: usize, s: usize, x: Slot) -> Worked
    requires { Placed d m s (length room.old) × (x.peer.credits + x.job.aside ≤ credits_most) }
    ensures { (result ≡ worked_of (cancel_of (place_size m) x))
        × (room.new ≡ parts (λ n. n) [] (part_width d m) (only s (cancel_of (place_size m) x).moves) room.old) }
{
    let j = x.job;
    if !table_state::is_connected(x.state) {
        return slot_work::became(x, Answer::Refused(Refusal::ChannelClosed), 0);
    }
    if !table_slot::is_open(j) {
        return slot_work::became(x, Answer::Refused(Refusal::NotFound), 0);
    }
    if crate::sizes::given_out(j) == 0 {
        let credits = x.peer.credits + j.aside;
        let y = table_slot::with_job(
            table_slot::with_peer_credits(x, credits),
            table_slot::no_job(),
        );
        return slot_work::became(y, Answer::Done, 0);
    }
    table_room::zero_assembly(room, d, m, s);
    let y = table_slot::left(x, ChannelState::Disconnecting(false));
    slot_work::became(y, Answer::Done, 0)
}
