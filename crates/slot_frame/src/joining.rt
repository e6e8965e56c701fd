// The payload of a frame joined in its slot's part of the room, and what the slot becomes by it.
ghost use Rattle.std.specs.Prelude.{◌≡◌, ◌+◌, ◌*◌, ◌≤◌, ◌<◌, eqb, length};
ghost use Rattle.lists.specs.Choose.{choose};
ghost use Rattle.sar_join.specs.Joining.{job_octets};
ghost use Rattle.channel.specs.Limits.{depth_most};
ghost use Rattle.definition.specs.Mem.{moves};
ghost use Rattle.definition.specs.Frames.{queued};
ghost use Rattle.slot_work.specs.Work.{worked_of};
ghost use Rattle.slot_frame.specs.FrameIn.{join_of};

use channel::{Answer, ChannelState, Queue, Slot};
use codes::Refusal;
use sar_join::{Assembly, Joined};
use slot_work::Worked;

// The payload comes to a slot whose credit is used: a refusal by which the channel is left, a job for which no place is free, a job that waits now, or an
// assembly that is open.
pub fn join(x: Slot, d: usize, place: usize, part: &mut [u8], payload: &[u8]) -> Worked
    requires { ((d + 1) * place ≤ length part.old) × (x.assembly.have ≤ place) × (d ≤ depth_most) }
    ensures { (result ≡ worked_of (join_of d place x payload.now))
        × (part.new ≡ moves (λ n. n) (job_octets x.assembly payload.now) part.old (join_of d place x payload.now).moves) }
{
    let a = x.assembly;
    let q = x.queue;
    let waiting = q.count as usize;
    let step = sar_join_room::join_frame(part, place, x.mtu, x.mps, d, a, waiting, payload);
    match step {
        Err(r) => {
            octets::zero(part, 0, place);
            let y = table_slot::left(x, ChannelState::Disconnecting(false));
            slot_work::became(y, Answer::Refused(r), 0)
        }
        Ok(Joined::Dropped) => {
            let y = table_slot::with_assembly(x, Assembly { have: 0, want: 0 });
            slot_work::became(y, Answer::Refused(Refusal::QueueFull), 0)
        }
        Ok(Joined::Finished(len)) => {
            let y = table_slot::with_assembly(x, Assembly { have: 0, want: 0 });
            let z = table_slot::with_queue(y, queued(q, len));
            slot_work::became(z, Answer::Done, 0)
        }
        Ok(Joined::Assembling(b)) => {
            let y = table_slot::with_assembly(x, b);
            slot_work::became(y, Answer::Done, 0)
        }
    }
}

// The length at place k of a queue, where `len` is put at place `at`.
fn length_at(at: u8, k: u8, len: u16, old: u16) -> u16
    ensures { result ≡ choose (eqb at k) len old }
{
    if at == k { len } else { old }
}

// One more job waits, of so many octets. Each length is chosen, and none is stored by an index: the four then stay where the machine computes, and are not read back from memory as they were put there.
fn queued(q: Queue, len: u16) -> Queue
    requires { q.count < depth_most }
    ensures { result ≡ queued len q }
{
    let at = q.count;
    let old = q.lens;
    let lens = [
        length_at(at, 0, len, old[0]),
        length_at(at, 1, len, old[1]),
        length_at(at, 2, len, old[2]),
        length_at(at, 3, len, old[3]),
    ];
    Queue {
        count: at + 1,
        lens,
    }
}
