// A finished job handed out of a slot: its octets go to the lent buffer (`shift`), and its queue is one shorter. specs/Handed.antt says what that leaves.
ghost use Rattle.std.specs.Prelude.{◌≡◌, ◌<◌, length};
ghost use Rattle.definition.specs.Frames.{shifted};
ghost use Rattle.table_room.specs.Placed.{Placed};
ghost use Rattle.slot_take.specs.Handed.{Handed};

use channel::{Answer, Queue, Slot};
use slot_work::Worked;

// Slot s, as x, hands its oldest job out; `octets` is what was written of a signal.
pub fn hand(
    room: &mut [u8],
    d: usize,
    m: usize,
    s: usize,
    x: Slot,
    job: &mut [u8],
    octets: usize,
) -> Worked
    requires { Placed d m s (length room.old) × (0 < x.queue.count) }
    ensures { Handed d m s x octets room.old job.old result room.new job.new }
{
    let q = x.queue;
    let len = q.lens[0];
    crate::shift::hand_out(room, d, m, s, q.count, job, len as usize);
    let y = table_slot::with_queue(x, shifted(q));
    slot_work::became(
        y,
        Answer::Job {
            link: x.link,
            length: len,
        },
        octets,
    )
}

// The queue without its oldest job.
fn shifted(q: Queue) -> Queue
    requires { 0 < q.count }
    ensures { result ≡ shifted q }
{
    let old = q.lens;
    let lens = [old[1], old[2], old[3], 0];
    Queue {
        count: q.count - 1,
        lens,
    }
}
