// What a take makes of the slot that it names: who may take, the grant that is due (`granting`), and the oldest job handed out of the slot's part of the room
// (`handing`). No table is passed: a call on a table and a call on octets both read the slot, have this done and put the slot back. What is right stands in
// specs/Taking.antt.
#![tactic(auto)]

mod granting;
mod handing;
mod shift;

ghost use Rattle.std.specs.Prelude.{◌≡◌, ◌≤◌, ltb, length, get_or};
ghost use Rattle.channel.specs.Limits.{signal_most};
ghost use Rattle.definition.specs.Table.{part_width};
ghost use Rattle.definition.specs.Frames.{closed};
ghost use Rattle.table_room.specs.Placed.{Placed};
ghost use Rattle.slot_take.specs.Taking.{take_of, Took};

use channel::{Answer, ChannelState, Queue, Slot};
use codes::Refusal;
use slot_work::Worked;

// Takes the oldest job that waits in slot s, as x, which has its part in the room; `id` is the identifier of a signal that is written. A refusal leaves all.
pub fn take_from(
    room: &mut [u8],
    d: usize,
    m: usize,
    s: usize,
    x: Slot,
    id: u8,
    signal: &mut [u8],
    job: &mut [u8],
) -> Worked
    requires { Placed d m s (length room.old) × (signal_most ≤ length signal.old) }
    ensures { Took (part_width d m) s (take_of d m s id x (length job.old)) room.old signal.old job.old result room.new signal.new job.new }
{
    let k = x.state;
    if closed(k) {
        return slot_work::became(x, Answer::Refused(Refusal::ChannelClosed), 0);
    }
    let q = x.queue;
    if q.count == 0 {
        return slot_work::became(x, Answer::Done, 0);
    }
    if short(job.len(), q) {
        return slot_work::became(x, Answer::Refused(Refusal::InsufficientSpace), 0);
    }
    match granting::grant_in(x) {
        None => handing::hand(room, d, m, s, x, job, 0),
        Some(n) => granting::hand_and_grant(room, signal, d, m, s, x, id, job, n),
    }
}

// Has a buffer of `size` octets fewer than the oldest job?
fn short(size: usize, q: Queue) -> bool
    ensures { result ≡ ltb size (get_or q.lens 0 0) }
{
    let oldest = q.lens[0];
    size < oldest as usize
}

// Was the slot never a channel, or is it one no more?
fn closed(k: ChannelState) -> bool
    ensures { result ≡ closed k }
{
    table_state::is_disconnected(k)
        | (table_state::is_connecting(k)
            | (table_state::is_peer_connecting(k) | table_state::is_connect_failed(k)))
}
