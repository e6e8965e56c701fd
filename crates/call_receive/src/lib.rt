// A finished job taken from a slot (`receive` in the original): what it does to the slot, its part of the room and the lent buffers is `slot_take`'s. The contract is
// the equation with the definition of that call.
#![tactic(auto)]

ghost use Rattle.std.specs.Prelude.{◌≡◌, [], ◌≤◌, ◌<◌, length};
ghost use Rattle.channel.specs.Limits.{signal_most};
ghost use Rattle.definition.specs.Ending.{end, end_of};
ghost use Rattle.definition.specs.Frames.{receive, taken_on};
ghost use Rattle.table_room.specs.Placed.{RoomOf};

use channel::{ChannelIndex, Served, Table};

// Takes the oldest job that waits in a slot.
pub fn receive(
    t: Table,
    room: &mut [u8],
    signal: &mut [u8],
    slot: ChannelIndex,
    job: &mut [u8],
) -> Served
    ensures { end result room.new signal.new job.new ≡ end_of t [] room.old signal.old job.old (receive t (length room.old) (length signal.old) slot.0 (length job.old)) }
{
    let s = table::number(slot);
    match table_gate::gate(t, Some(room.len()), Some(signal.len()), None, Some(s)) {
        Err(r) => table::refused(t, r),
        Ok(()) => take(t, room, signal, s, job),
    }
}

// The same behind the gate. A signal that was written has used an identifier.
fn take(t: Table, room: &mut [u8], signal: &mut [u8], s: usize, job: &mut [u8]) -> Served
    requires { RoomOf t (length room.old) × (s < t.n) × (signal_most ≤ length signal.old) }
    ensures { end result room.new signal.new job.new ≡ end_of t [] room.old signal.old job.old (taken_on t s (length job.old)) }
{
    let x = table::slot_at(t, s);
    let w = slot_take::take_from(room, t.d, t.m, s, x, table::next_id(t), signal, job);
    let a = w.answer;
    let y = w.slot;
    if w.octets == 0 {
        return table::changed(t, s, y, a, w.octets);
    }
    let u = table::spent(t);
    table::changed(u, s, y, a, w.octets)
}
