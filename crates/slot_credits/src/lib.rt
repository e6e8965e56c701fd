// A credit signal's work on one slot by value and on its part of the room: the peer's credits rise, or the channel is left. `on_credits` does it on a table, `edge_signals` on a table's octets;
// both have found the slot. It is defined in specs/Crediting.antt; that it is what the definition's handler does to that slot stands in specs/Into.antt.
#![tactic(auto)]

ghost use Rattle.std.specs.Prelude.{◌≡◌, [], ◌+◌, length};
ghost use Rattle.definition.specs.Mem.{parts};
ghost use Rattle.definition.specs.Table.{place_size, part_width};
ghost use Rattle.definition.specs.Outcome.{only};
ghost use Rattle.table_room.specs.Placed.{Placed};
ghost use Rattle.slot_work.specs.Work.{worked_of};
ghost use Rattle.slot_credits.specs.Crediting.{credits_of};

use channel::{Answer, CREDITS_MOST, ChannelState, Slot};
use codes::Refusal;
use slot_work::Worked;

// What the peer holds, what is set aside for the job that is open, and what is given now.
fn total(held: u16, aside: u16, more: u16) -> u32
    ensures { result ≡ held + aside + more }
{
    held as u32 + aside as u32 + more as u32
}

// Slot x, number s, is given so many credits more; its part is in the room.
pub fn credit_at(room: &mut [u8], d: usize, m: usize, s: usize, x: Slot, more: u16) -> Worked
    requires { Placed d m s (length room.old) }
    ensures { (result ≡ worked_of (credits_of (place_size m) x more))
        × (room.new ≡ parts (λ n. n) [] (part_width d m) (only s (credits_of (place_size m) x more).moves) room.old) }
{
    let held = x.peer.credits;
    let sum = total(held, x.job.aside, more);
    if CREDITS_MOST < sum {
        table_room::zero_assembly(room, d, m, s);
        let y = table_slot::left(x, ChannelState::Disconnecting(false));
        return slot_work::became(y, Answer::Refused(Refusal::InvalidValue), 0);
    }
    let y = table_slot::with_peer_credits(x, held + more);
    slot_work::became(y, Answer::Done, 0)
}
