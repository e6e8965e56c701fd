// A job that is given up, on octets. It is defined in specs/Frames.antt of `edge_placed`, by the call's own definition lifted through the two layouts, and works where the octets stand: one row read,
// `slot_portion` done on its slot and its part of the room, and the row written. The exported name is in `entries`.
#![tactic(auto)]

ghost use Rattle.std.specs.Prelude.{◌≡◌, true, [], ◌+◌, ◌≤◌, ◌<◌, length};
ghost use Rattle.channel.specs.Limits.{slots_most, credits_most};
ghost use Rattle.table_room.specs.Placed.{Placed};
ghost use Rattle.edge.specs.Edge.{edge};
ghost use Rattle.edge_layout.specs.Layout.{table_octets, cell, slot_in};
ghost use Rattle.edge_scan.specs.Scan.{valid_octets};
ghost use Rattle.edge_placed.specs.Frames.{cancel_edge};
ghost use Rattle.edge_placed.specs.Cancelled.{cancelled_edge};

use channel::Answer;
use codes::Refusal;

// Gives up the job of slot s, whose part is in the room and whose row is in the table's octets.
fn at_slot(
    table: &mut [u8],
    answer: &mut [u8],
    room: &mut [u8],
    d: usize,
    m: usize,
    s: usize,
) -> u32
    requires { (table_octets ≤ length table.old) × (s < slots_most) × Placed d m s (length room.old)
        × ((slot_in (cell table.old s)).peer.credits + (slot_in (cell table.old s)).job.aside ≤ credits_most) }
    ensures { edge result table.new answer.new room.new [] [] ≡ cancelled_edge table.old answer.old room.old d m s }
{
    let x = edge_layout_read::slot_at(table, s);
    let w = slot_portion::cancel_at(room, d, m, s, x);
    let y = w.slot;
    let a = w.answer;
    edge_layout_write::put_slot(table, s, y);
    edge_answer::put_answer(answer, a, w.octets)
}

// Gives up a job on octets that are a well-formed table's.
fn admitted(table: &mut [u8], answer: &mut [u8], room: &mut [u8], slot: u8) -> u32
    requires { valid_octets table.old ≡ true }
    ensures { edge result table.new answer.new room.new [] [] ≡ cancel_edge table.old answer.old room.old slot }
{
    let n = octets::octet(table, 1) as usize;
    let d = octets::octet(table, 2) as usize;
    let m = octets::number(table, 3) as usize;
    let size = table_gate::room_size(n, d, m);
    let s = slot as usize;
    let other = room.len() != size;
    if other {
        return edge_answer::put_answer(answer, Answer::Refused(Refusal::BadRoom), 0);
    }
    if n <= s {
        return edge_answer::put_answer(answer, Answer::Refused(Refusal::BadSlot), 0);
    }
    at_slot(table, answer, room, d, m, s)
}

// Gives up the job that is open.
pub fn cancel_job(table: &mut [u8], answer: &mut [u8], room: &mut [u8], slot: u8) -> u32
    ensures { edge result table.new answer.new room.new [] [] ≡ cancel_edge table.old answer.old room.old slot }
{
    if !edge_scan::valid(table) {
        return edge_answer::put_answer(answer, Answer::Refused(Refusal::BadTable), 0);
    }
    admitted(table, answer, room, slot)
}
