// A take on a table's octets where they stand, behind refusal 1: the sizes read from line 0, the other first refusals, one row read, `slot_take` done on it, and the
// columns written that a take can change, with the next identifier. What is right stands in specs/Taken.antt of `edge_placed`.
ghost use Rattle.std.specs.Prelude.{◌≡◌, true, length, ◌≤◌, ◌<◌};
ghost use Rattle.channel.specs.Limits.{slots_most, signal_most};
ghost use Rattle.table_room.specs.Placed.{Placed};
ghost use Rattle.slot_take.specs.Taking.{id_then};
ghost use Rattle.edge.specs.Edge.{edge};
ghost use Rattle.edge_layout.specs.Layout.{table_octets};
ghost use Rattle.edge_scan.specs.Scan.{valid_octets};
ghost use Rattle.edge_placed.specs.Frames.{receive_edge};
ghost use Rattle.edge_placed.specs.Taken.{taken_edge};

use channel::{Answer, SIGNAL_MOST};
use codes::Refusal;

// The next identifier that the table says, once so many octets of a signal were written: a signal uses one, and nothing else does.
fn id_then(identifier: u8, octets: usize) -> u8
    ensures { result ≡ id_then identifier octets }
{
    if octets == 0 {
        return identifier;
    }
    table_identifiers::id_after(table_identifiers::given_id(identifier))
}

// A take from slot s, whose part is in the room and whose row is in the table's octets.
fn from_slot(
    table: &mut [u8],
    answer: &mut [u8],
    room: &mut [u8],
    signal: &mut [u8],
    job: &mut [u8],
    d: usize,
    m: usize,
    s: usize,
) -> u32
    requires { (table_octets ≤ length table.old) × (s < slots_most) × Placed d m s (length room.old) × (signal_most ≤ length signal.old) }
    ensures { edge result table.new answer.new room.new signal.new job.new ≡ taken_edge table.old answer.old room.old signal.old job.old d m s }
{
    let x = edge_layout_read::slot_at(table, s);
    let next = octets::octet(table, 5);
    let id = table_identifiers::given_id(next);
    let w = slot_take::take_from(room, d, m, s, x, id, signal, job);
    let y = w.slot;
    let a = w.answer;
    edge_layout_write::put_taken(table, s, y);
    octets::put(table, 5, id_then(next, w.octets));
    edge_answer::put_answer(answer, a, w.octets)
}

// A take on octets that are a well-formed table's.
pub fn admitted(
    table: &mut [u8],
    answer: &mut [u8],
    room: &mut [u8],
    signal: &mut [u8],
    job: &mut [u8],
    slot: u8,
) -> u32
    requires { valid_octets table.old ≡ true }
    ensures { edge result table.new answer.new room.new signal.new job.new ≡ receive_edge table.old answer.old room.old signal.old job.old slot }
{
    let n = octets::octet(table, 1) as usize;
    let d = octets::octet(table, 2) as usize;
    let m = octets::number(table, 3) as usize;
    let size = table_gate::room_size(n, d, m);
    let s = slot as usize;
    let other = room.len() != size;
    let short = signal.len() < SIGNAL_MOST;
    if other {
        return edge_answer::put_answer(answer, Answer::Refused(Refusal::BadRoom), 0);
    }
    if short {
        return edge_answer::put_answer(answer, Answer::Refused(Refusal::NoRoom), 0);
    }
    if n <= s {
        return edge_answer::put_answer(answer, Answer::Refused(Refusal::BadSlot), 0);
    }
    from_slot(table, answer, room, signal, job, d, m, s)
}
