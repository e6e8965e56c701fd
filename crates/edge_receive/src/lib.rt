// A take, on octets. It is defined in specs/Frames.antt of `edge_placed`, by the call's own definition lifted through the two layouts, and works where the octets stand (`taking`). The exported name is in
// `entries`.
#![tactic(auto)]

mod taking;

ghost use Rattle.std.specs.Prelude.{◌≡◌, []};
ghost use Rattle.edge.specs.Edge.{edge};
ghost use Rattle.edge_placed.specs.Frames.{receive_edge};

use channel::Answer;
use codes::Refusal;

// Takes the oldest job that waits in a slot. One row is read, and only its account, its queue and the table's next identifier are written: the rest of it stays, and other rows.
pub fn receive(
    table: &mut [u8],
    answer: &mut [u8],
    room: &mut [u8],
    signal: &mut [u8],
    job: &mut [u8],
    slot: u8,
) -> u32
    ensures { edge result table.new answer.new room.new signal.new job.new ≡ receive_edge table.old answer.old room.old signal.old job.old slot }
{
    if !edge_scan::valid(table) {
        return edge_answer::put_answer(answer, Answer::Refused(Refusal::BadTable), 0);
    }
    taking::admitted(table, answer, room, signal, job, slot)
}
