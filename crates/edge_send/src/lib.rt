// A send, on octets. It is defined in specs/Frames.antt of `edge_placed`, by the call's own definition lifted through the two layouts, and works where the octets stand (`outgoing`). The exported name is in
// `entries`.
#![tactic(auto)]

pub mod outgoing;

ghost use Rattle.std.specs.Prelude.{◌≡◌, []};
ghost use Rattle.edge.specs.Edge.{edge};
ghost use Rattle.edge_placed.specs.Frames.{send_edge};

use channel::Answer;
use codes::Refusal;

// Cuts a job into frames. One row is read, and only the peer's credits and what is counted of sends are written: the rest of it stays, and other rows.
pub fn send(table: &mut [u8], answer: &mut [u8], out: &mut [u8], slot: u8, sdu: &[u8]) -> u32
    ensures { edge result table.new answer.new [] out.new [] ≡ send_edge table.old answer.old out.old slot sdu.now }
{
    if !edge_scan::valid(table) {
        return edge_answer::put_answer(answer, Answer::Refused(Refusal::BadTable), 0);
    }
    let r = outgoing::sent(table, answer, out, slot, sdu);
    r.number
}
