// A frame in, on octets. It is defined in specs/Frames.antt of `edge_placed`, by the call's own definition lifted through the two layouts, and works where the octets stand (`incoming`). The exported name is in
// `entries`.
#![tactic(auto)]

pub mod incoming;

ghost use Rattle.std.specs.Prelude.{◌≡◌, []};
ghost use Rattle.edge.specs.Edge.{edge};
ghost use Rattle.edge_placed.specs.Frames.{dispatch_edge};

use channel::Answer;
use codes::Refusal;

// A frame that came in. One row is read, and only the columns that a frame can change are written: the rest of it stays, and other rows.
pub fn dispatch(
    table: &mut [u8],
    answer: &mut [u8],
    room: &mut [u8],
    link: u16,
    cid: u16,
    payload: &[u8],
) -> u32
    ensures { edge result table.new answer.new room.new [] [] ≡ dispatch_edge table.old answer.old room.old link cid payload.now }
{
    if !edge_scan::valid(table) {
        return edge_answer::put_answer(answer, Answer::Refused(Refusal::BadTable), 0);
    }
    incoming::admitted(table, answer, room, link, cid, payload)
}
