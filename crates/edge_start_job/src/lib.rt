// The start of a job that is handed over in portions, on octets. It is defined in specs/Frames.antt of `edge_placed`, by the call's own definition lifted through the two layouts, and works where the
// octets stand: one row read, `slot_portion` done on its slot, and the peer's credits, the open job's numbers and what is counted of sends written: the rest of the row stays, and other rows. The exported name is in `entries`.
#![tactic(auto)]

ghost use Rattle.std.specs.Prelude.{◌≡◌, true, []};
ghost use Rattle.edge.specs.Edge.{edge};
ghost use Rattle.edge_scan.specs.Scan.{valid_octets};
ghost use Rattle.edge_placed.specs.Frames.{start_edge};

use channel::Answer;
use codes::Refusal;

// Begins a job of `stated` octets on octets that are a well-formed table's.
fn started(table: &mut [u8], answer: &mut [u8], buffer: &mut [u8], slot: u8, stated: usize) -> u32
    requires { valid_octets table.old ≡ true }
    ensures { edge result table.new answer.new [] buffer.new [] ≡ start_edge table.old answer.old buffer.old slot stated }
{
    if table[1] <= slot {
        return edge_answer::put_answer(answer, Answer::Refused(Refusal::BadSlot), 0);
    }
    let x = edge_layout_read::slot_at(table, slot as usize);
    let w = slot_portion::start_from(x, stated, buffer);
    let y = w.slot;
    let j = y.job;
    let a = w.answer;
    edge_layout_write::put_peer_credits(table, slot as usize, y.peer.credits);
    edge_layout_write::put_job(table, slot as usize, j);
    let counted = y.tallies.sends;
    edge_layout_write::put_sends(table, slot as usize, counted);
    edge_answer::put_answer(answer, a, w.octets)
}

// Begins a job of `stated` octets.
pub fn start_job(
    table: &mut [u8],
    answer: &mut [u8],
    buffer: &mut [u8],
    slot: u8,
    stated: usize,
) -> u32
    ensures { edge result table.new answer.new [] buffer.new [] ≡ start_edge table.old answer.old buffer.old slot stated }
{
    if !edge_scan::valid(table) {
        return edge_answer::put_answer(answer, Answer::Refused(Refusal::BadTable), 0);
    }
    started(table, answer, buffer, slot, stated)
}
