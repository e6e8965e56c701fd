// A portion of an open job, on octets. It is defined in specs/Frames.antt of `edge_placed`, by the call's own definition lifted through the two layouts, and works where the octets stand: one row
// read, `slot_portion` done on its slot, and the open job's numbers written: the rest of the row stays, and other rows. The exported name is in `entries`.
#![tactic(auto)]

ghost use Rattle.std.specs.Prelude.{◌≡◌, true, [], length, ◌≤◌, ◌<◌};
ghost use Rattle.channel.specs.Limits.{slots_most};
ghost use Rattle.edge.specs.Edge.{edge};
ghost use Rattle.edge_layout.specs.Layout.{table_octets, cell, slot_in};
ghost use Rattle.edge_scan.specs.Scan.{valid_octets};
ghost use Rattle.edge_placed.specs.Frames.{portion_edge};

use channel::{Answer, Slot};
use codes::Refusal;
use edge_layout::cells::{number, octet};
use edge_layout::{HOLD, LINK, MPS, MTU, SPSM};

// The slot that row i says, as `edge_layout_read::slot_at` reads it: with one caller, into which the compiler puts it.
#[tactic(auto, unfolding(edge_layout::specs::Layout::slot_in))]
fn row(t: &[u8], i: usize) -> Slot
    requires { (table_octets ≤ length t.now) × (i < slots_most) }
    ensures { result ≡ slot_in (cell t.now i) }
{
    Slot {
        state: edge_layout_read::state_at(t, i),
        link: number(t, i, LINK),
        spsm: number(t, i, SPSM),
        mps: number(t, i, MPS),
        mtu: number(t, i, MTU),
        account: edge_layout_read::account_at(t, i),
        hold: octet(t, i, HOLD),
        peer: edge_layout_read::peer_at(t, i),
        assembly: edge_layout_read::assembly_at(t, i),
        queue: edge_layout_read::queue_at(t, i),
        job: edge_layout_read::job_at(t, i),
        tallies: edge_layout_read::tallies_at(t, i),
    }
}

// Takes a portion on octets that are a well-formed table's.
fn given(table: &mut [u8], answer: &mut [u8], buffer: &mut [u8], slot: u8, octets: &[u8]) -> u32
    requires { valid_octets table.old ≡ true }
    ensures { edge result table.new answer.new [] buffer.new [] ≡ portion_edge table.old answer.old buffer.old slot octets.now }
{
    if table[1] <= slot {
        return edge_answer::put_answer(answer, Answer::Refused(Refusal::BadSlot), 0);
    }
    let x = row(table, slot as usize);
    let w = slot_portion::portion_from(x, octets, buffer);
    edge_layout_write::put_job(table, slot as usize, w.slot.job);
    edge_answer::put_answer(answer, w.answer, w.octets)
}

// Takes a portion of the job that is open, as far as its frame reaches.
pub fn give_portion(
    table: &mut [u8],
    answer: &mut [u8],
    buffer: &mut [u8],
    slot: u8,
    octets: &[u8],
) -> u32
    ensures { edge result table.new answer.new [] buffer.new [] ≡ portion_edge table.old answer.old buffer.old slot octets.now }
{
    if !edge_scan::valid(table) {
        return edge_answer::put_answer(answer, Answer::Refused(Refusal::BadTable), 0);
    }
    given(table, answer, buffer, slot, octets)
}
