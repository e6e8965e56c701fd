// A send on a table's octets where they stand, behind refusal 1: the slot held against N, one row read, `slot_send` done on it, and the peer's credits and what is counted of sends written.
// What is right stands in specs/Sent.antt of `edge_placed`.
ghost use Rattle.std.specs.Prelude.{◌≡◌, true, [], length, ◌≤◌, ◌<◌};
ghost use Rattle.channel.specs.Limits.{slots_most};
ghost use Rattle.edge.specs.Edge.{edge};
ghost use Rattle.edge_layout.specs.Layout.{table_octets, cell, slot_in};
ghost use Rattle.edge_scan.specs.Scan.{valid_octets};
ghost use Rattle.edge_placed.specs.Frames.{send_edge, sent_octets};

use channel::{Answer, Slot};
use codes::Refusal;
use edge_layout::cells::{number, octet};
use edge_layout::{HOLD, LINK, MPS, MTU, SPSM};

// What a send tells its caller: 0 or the refusal's number, and the octets of the frames.
#[derive(Clone, Copy)]
pub struct Said {
    pub number: u32,
    pub octets: usize,
}

// The slot that row i says, as `edge_layout_read::slot_at` reads it: with one caller, into which the compiler puts it.
#[tactic(auto, unfolding(edge_layout::specs::Layout::slot_in))]
fn row(t: &[u8], i: usize) -> Slot
    requires { (table_octets ≤ length t.now) × (i < slots_most) }
    ensures { result ≡ slot_in (cell t.now i) }
{
    Slot {
        state: edge_layout_read::state_at(t, i),
        link: number(t, i, LINK),
        spsm: number(t, i, SPSM),
        mps: number(t, i, MPS),
        mtu: number(t, i, MTU),
        account: edge_layout_read::account_at(t, i),
        hold: octet(t, i, HOLD),
        peer: edge_layout_read::peer_at(t, i),
        assembly: edge_layout_read::assembly_at(t, i),
        queue: edge_layout_read::queue_at(t, i),
        job: edge_layout_read::job_at(t, i),
        tallies: edge_layout_read::tallies_at(t, i),
    }
}

// A send on octets that are a well-formed table's.
pub fn sent(table: &mut [u8], answer: &mut [u8], out: &mut [u8], slot: u8, sdu: &[u8]) -> Said
    requires { valid_octets table.old ≡ true }
    ensures out_after { edge result.number table.new answer.new [] out.new [] ≡ send_edge table.old answer.old out.old slot sdu.now }
    ensures octets_value { result.octets ≡ sent_octets table.old out.old slot sdu.now }
{
    if table[1] <= slot {
        let number = edge_answer::put_answer(answer, Answer::Refused(Refusal::BadSlot), 0);
        return Said { number, octets: 0 };
    }
    let x = row(table, slot as usize);
    let w = slot_send::send_from(x, sdu, out);
    edge_layout_write::put_peer_credits(table, slot as usize, w.slot.peer.credits);
    edge_layout_write::put_sends(table, slot as usize, w.slot.tallies.sends);
    let number = edge_answer::put_answer(answer, w.answer, w.octets);
    Said {
        number,
        octets: w.octets,
    }
}
