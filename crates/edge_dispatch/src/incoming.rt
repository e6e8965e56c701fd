// A frame in on a table's octets where they stand, behind refusal 1: the sizes read from line 0, the other first refusals, one row read, `slot_frame` done on it,
// and the columns written that a frame can change. What is right stands in specs/Incoming.antt of `edge_placed`.
ghost use Rattle.std.specs.Prelude.{◌≡◌, true, ◌&&◌, [], eqb, leb, ltb, length, get_or, ◌≤◌, ◌<◌};
ghost use Rattle.channel.specs.Limits.{slots_most, cid_base};
ghost use Rattle.octets.specs.Octets.{u16_at};
ghost use Rattle.definition.specs.Table.{place_size, room_width, slot_of};
ghost use Rattle.table_room.specs.Placed.{Placed};
ghost use Rattle.edge.specs.Edge.{edge};
ghost use Rattle.edge_layout.specs.Layout.{table_octets, cell, slot_in};
ghost use Rattle.edge_layout_write.specs.Puts.{framed_row};
ghost use Rattle.edge_scan.specs.Scan.{valid_octets};
ghost use Rattle.edge_placed.specs.Frames.{dispatch_edge};
ghost use Rattle.edge_placed.specs.Incoming.{framed_edge};

use channel::{Answer, CID_BASE, Cid, HANDLE_MOST, Slot};
use codes::Refusal;
use edge_layout::cells::{number, octet};
use edge_layout::{HOLD, LINK, MPS, MTU, SPSM};

// Does the CID name one of n slots?
fn names_slot(n: usize, cid: u16) -> bool
    ensures { result ≡ (leb cid_base cid && ltb (slot_of cid) n) }
{
    if cid < CID_BASE {
        return false;
    }
    ((cid - CID_BASE) as usize) < n
}

// The slot that row i says, as `edge_layout_read::slot_at` reads it: with one caller, into which the compiler puts it.
#[tactic(auto, unfolding(edge_layout::specs::Layout::slot_in))]
fn row(t: &[u8], i: usize) -> Slot
    requires { (table_octets ≤ length t.now) × (i < slots_most) }
    ensures { result ≡ slot_in (cell t.now i) }
{
    Slot {
        state: edge_layout_read::state_at(t, i),
        link: number(t, i, LINK),
        spsm: number(t, i, SPSM),
        mps: number(t, i, MPS),
        mtu: number(t, i, MTU),
        account: edge_layout_read::account_at(t, i),
        hold: octet(t, i, HOLD),
        peer: edge_layout_read::peer_at(t, i),
        assembly: edge_layout_read::assembly_at(t, i),
        queue: edge_layout_read::queue_at(t, i),
        job: edge_layout_read::job_at(t, i),
        tallies: edge_layout_read::tallies_at(t, i),
    }
}

// Writes what a frame can change of the slot: what is counted of frames, and where the channel is left the open job and all tallies. With one caller too.
fn put_row(t: &mut [u8], i: usize, x: Slot)
    requires { (table_octets ≤ length t.old) × (i < slots_most) }
    ensures { t.new ≡ framed_row t.old i x }
{
    edge_layout_write::put_state(t, i, x.state);
    edge_layout_write::put_account(t, i, x.account);
    edge_layout_write::put_assembly(t, i, x.assembly);
    edge_layout_write::put_queue(t, i, x.queue);
    if table_state::is_connected(x.state) {
        edge_layout_write::put_receives(t, i, x.tallies.receives);
        return;
    }
    edge_layout_write::put_job(t, i, x.job);
    edge_layout_write::put_tallies(t, i, x.tallies);
}

// A frame to slot s, whose part is in the room and whose row is in the table's octets.
fn to_slot(
    table: &mut [u8],
    answer: &mut [u8],
    room: &mut [u8],
    d: usize,
    m: usize,
    s: usize,
    link: u16,
    payload: &[u8],
) -> u32
    requires { (table_octets ≤ length table.old) × (s < slots_most) × Placed d m s (length room.old) × ((slot_in (cell table.old s)).assembly.have ≤ place_size m) }
    ensures { edge result table.new answer.new room.new [] [] ≡ framed_edge table.old answer.old room.old d m s link payload.now }
{
    let x = row(table, s);
    let w = slot_frame::frame_at(room, d, m, s, x, link, payload);
    put_row(table, s, w.slot);
    edge_answer::put_answer(answer, w.answer, w.octets)
}

// Has the room as many octets as the sizes in line 0 say? (Of a well-formed table.)
pub fn room_fits(table: &[u8], long: usize) -> bool
    requires { valid_octets table.now ≡ true }
    ensures { result ≡ eqb long (room_width (get_or table.now 1 0) (get_or table.now 2 0) (u16_at table.now 3)) }
{
    let n = octets::octet(table, 1) as usize;
    let d = octets::octet(table, 2) as usize;
    let m = octets::number(table, 3) as usize;
    long == table_gate::room_size(n, d, m)
}

// A frame on octets that are a well-formed table's.
pub fn admitted(
    table: &mut [u8],
    answer: &mut [u8],
    room: &mut [u8],
    link: u16,
    cid: u16,
    payload: &[u8],
) -> u32
    requires { valid_octets table.old ≡ true }
    ensures { edge result table.new answer.new room.new [] [] ≡ dispatch_edge table.old answer.old room.old link cid payload.now }
{
    let n = octets::octet(table, 1) as usize;
    let d = octets::octet(table, 2) as usize;
    let m = octets::number(table, 3) as usize;
    let beyond = HANDLE_MOST < link as usize;
    if !room_fits(table, room.len()) {
        return edge_answer::put_answer(answer, Answer::Refused(Refusal::BadRoom), 0);
    }
    if beyond {
        return edge_answer::put_answer(answer, Answer::Refused(Refusal::BadHandle), 0);
    }
    if !names_slot(n, cid) {
        return edge_answer::put_answer(answer, Answer::Refused(Refusal::InvalidChannelId), 0);
    }
    let s = table_identifiers::number(table_identifiers::slot_of(Cid(cid)));
    to_slot(table, answer, room, d, m, s, link, payload)
}
