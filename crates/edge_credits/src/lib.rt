// A credit signal on a table's octets where they stand: the first refusals told from the octets, the row searched for in three columns, `slot_credits` done on its slot, and the columns
// written that it changes. What is right stands in specs/CreditsIn.antt, and in specs/Credited.antt of `edge_placed`.
#![tactic(auto)]

ghost use Rattle.std.specs.Prelude.{◌≡◌, true, List, [], ℕ, ◌≤◌, ◌<◌, length};
ghost use Rattle.channel.specs.Limits.{slots_most};
ghost use Rattle.definition.specs.Table.{connected_to};
ghost use Rattle.table_room.specs.Placed.{Placed};
ghost use Rattle.edge.specs.Edge.{edge};
ghost use Rattle.edge_layout.specs.Layout.{table_octets, cell, slot_in};
ghost use Rattle.edge_scan.specs.Scan.{valid_octets};
ghost use Rattle.edge_placed.specs.Credited.{credits_edge, row_of, credited_row, credited_edge};
ghost use Rattle.edge_credits.specs.CreditsIn.{credits_in};

use channel::{Answer, HANDLE_MOST, SIGNAL_MOST, Slot};
use codes::Refusal;
use edge_layout::cells::{number, octet};
use edge_layout::{KIND, LINK, PEER_CID};
use signal_bodies::le_credit::read_le_credit_flow_ind;
use signal_forms::LeCreditFlowInd;

// Code 0x16, as the octet that comes: no signal is made of it here.
const CREDITS: u8 = 0x16;

// The octet of a Connected slot in the first column (`edge_layout`, the C interface): no slot is made of it here.
const CONNECTED: u8 = 3;

// The credits that the PDU's first signal gives. The code is asked before the headers, so that a PDU that begins with another signal has its headers checked once.
pub fn credits_in(pdu: &[u8]) -> Option<LeCreditFlowInd>
    ensures { result ≡ credits_in pdu.now }
{
    if octets::octet(pdu, 0) != CREDITS {
        return None;
    }
    match signal_headers::check_headers(pdu) {
        Ok(()) => read_le_credit_flow_ind(signal_headers::body(pdu)),
        Err(_) => None,
    }
}

// Does row i say a Connected slot of this link, with that peer CID?
fn connected_to(t: &[u8], i: usize, link: u16, cid: u16) -> bool
    requires { (table_octets ≤ length t.now) × (i < slots_most) }
    ensures { result ≡ connected_to link cid (slot_in (cell t.now i)) }
{
    (octet(t, i, KIND) == CONNECTED)
        & ((number(t, i, LINK) == link) & (number(t, i, PEER_CID) == cid))
}

// The first of n rows that does, and n where none does.
fn row_of(t: &[u8], n: usize, link: u16, cid: u16) -> usize
    requires { (table_octets ≤ length t.now) × (n ≤ slots_most) }
    ensures { result ≡ row_of t.now n link cid }
{
    for i in 0..n {
        if connected_to(t, i, link, cid) {
            return i;
        }
    }
    n
}

// Writes of the slot what the signal changed: the peer's credits, or, of a channel that is left, what changes then.
fn put_credited(t: &mut [u8], i: usize, x: Slot)
    requires { (table_octets ≤ length t.old) × (i < slots_most) }
    ensures { t.new ≡ credited_row t.old i x }
{
    let k = x.state;
    if table_state::is_connected(k) {
        edge_layout_write::put_peer_credits(t, i, x.peer.credits);
    } else {
        edge_layout_write::put_left(t, i, x);
    }
}

// Credits for slot s, whose part is in the room and whose row is in the table's octets.
fn to_slot(
    table: &mut [u8],
    answer: &mut [u8],
    room: &mut [u8],
    d: usize,
    m: usize,
    s: usize,
    more: u16,
) -> u32
    requires { (table_octets ≤ length table.old) × (s < slots_most) × Placed d m s (length room.old) }
    ensures { (signal : List ℕ) → edge result table.new answer.new room.new signal [] ≡ credited_edge table.old answer.old room.old signal d m s more }
{
    let x = edge_layout_read::slot_at(table, s);
    let w = slot_credits::credit_at(room, d, m, s, x, more);
    let y = w.slot;
    let a = w.answer;
    put_credited(table, s, y);
    edge_answer::put_answer(answer, a, w.octets)
}

// A credit signal on octets that are a well-formed table's.
fn admitted(
    table: &mut [u8],
    answer: &mut [u8],
    room: &mut [u8],
    signal: &[u8],
    link: u16,
    ind: LeCreditFlowInd,
) -> u32
    requires { valid_octets table.old ≡ true }
    ensures { edge result table.new answer.new room.new signal.now [] ≡ credits_edge table.old answer.old room.old signal.now link ind }
{
    let n = octets::octet(table, 1) as usize;
    let d = octets::octet(table, 2) as usize;
    let m = octets::number(table, 3) as usize;
    let size = table_gate::room_size(n, d, m);
    let other = room.len() != size;
    let short = signal.len() < SIGNAL_MOST;
    let beyond = HANDLE_MOST < link as usize;
    if other {
        return edge_answer::put_answer(answer, Answer::Refused(Refusal::BadRoom), 0);
    }
    if short {
        return edge_answer::put_answer(answer, Answer::Refused(Refusal::NoRoom), 0);
    }
    if beyond {
        return edge_answer::put_answer(answer, Answer::Refused(Refusal::BadHandle), 0);
    }
    let s = row_of(table, n, link, ind.cid);
    if n <= s {
        return edge_answer::put_answer(answer, Answer::Refused(Refusal::NotFound), 0);
    }
    to_slot(table, answer, room, d, m, s, ind.credits)
}

// A credit signal.
pub fn credit(
    table: &mut [u8],
    answer: &mut [u8],
    room: &mut [u8],
    signal: &[u8],
    link: u16,
    ind: LeCreditFlowInd,
) -> u32
    ensures { edge result table.new answer.new room.new signal.now [] ≡ credits_edge table.old answer.old room.old signal.now link ind }
{
    if !edge_scan::valid(table) {
        return edge_answer::put_answer(answer, Answer::Refused(Refusal::BadTable), 0);
    }
    admitted(table, answer, room, signal, link, ind)
}
