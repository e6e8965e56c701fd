// Making a table over a room that the caller lends. The contract of `make` is the equation with the definition of that name, for the answer,
// the table and every octet of the room.
#![tactic(auto)]

ghost use Rattle.std.specs.Prelude.{◌≡◌, [], map};
ghost use Rattle.lists.specs.Choose.{choose};
ghost use Rattle.definition.specs.Ending.{end, served_made, end_made};
ghost use Rattle.definition.specs.Asking.{blank, not_made, make};

use channel::{Answer, SLOTS, Served, Table};
use codes::Refusal;

// A table of these sizes in which nothing has happened yet.
pub fn blank(n: usize, d: usize, m: usize) -> Table
    ensures { result ≡ blank n d m }
{
    let x = table_slot::fresh(0);
    let slots = [x; SLOTS];
    let spsms = [0u8; 32];
    Table {
        slots,
        n,
        d,
        m,
        identifier: 1,
        spsms,
    }
}

// Zeroes the whole room of a table that is made; else leaves it.
fn zero_if(room: &mut [u8], made: bool)
    ensures { room.new ≡ choose made (map (λ _. 0) room.old) room.old }
{
    if made {
        let size = room.len();
        octets::zero(room, 0, size);
    }
}

// A refused making gives the table of no slots.
fn not_made(r: Refusal) -> Served
    ensures { result ≡ served_made (not_made r []) }
{
    table::refused(blank(0, 0, 0), r)
}

// N slots, D waiting jobs a slot, packets of M octets, over a room of exactly N·(D+1)·(M-6) octets.
pub fn make(n: u16, d: u16, m: u16, room: &mut [u8]) -> Served
    ensures { end result room.new [] [] ≡ end_made (make n d m room.old) }
{
    let slots = n as usize;
    let depth = d as usize;
    let packet = m as usize;
    let fit = table_gate::sizes_fit(slots, depth, packet);
    if !fit {
        return not_made(Refusal::BadTable);
    }
    let sized = room.len() == table_gate::room_size(slots, depth, packet);
    zero_if(room, sized);
    if !sized {
        return not_made(Refusal::BadRoom);
    }
    table::still(blank(slots, depth, packet), Answer::Done, 0)
}
