// Refusals 1, 2, 3, 4 and 6, which come first in every call: one gate, over the validity test of the table (`table_gate_validity`) and its sizes (`table_gate_sizes`).
// Each contract is the equation with the function of that name in the crate `definition`; specs/Passed.antt says what a call may rely on behind the gate.
#![tactic(auto)]

ghost use Rattle.std.specs.Prelude.{◌≡◌};
ghost use Rattle.definition.specs.Outcome.{verdict};

use channel::{HANDLE_MOST, SIGNAL_MOST, Table};
use codes::Refusal;
pub use table_gate_sizes::{part_size, place_size, room_size, sizes_fit};

// First 1, 2, 3 (signal buffer), 4, 6.
pub fn gate(
    t: Table,
    room: Option<usize>,
    signal: Option<usize>,
    link: Option<usize>,
    slot: Option<usize>,
) -> Result<(), Refusal>
    ensures { result ≡ verdict t room signal link slot }
{
    let formed = table_gate_validity::well_formed(t);
    let short = table_gate_given::below(signal, SIGNAL_MOST);
    let beyond = table_gate_given::above(link, HANDLE_MOST);
    let no_slot = table_gate_given::reaching(slot, t.n);
    if !formed {
        return Err(Refusal::BadTable);
    }
    if table_gate_given::other_than(room, room_size(t.n, t.d, t.m)) {
        return Err(Refusal::BadRoom);
    }
    if short {
        return Err(Refusal::NoRoom);
    }
    if beyond {
        return Err(Refusal::BadHandle);
    }
    if no_slot {
        return Err(Refusal::BadSlot);
    }
    Ok(())
}
