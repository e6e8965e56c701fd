// One signal PDU (`signal` in the original): every header is checked, then the first signal goes to the handler of its code. The contract
// is the equation with the definition. A whole PDU is fed one call a signal: call `signal`, hand out the reply that it wrote, and go on with
// `signal_headers::rest` of the PDU until that is empty. It is shorter each time, so that this ends, and its headers are good (signal_laws,
// specs/Feeding.antt).
#![tactic(auto)]

mod behind;

ghost use Rattle.std.specs.Prelude.{◌≡◌, [], length};
ghost use Rattle.definition.specs.Ending.{end, end_of};
ghost use Rattle.definition.specs.Signals.{signalled};

use channel::{Served, Table};

// One signal PDU of the link: does the caller listen there, and is it the central?
pub fn signal(
    t: Table,
    room: &mut [u8],
    signal: &mut [u8],
    link: u16,
    listening: bool,
    central: bool,
    pdu: &[u8],
) -> Served
    ensures { end result room.new signal.new [] ≡ end_of t [] room.old signal.old [] (signalled t (length room.old) (length signal.old) link listening central pdu.now) }
{
    match table_gate::gate(
        t,
        Some(room.len()),
        Some(signal.len()),
        Some(link as usize),
        None,
    ) {
        Err(r) => table::refused(t, r),
        Ok(()) => behind::checked(t, room, signal, link, listening, central, pdu),
    }
}
