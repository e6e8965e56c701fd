// A signal PDU behind the gate, which has found room and signal buffer to be as long as the table says: its headers are checked, and its first
// signal is handled. Its contract is the equation with the definition of that name.
ghost use Rattle.std.specs.Prelude.{◌≡◌, [], ◌≤◌, length};
ghost use Rattle.signal_headers.specs.Headers.{headers_of};
ghost use Rattle.channel.specs.Limits.{signal_most};
ghost use Rattle.definition.specs.Ending.{end, end_of};
ghost use Rattle.definition.specs.Signals.{checked};
ghost use Rattle.table_room.specs.Placed.{RoomOf};

use channel::{Answer, Served, Table};
use codes::Refusal;
use octets::octet;
use signal_headers::BadHeader;

// The first signal of a PDU behind the gate, by what the check of its headers finds.
pub fn checked(
    t: Table,
    room: &mut [u8],
    out: &mut [u8],
    link: u16,
    listening: bool,
    central: bool,
    pdu: &[u8],
) -> Served
    requires { RoomOf t (length room.old) × (signal_most ≤ length out.old) }
    ensures { end result room.new out.new [] ≡ end_of t [] room.old out.old [] (checked t link listening central pdu.now (headers_of pdu.now)) }
{
    match signal_headers::check_headers(pdu) {
        Err(BadHeader::Cut) => table::refused(t, Refusal::Decode),
        Err(BadHeader::Past(id)) => {
            on_rejects::reject(t, out, Answer::Refused(Refusal::InvalidValue), id, 0)
        }
        Ok(()) => {
            if pdu.len() == 0 {
                return table::done(t);
            }
            let code = octet(pdu, 0);
            let id = octet(pdu, 1);
            let body = signal_headers::body(pdu);
            on_signal::handled(t, room, out, link, listening, central, code, id, body)
        }
    }
}
