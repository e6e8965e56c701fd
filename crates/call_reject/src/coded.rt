// A pending connection rejected by a result code (the original's name). The contract is the equation with the definition of that call, for the answer, the
// table and every lent slice.
ghost use Rattle.std.specs.Prelude.{◌≡◌, [], length};
ghost use Rattle.definition.specs.Ending.{end, end_of};
ghost use Rattle.definition.specs.Pending.{reject_pending};

use channel::{Answer, ChannelIndex, Served, Table};
use codes::{LeCreditConnResultCode, Refusal};
use signal_forms::{LeCreditConnRes, Signal};

// Rejects a pending connection: the response with that result, and the slot is freed.
pub fn reject_pending(
    t: Table,
    room: &mut [u8],
    signal: &mut [u8],
    slot: ChannelIndex,
    outcome: LeCreditConnResultCode,
) -> Served
    ensures { end result room.new signal.new [] ≡ end_of t [] room.old signal.old [] (reject_pending t (length room.old) (length signal.old) slot.0 outcome) }
{
    let s = table::number(slot);
    match table_gate::gate(t, Some(room.len()), Some(signal.len()), None, Some(s)) {
        Err(r) => table::refused(t, r),
        Ok(()) => {
            let x = table::slot_at(t, s);
            let k = x.state;
            if !table_state::is_peer_connecting(k) {
                return table::refused(t, Refusal::NotFound);
            }
            let hold = x.hold;
            if hold == 0 {
                return table::refused(t, Refusal::Held);
            }
            let id = table_state::identifier_of(k);
            let y = table_slot::with_hold(x, hold - 1);
            let res = LeCreditConnRes::reject(outcome);
            table_endings::free_and_tell(
                t,
                room,
                signal,
                s,
                y,
                Answer::Link(x.link),
                id,
                Signal::LeCreditConnRes(res),
            )
        }
    }
}
