// A pending connection accepted (the original's name). The contract is the equation with the definition of that call, for the answer, the
// table and every lent slice.
#![tactic(auto)]

mod behind;

ghost use Rattle.std.specs.Prelude.{◌≡◌, [], length};
ghost use Rattle.definition.specs.Ending.{end, end_of};
ghost use Rattle.definition.specs.Pending.{accept_pending};

use channel::{ChannelIndex, L2capChannelConfig, Served, Table};
use codes::Refusal;

// Accepts a pending connection: our numbers, a new account, and the response.
pub fn accept_pending(
    t: Table,
    signal: &mut [u8],
    slot: ChannelIndex,
    c: L2capChannelConfig,
) -> Served
    ensures { end result [] signal.new [] ≡ end_of t [] [] signal.old [] (accept_pending t (length signal.old) slot.0 c) }
{
    let s = table::number(slot);
    match table_gate::gate(t, None, Some(signal.len()), None, Some(s)) {
        Err(r) => table::refused(t, r),
        Ok(()) => {
            let x = table::slot_at(t, s);
            let k = x.state;
            let asked = table_state::is_peer_connecting(k);
            let large = table_settings::too_large(t, c);
            if large {
                return table::refused(t, Refusal::InsufficientSpace);
            }
            if !asked {
                return table::refused(t, Refusal::NotFound);
            }
            if x.hold == 0 {
                return table::refused(t, Refusal::Held);
            }
            behind::agree(t, signal, s, x, c)
        }
    }
}
