// A connection that we ask for (`create` in the original). The contract is the equation with the definition of the call.
#![tactic(auto)]

mod behind;

ghost use Rattle.std.specs.Prelude.{◌≡◌, [], length};
ghost use Rattle.definition.specs.Ending.{end, end_of};
ghost use Rattle.definition.specs.Opening.{create};

use channel::{L2capChannelConfig, Served, Table};
use codes::Refusal;
use table_slot::Want;

// Asks the peer for a channel: the lowest free slot starts our attempt. An identifier is used also where 12 or 13 refuses it.
pub fn create(t: Table, signal: &mut [u8], link: u16, spsm: u16, c: L2capChannelConfig) -> Served
    ensures { end result [] signal.new [] ≡ end_of t [] [] signal.old [] (create t (length signal.old) link spsm c) }
{
    match table_gate::gate(t, None, Some(signal.len()), Some(link as usize), None) {
        Err(r) => table::refused(t, r),
        Ok(()) => {
            let u = table::spent(t);
            if table_settings::too_large(t, c) {
                return table::refused(u, Refusal::InsufficientSpace);
            }
            let s = table::find(t, Want::Free);
            if t.n <= s {
                return table::refused(u, Refusal::NoChannelAvailable);
            }
            behind::start(t, signal, s, link, spsm, c)
        }
    }
}
