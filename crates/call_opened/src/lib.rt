// A connection that we asked for: the opened query (`poll_created` in the original). The contract is the equation with the definition of that
// call.
#![tactic(auto)]

mod behind;

ghost use Rattle.std.specs.Prelude.{◌≡◌, [], length};
ghost use Rattle.definition.specs.Ending.{end, end_of};
ghost use Rattle.definition.specs.Opening.{opened};

use channel::{ChannelIndex, Served, Table};
use codes::Refusal;

// Has the channel that we asked for opened? Connected takes a hold; what has ended is freed.
pub fn opened(t: Table, room: &mut [u8], slot: ChannelIndex, link: u16, up: bool) -> Served
    ensures { end result room.new [] [] ≡ end_of t [] room.old [] [] (opened t (length room.old) slot.0 link up) }
{
    let s = table::number(slot);
    match table_gate::gate(t, Some(room.len()), None, Some(link as usize), Some(s)) {
        Err(r) => table::refused(t, r),
        Ok(()) => {
            let x = table::slot_at(t, s);
            let k = x.state;
            if table_state::is_disconnected(k) {
                return table::refused(t, Refusal::Disconnected);
            }
            if x.link != link {
                return table::refused(t, Refusal::NotFound);
            }
            behind::polled(t, room, s, x, up)
        }
    }
}
