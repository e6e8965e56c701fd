// A hold on a slot given back (`dec_ref` in the original). The contract is the equation with the definition of that call.
ghost use Rattle.std.specs.Prelude.{◌≡◌, [], length};
ghost use Rattle.definition.specs.Ending.{end, end_of};
ghost use Rattle.definition.specs.Closing.{dec_ref};

use channel::{Answer, ChannelIndex, ChannelState, Served, Table};
use codes::Refusal;

// One hold less; the last one turns Connected into Disconnecting.
pub fn dec_ref(t: Table, room: &mut [u8], slot: ChannelIndex) -> Served
    ensures { end result room.new [] [] ≡ end_of t [] room.old [] [] (dec_ref t (length room.old) slot.0) }
{
    let s = table::number(slot);
    match table_gate::gate(t, Some(room.len()), None, None, Some(s)) {
        Err(r) => table::refused(t, r),
        Ok(()) => {
            let x = table::slot_at(t, s);
            let hold = x.hold;
            if hold == 0 {
                return table::refused(t, Refusal::Held);
            }
            let k = x.state;
            if table_state::is_connected(k) & (hold == 1) {
                let y = table_slot::with_hold(x, 0);
                return table_endings::leave(
                    t,
                    room,
                    s,
                    y,
                    ChannelState::Disconnecting(false),
                    Answer::Done,
                );
            }
            table_endings::alter(t, s, table_slot::with_hold(x, hold - 1), Answer::Done)
        }
    }
}
