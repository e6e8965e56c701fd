// Disconnects that we ask for (`disconnect`, `disconnect_by_cid` in the original). Each contract is the equation with the definition of that call.
#![tactic(auto)]

mod behind;

ghost use Rattle.std.specs.Prelude.{◌≡◌, [], length};
ghost use Rattle.definition.specs.Ending.{end, end_of};
ghost use Rattle.definition.specs.Closing.{disconnect, disconnect_by_cid};

use channel::{ChannelIndex, Cid, Served, Table};

pub fn disconnect(t: Table, room: &mut [u8], slot: ChannelIndex) -> Served
    ensures { end result room.new [] [] ≡ end_of t [] room.old [] [] (disconnect t (length room.old) slot.0) }
{
    let s = table::number(slot);
    match table_gate::gate(t, Some(room.len()), None, None, Some(s)) {
        Err(r) => table::refused(t, r),
        Ok(()) => behind::disconnecting(t, room, s),
    }
}

// Our own call, so that no link is asked; a CID of no slot is nothing.
pub fn disconnect_by_cid(t: Table, room: &mut [u8], cid: Cid) -> Served
    ensures { end result room.new [] [] ≡ end_of t [] room.old [] [] (disconnect_by_cid t (length room.old) cid.0) }
{
    match table_gate::gate(t, Some(room.len()), None, None, None) {
        Err(r) => table::refused(t, r),
        Ok(()) => {
            if table::is_cid(t, cid) {
                let s = table::number(table::slot_of(cid));
                return behind::disconnecting(t, room, s);
            }
            table::done(t)
        }
    }
}
