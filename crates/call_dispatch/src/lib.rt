// Frame in (`dispatch` in the original): the gate, and `behind` behind it. The contract is the equation with the definition of that call,
// for every payload: its length octets and its job octets are split as in a run of the definition.
#![tactic(auto)]

mod behind;

ghost use Rattle.std.specs.Prelude.{◌≡◌, [], length};
ghost use Rattle.definition.specs.Calls.{frame, jobs, frame_in};
ghost use Rattle.definition.specs.Ending.{end, end_of};

use channel::{Cid, Served, Table};

pub fn dispatch(t: Table, room: &mut [u8], link: u16, cid: Cid, payload: &[u8]) -> Served
    ensures { end result room.new [] [] ≡ end_of t (jobs t (frame link cid.0 payload.now)) room.old [] []
        (frame_in t (length room.old) link cid.0 payload.now) }
{
    match table_gate::gate(t, Some(room.len()), None, Some(link as usize), None) {
        Err(r) => table::refused(t, r),
        Ok(()) => behind::admitted(t, room, link, cid, payload),
    }
}
