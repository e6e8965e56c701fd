// A frame in, behind the gate: the slot that its CID names is read, `slot_frame` does the frame's work on it and on its part of the room, and it is put back. Its
// contract is the equation with the definition of that name, for every payload.
ghost use Rattle.std.specs.Prelude.{◌≡◌, true, [], length};
ghost use Rattle.definition.specs.Table.{well_formed};
ghost use Rattle.definition.specs.Frames.{admitted};
ghost use Rattle.definition.specs.Calls.{frame, head_of, jobs};
ghost use Rattle.definition.specs.Ending.{end, end_of};
ghost use Rattle.table_room.specs.Placed.{RoomOf};

use channel::{Cid, Served, Table};
use codes::Refusal;

// A frame that passed the first refusals.
pub fn admitted(t: Table, room: &mut [u8], link: u16, cid: Cid, payload: &[u8]) -> Served
    requires { RoomOf t (length room.old) × (well_formed t ≡ true) }
    ensures { end result room.new [] [] ≡ end_of t (jobs t (frame link cid.0 payload.now)) room.old [] []
        (admitted t link cid.0 (head_of t cid.0 payload.now) (length (jobs t (frame link cid.0 payload.now)))) }
{
    if !table::is_cid(t, cid) {
        return table::refused(t, Refusal::InvalidChannelId);
    }
    let s = table::number(table::slot_of(cid));
    let x = table::slot_at(t, s);
    let w = slot_frame::frame_at(room, t.d, t.m, s, x, link, payload);
    let a = w.answer;
    let y = w.slot;
    table::changed(t, s, y, a, w.octets)
}
