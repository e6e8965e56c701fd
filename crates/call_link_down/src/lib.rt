// A link that is gone (`disconnected` in the original). The contract is the equation with the definition of that call.
#![tactic(auto)]

ghost use Rattle.std.specs.Prelude.{◌≡◌, [], length};
ghost use Rattle.definition.specs.Ending.{end, end_of};
ghost use Rattle.definition.specs.Closing.{disconnected};

use channel::{Answer, Served, Table};
use table_slot::Want;

// The link is gone: all its slots are freed, and what they held is zeroed.
pub fn disconnected(t: Table, room: &mut [u8], link: u16) -> Served
    ensures { end result room.new [] [] ≡ end_of t [] room.old [] [] (disconnected t (length room.old) link) }
{
    match table_gate::gate(t, Some(room.len()), None, Some(link as usize), None) {
        Err(r) => table::refused(t, r),
        Ok(()) => table_endings::free_all(t, room, Want::OfLink(link), Answer::Done),
    }
}
