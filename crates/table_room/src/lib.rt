// The room: the parts of all slots that are searched for, wiped. One slot's part is in `parts`.
#![tactic(auto)]

mod parts;

ghost use Rattle.std.specs.Prelude.{◌≡◌, [], ◌∷◌, length};
ghost use Rattle.lists.specs.Choose.{choose};
ghost use Rattle.channel.specs.declared.Answer.TheVariants.{Done};
ghost use Rattle.definition.specs.Mem.{wipe, parts};
ghost use Rattle.definition.specs.Table.{part_width, width};
ghost use Rattle.definition.specs.Outcome.{only, sweep};
ghost use Rattle.table_slot.specs.Want.{wanted};
ghost use Rattle.table_room.specs.Placed.{Placed, RoomOf};

use channel::Table;
pub use parts::{part_at, wipe_part, zero_assembly};
use table_slot::Want;

fn wipe_if(room: &mut [u8], d: usize, m: usize, s: usize, wanted: bool)
    requires { Placed d m s (length room.old) }
    ensures { room.new ≡ parts (λ x. x) [] (part_width d m) (only s (choose wanted (wipe ∷ []) [])) room.old }
{
    if wanted {
        parts::wipe_part(room, d, m, s);
    }
}

// Zeroes all that the wanted slots hold.
pub fn wipe_all(room: &mut [u8], t: Table, w: Want)
    requires { RoomOf t (length room.old) }
    ensures { room.new ≡ parts (λ x. x) [] (width t) (sweep t (wanted w) Done).parts room.old }
{
    let n = t.n;
    let d = t.d;
    let m = t.m;
    for i in 0..n {
        wipe_if(room, d, m, i, table_slot::fits(t.slots[i], w));
    }
}
