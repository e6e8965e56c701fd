// The whole table written as its octets. It stands on `edge_layout`, whose specs/Layout.antt says what they are, on `head` and on `edge_layout_write`.
#![tactic(auto)]

mod head;

ghost use Rattle.std.specs.Prelude.{◌≡◌, ◌≤◌, leb, length};
ghost use Rattle.edge_layout.specs.Layout.{table_octets, written};
ghost use Rattle.edge_layout_write.specs.Cells.{put_rows};

use channel::{SLOTS, Table};
use edge_layout::TABLE_OCTETS;

fn put_slots(out: &mut [u8], t: Table)
    requires { table_octets ≤ length out.old }
    ensures { out.new ≡ put_rows out.old 0 t.slots }
{
    for i in 0..SLOTS {
        edge_layout_write::put_slot(out, i, t.slots[i]);
    }
}

// Writes the table's octets at the start of `out`, and says whether they fit; where they don't, nothing is written.
pub fn encode(out: &mut [u8], t: Table) -> bool
    ensures { (out.new ≡ written out.old t) × (result ≡ leb table_octets (length out.old)) }
{
    if out.len() < TABLE_OCTETS {
        return false;
    }
    head::put_head(out, t);
    put_slots(out, t);
    true
}
