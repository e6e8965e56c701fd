// The endings of a call, in code, one for each form that outcomes have: a reply alone, a slot changed, a slot freed, a slot that leaves Connected, all slots of a search
// freed. Every call ends in one of them, so that freeing and leaving Connected are written once. Each contract is the end of the
// definition's form, whatever other memory the call was lent.
#![tactic(auto)]

pub mod reply;

ghost use Rattle.std.specs.Prelude.{◌≡◌, List, [], ◌∷◌, ℕ, ◌≤◌, ◌<◌, length};
ghost use Rattle.channel.specs.Limits.{signal_most};
ghost use Rattle.channel.specs.declared.Table.{Table as TableOf};
ghost use Rattle.definition.specs.Mem.{given};
ghost use Rattle.definition.specs.Outcome.{still, change, sweep, freeing, leaving};
ghost use Rattle.definition.specs.Ending.{end, end_of};
ghost use Rattle.table_slot.specs.Want.{wanted};
ghost use Rattle.signal_write.specs.Writer.{encode_of};
ghost use Rattle.table_room.specs.Placed.{RoomOf};

use channel::{Answer, ChannelState, Served, Slot, Table};
use signal_forms::Signal;
use table_slot::Want;

// A signal is written, and nothing else changes.
pub fn tell(t: Table, out: &mut [u8], a: Answer, id: u8, signal: Signal) -> Served
    requires { signal_most ≤ length out.old }
    ensures { (t₀ : TableOf) (room job : List ℕ) → end result room out.new job ≡ end_of t₀ [] room out.old job (still t a (given (encode_of id signal) ∷ [])) }
{
    let n = reply::reply(out, id, signal);
    table::still(t, a, n)
}

// Slot s becomes x.
pub fn alter(t: Table, s: usize, x: Slot, a: Answer) -> Served
    ensures { (t₀ : TableOf) (room out job : List ℕ) → end result room out job ≡ end_of t₀ [] room out job (change t s x [] a []) }
{
    table::changed(t, s, x, a, 0)
}

// Slot s becomes x, and a signal is written.
pub fn alter_and_tell(
    t: Table,
    out: &mut [u8],
    s: usize,
    x: Slot,
    a: Answer,
    id: u8,
    signal: Signal,
) -> Served
    requires { signal_most ≤ length out.old }
    ensures { (t₀ : TableOf) (room job : List ℕ) → end result room out.new job ≡ end_of t₀ [] room out.old job (change t s x [] a (given (encode_of id signal) ∷ [])) }
{
    let n = reply::reply(out, id, signal);
    table::changed(t, s, x, a, n)
}

// Slot s, as x, is freed.
pub fn free(t: Table, room: &mut [u8], s: usize, x: Slot, a: Answer) -> Served
    requires { RoomOf t (length room.old) × (s < t.n) }
    ensures { (out job : List ℕ) → end result room.new out job ≡ end_of t [] room.old out job (freeing t s x a []) }
{
    table_room::wipe_part(room, t.d, t.m, s);
    table::changed(t, s, table_slot::freed(x), a, 0)
}

// Slot s, as x, is freed, and a signal is written.
pub fn free_and_tell(
    t: Table,
    room: &mut [u8],
    out: &mut [u8],
    s: usize,
    x: Slot,
    a: Answer,
    id: u8,
    signal: Signal,
) -> Served
    requires { RoomOf t (length room.old) × (s < t.n) × (signal_most ≤ length out.old) }
    ensures { (job : List ℕ) → end result room.new out.new job ≡ end_of t [] room.old out.old job (freeing t s x a (given (encode_of id signal) ∷ [])) }
{
    table_room::wipe_part(room, t.d, t.m, s);
    let n = reply::reply(out, id, signal);
    table::changed(t, s, table_slot::freed(x), a, n)
}

// Slot s, as x, leaves Connected for the state k.
pub fn leave(t: Table, room: &mut [u8], s: usize, x: Slot, k: ChannelState, a: Answer) -> Served
    requires { RoomOf t (length room.old) × (s < t.n) }
    ensures { (out job : List ℕ) → end result room.new out job ≡ end_of t [] room.old out job (leaving t s x k a) }
{
    table_room::zero_assembly(room, t.d, t.m, s);
    table::changed(t, s, table_slot::left(x, k), a, 0)
}

// Every slot that is searched for is freed.
pub fn free_all(t: Table, room: &mut [u8], w: Want, a: Answer) -> Served
    requires { RoomOf t (length room.old) }
    ensures { (out job : List ℕ) → end result room.new out job ≡ end_of t [] room.old out job (sweep t (wanted w) a) }
{
    table_room::wipe_all(room, t, w);
    table::still(table::free_all(t, w), a, 0)
}
