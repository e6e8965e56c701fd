// The rejection of a pending whose result comes as a number, for callers that have numbers only. Defined in Pending.antt of `definition`; it rests on
// `call_reject::coded::reject_pending`.
#![tactic(auto)]

pub mod coded;

ghost use Rattle.std.specs.Prelude.{◌≡◌, [], length};
ghost use Rattle.definition.specs.Ending.{end, end_of};
ghost use Rattle.definition.specs.Pending.{not_code, reject_numbered};

use channel::{ChannelIndex, Served, Table};
use codes::Refusal;

// The number is none of the result codes: 15, where the first refusals let the call pass.
fn not_code(t: Table, room: &mut [u8], signal: &mut [u8], slot: ChannelIndex) -> Served
    ensures { end result room.new signal.new [] ≡ end_of t [] room.old signal.old [] (not_code t (length room.old) (length signal.old) slot.0) }
{
    let s = table::number(slot);
    match table_gate::gate(t, Some(room.len()), Some(signal.len()), None, Some(s)) {
        Err(r) => table::refused(t, r),
        Ok(()) => table::refused(t, Refusal::Decode),
    }
}

// Rejects the pending of a slot with the result code of that number.
pub fn reject_pending(
    t: Table,
    room: &mut [u8],
    signal: &mut [u8],
    slot: ChannelIndex,
    res: u16,
) -> Served
    ensures { end result room.new signal.new [] ≡ end_of t [] room.old signal.old [] (reject_numbered t (length room.old) (length signal.old) slot.0 res) }
{
    match codes::result_of(res) {
        Some(code) => coded::reject_pending(t, room, signal, slot, code),
        None => not_code(t, room, signal, slot),
    }
}
