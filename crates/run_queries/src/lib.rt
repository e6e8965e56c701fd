// `U` and `t` with their rows (docs/CHANRUN.md): what a slot's five queries answer, and those of its four tallies. Defined in specs/PlayedQueries.antt; it rests on `call_queries` and on `row_call`.
#![tactic(auto)]

ghost use Rattle.std.specs.Prelude.{◌≡◌};
ghost use Rattle.text_write.specs.Rows.{Writes};
ghost use Rattle.definition.specs.Asking.{spsm, mtu, mps, peer_mtu, peer_mps, tally_sent, tally_received, tally_blocked_sends, tally_blocked_receives};
ghost use Rattle.run_queries.specs.PlayedQueries.{told_of, queries_of, tallies_of};

use channel::{Answer, Table};
use script_commands::slot_of;

fn spsm_of(t: Table, slot: u16) -> Answer
    ensures { result ≡ told_of (spsm t) slot }
{
    let s = call_queries::spsm(t, slot_of(slot));
    s.answer
}

fn mtu_of(t: Table, slot: u16) -> Answer
    ensures { result ≡ told_of (mtu t) slot }
{
    let s = call_queries::mtu(t, slot_of(slot));
    s.answer
}

fn mps_of(t: Table, slot: u16) -> Answer
    ensures { result ≡ told_of (mps t) slot }
{
    let s = call_queries::mps(t, slot_of(slot));
    s.answer
}

fn peer_mtu_of(t: Table, slot: u16) -> Answer
    ensures { result ≡ told_of (peer_mtu t) slot }
{
    let s = call_queries::peer_mtu(t, slot_of(slot));
    s.answer
}

fn peer_mps_of(t: Table, slot: u16) -> Answer
    ensures { result ≡ told_of (peer_mps t) slot }
{
    let s = call_queries::peer_mps(t, slot_of(slot));
    s.answer
}

pub fn queried(t: Table, slot: u16, row: &mut [u8]) -> usize
    ensures { Writes row.old 0 (queries_of t slot) result row.new }
{
    let a = spsm_of(t, slot);
    let b = mtu_of(t, slot);
    let c = mps_of(t, slot);
    let d = peer_mtu_of(t, slot);
    let e = peer_mps_of(t, slot);
    row_call::queried(row, a, b, c, d, e)
}

fn sent_of(t: Table, slot: u16) -> Answer
    ensures { result ≡ told_of (tally_sent t) slot }
{
    let s = call_queries::tally_sent(t, slot_of(slot));
    s.answer
}

fn received_of(t: Table, slot: u16) -> Answer
    ensures { result ≡ told_of (tally_received t) slot }
{
    let s = call_queries::tally_received(t, slot_of(slot));
    s.answer
}

fn blocked_sends_of(t: Table, slot: u16) -> Answer
    ensures { result ≡ told_of (tally_blocked_sends t) slot }
{
    let s = call_queries::tally_blocked_sends(t, slot_of(slot));
    s.answer
}

fn blocked_receives_of(t: Table, slot: u16) -> Answer
    ensures { result ≡ told_of (tally_blocked_receives t) slot }
{
    let s = call_queries::tally_blocked_receives(t, slot_of(slot));
    s.answer
}

pub fn tallied(t: Table, slot: u16, row: &mut [u8]) -> usize
    ensures { Writes row.old 0 (tallies_of t slot) result row.new }
{
    let a = sent_of(t, slot);
    let b = received_of(t, slot);
    let c = blocked_sends_of(t, slot);
    let d = blocked_receives_of(t, slot);
    row_call::tallied(row, a, b, c, d)
}
