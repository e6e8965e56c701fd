// The five queries of a slot (`spsm`, `mtu`, `mps`, `peer_mtu`, `peer_mps` in the original) and those of its four tallies (`metrics`): the number is read from the slot, and told
// where the gate lets the call pass (`query`). Each contract is the equation with the definition of that call.
#![tactic(auto)]

mod query;

ghost use Rattle.std.specs.Prelude.{◌≡◌};
ghost use Rattle.definition.specs.Ending.{served_of};
ghost use Rattle.definition.specs.Asking.{spsm, mtu, mps, peer_mtu, peer_mps, tally_sent, tally_received, tally_blocked_sends, tally_blocked_receives};

use channel::{ChannelIndex, Served, Table};

// The slot's SPSM.
pub fn spsm(t: Table, slot: ChannelIndex) -> Served
    ensures { result ≡ served_of (spsm t slot.0) }
{
    let x = table::slot_at(t, table::number(slot));
    query::told(t, slot, x.spsm as u64)
}

// Our MTU.
pub fn mtu(t: Table, slot: ChannelIndex) -> Served
    ensures { result ≡ served_of (mtu t slot.0) }
{
    let x = table::slot_at(t, table::number(slot));
    query::told(t, slot, x.mtu as u64)
}

// Our MPS.
pub fn mps(t: Table, slot: ChannelIndex) -> Served
    ensures { result ≡ served_of (mps t slot.0) }
{
    let x = table::slot_at(t, table::number(slot));
    query::told(t, slot, x.mps as u64)
}

// The peer's MTU.
pub fn peer_mtu(t: Table, slot: ChannelIndex) -> Served
    ensures { result ≡ served_of (peer_mtu t slot.0) }
{
    let x = table::slot_at(t, table::number(slot));
    query::told(t, slot, x.peer.mtu as u64)
}

// The peer's MPS.
pub fn peer_mps(t: Table, slot: ChannelIndex) -> Served
    ensures { result ≡ served_of (peer_mps t slot.0) }
{
    let x = table::slot_at(t, table::number(slot));
    query::told(t, slot, x.peer.mps as u64)
}

// The frames that were sent, or have their credits set aside.
pub fn tally_sent(t: Table, slot: ChannelIndex) -> Served
    ensures { result ≡ served_of (tally_sent t slot.0) }
{
    let x = table::slot_at(t, table::number(slot));
    query::told(t, slot, x.tallies.sends.frames)
}

// The frames that came and used a credit.
pub fn tally_received(t: Table, slot: ChannelIndex) -> Served
    ensures { result ≡ served_of (tally_received t slot.0) }
{
    let x = table::slot_at(t, table::number(slot));
    query::told(t, slot, x.tallies.receives.frames)
}

// The sends and starts that were refused for want of credits.
pub fn tally_blocked_sends(t: Table, slot: ChannelIndex) -> Served
    ensures { result ≡ served_of (tally_blocked_sends t slot.0) }
{
    let x = table::slot_at(t, table::number(slot));
    query::told(t, slot, x.tallies.sends.blocked)
}

// The frames that were refused for want of credits.
pub fn tally_blocked_receives(t: Table, slot: ChannelIndex) -> Served
    ensures { result ≡ served_of (tally_blocked_receives t slot.0) }
{
    let x = table::slot_at(t, table::number(slot));
    query::told(t, slot, x.tallies.receives.blocked)
}
