// The identifiers of signals and of channels. Each contract is the equation with the function of that name in the crate `definition`.
#![tactic(auto)]

ghost use Rattle.std.specs.Prelude.{◌≡◌, ◌<◌, eqb};
ghost use Rattle.lists.specs.Choose.{choose};
ghost use Rattle.definition.specs.Table.{index, is_cid, next_id, id_after, spent, cid_at, index_at};

use channel::{CID_BASE, ChannelIndex, Cid, IDENTIFIER_MOST, Table};

// ---- identifiers run 1 to 255, then 1

pub fn next_id(t: Table) -> u8
    ensures { result ≡ next_id t }
{
    given_id(t.identifier)
}

// What a table that says this identifier gives out next: a 0 never.
#[tactic(auto, unfolding(lists::specs::Choose::choose))]
pub fn given_id(identifier: u8) -> u8
    ensures { result ≡ choose (eqb identifier 0) 1 identifier }
{
    if identifier == 0 { 1 } else { identifier }
}

#[tactic(auto, unfolding(lists::specs::Choose::choose))]
pub fn id_after(id: u8) -> u8
    ensures { result ≡ id_after id }
{
    if id == IDENTIFIER_MOST { 1 } else { id + 1 }
}

// The table once the next identifier was used.
pub fn spent(t: Table) -> Table
    ensures { result ≡ spent t }
{
    Table {
        identifier: id_after(next_id(t)),
        ..t
    }
}

// ---- a slot's number and a CID are kept apart: the 0x40 rule

pub fn number(i: ChannelIndex) -> usize
    ensures { result ≡ i.0 }
{
    i.0 as usize
}

pub fn index_at(s: usize) -> ChannelIndex
    requires { s < 256 }
    ensures { result ≡ index s }
{
    ChannelIndex(s as u8)
}

// The CID of a slot, and the slot that a CID names: every other crate asks these two.
pub fn cid_of(i: ChannelIndex) -> Cid
    ensures { result ≡ cid_at i }
{
    Cid(CID_BASE + i.0 as u16)
}

// Does the CID name a slot?
pub fn is_cid(t: Table, cid: Cid) -> bool
    ensures { result ≡ is_cid t cid.0 }
{
    if cid.0 < CID_BASE {
        return false;
    }
    ((cid.0 - CID_BASE) as usize) < t.n
}

// The slot that the CID names.
pub fn slot_of(cid: Cid) -> ChannelIndex
    requires { (index_at cid).0 < 256 }
    ensures { result ≡ index_at cid }
{
    if cid.0 < CID_BASE {
        return ChannelIndex(0);
    }
    ChannelIndex((cid.0 - CID_BASE) as u8)
}
