// What is told the peer of a disconnect: the response to its request, or our own request. They stand behind the gate, which has found room and
// signal buffer to be as long as the table says. Each contract is the equation with the
// definition's `responded` or `requested`.
ghost use Rattle.std.specs.Prelude.{◌≡◌, List, [], ℕ, ◌≤◌, ◌<◌, length};
ghost use Rattle.channel.specs.Limits.{signal_most};
ghost use Rattle.channel.specs.declared.Table.{Table as TableOf};
ghost use Rattle.definition.specs.Closing.{responding, requesting, responded, requested};
ghost use Rattle.definition.specs.Ending.{end, end_of};
ghost use Rattle.table_room.specs.Placed.{RoomOf};

use channel::{Answer, ChannelState, Served, Slot, Table};
use signal_forms::{DisconnectionReq, DisconnectionRes, Signal};

// The response to the peer's request, and slot s, as x, is freed.
pub fn respond(t: Table, room: &mut [u8], signal: &mut [u8], s: usize, x: Slot) -> Served
    requires { RoomOf t (length room.old) × (s < t.n) × (signal_most ≤ length signal.old) × (s < 256) }
    ensures { end result room.new signal.new [] ≡ end_of t [] room.old signal.old [] (responded t s x) }
{
    let k = x.state;
    let id = table_state::identifier_of(k);
    let i = table::index_at(s);
    let res = response(s, x.peer.cid);
    table_endings::free_and_tell(
        t,
        room,
        signal,
        s,
        x,
        Answer::Due {
            link: x.link,
            slot: i,
        },
        id,
        Signal::DisconnectionRes(res),
    )
}

// Our own request, and slot s, as x, is marked.
pub fn request(t: Table, signal: &mut [u8], s: usize, x: Slot) -> Served
    requires { (signal_most ≤ length signal.old) × (s < 256) }
    ensures { (t₀ : TableOf) (room job : List ℕ) → end result room signal.new job ≡ end_of t₀ [] room signal.old job (requested t s x) }
{
    let u = table::spent(t);
    let id = table::next_id(t);
    let y = table_slot::in_state(x, ChannelState::Disconnecting(true));
    let i = table::index_at(s);
    let req = asked(s, x.peer.cid);
    table_endings::alter_and_tell(
        u,
        signal,
        s,
        y,
        Answer::Due {
            link: x.link,
            slot: i,
        },
        id,
        Signal::DisconnectionReq(req),
    )
}

// The response carries our CID as DCID and the peer's as SCID.
fn response(s: usize, peer: u16) -> DisconnectionRes
    requires { s < 256 }
    ensures { result ≡ responding s peer }
{
    let cid = table::cid_of(table::index_at(s));
    DisconnectionRes {
        dcid: cid.0,
        scid: peer,
    }
}

// The request the reverse.
fn asked(s: usize, peer: u16) -> DisconnectionReq
    requires { s < 256 }
    ensures { result ≡ requesting s peer }
{
    let cid = table::cid_of(table::index_at(s));
    DisconnectionReq {
        dcid: peer,
        scid: cid.0,
    }
}
