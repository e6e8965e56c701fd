// Connect responses of the peer: code 0x15 (`handle_connect_response` in the original). They stand behind the gate, which has found room and
// signal buffer to be as long as the table says; `on_conn_res` is `pub` for the signal call alone. Its contract is the equation with the
// definition's handler.
#![tactic(auto)]

ghost use Rattle.std.specs.Prelude.{◌≡◌, List, [], ℕ, ◌≤◌, length};
ghost use Rattle.channel.specs.Limits.{signal_most};
ghost use Rattle.channel.specs.declared.Table.{Table as TableOf};
ghost use Rattle.definition.specs.Table.{slot_at};
ghost use Rattle.definition.specs.Outcome.{change};
ghost use Rattle.definition.specs.Ending.{end, end_of};
ghost use Rattle.definition.specs.Signals.{responder, answered, on_conn_res};
ghost use Rattle.table_room.specs.Placed.{RoomOf};
ghost use Rattle.on_conn_res.specs.Told.{told_of};

use channel::{Answer, ChannelState, Peer, Served, Slot, Table};
use codes::{LeCreditConnResultCode, Refusal};
use signal_forms::LeCreditConnRes;
use table_slot::Want;

// The sender's side of the channel, as its response tells it.
fn responder(res: LeCreditConnRes) -> Peer
    ensures { result ≡ responder res }
{
    Peer {
        cid: res.dcid,
        mps: res.mps,
        mtu: res.mtu,
        credits: res.credits,
    }
}

// The attempt x once it is answered: failed with the result, or with the peer's numbers, and Connected, or Disconnecting where they are below the least.
#[tactic(auto, unfolding(lists::specs::Choose::choose))]
fn met(x: Slot, res: LeCreditConnRes) -> Slot
    ensures { (t : TableOf) (s : ℕ) → slot_at t s ≡ x → change t s result [] (told_of result.state) [] ≡ answered t s res }
{
    if res.result != LeCreditConnResultCode::Success {
        return table_slot::in_state(x, ChannelState::ConnectFailed(res.result));
    }
    let peer = responder(res);
    let y = table_slot::with_peer(x, peer);
    if table_slot::below_least(peer) {
        return table_slot::in_state(y, ChannelState::Disconnecting(false));
    }
    table_slot::in_state(y, ChannelState::Connected)
}

// What the response is answered, by the state in which it leaves the slot.
fn told(k: ChannelState) -> Answer
    ensures { result ≡ told_of k }
{
    match k {
        ChannelState::ConnectFailed(result) => Answer::Refused(Refusal::ConnectError(result)),
        ChannelState::Disconnecting(_) => Answer::Refused(Refusal::InvalidValue),
        _ => Answer::Done,
    }
}

// The response to the attempt in slot s. (The slot is worked out by itself, so that the table is copied once, and not for each way that it can go.)
fn on_answer(t: Table, s: usize, res: LeCreditConnRes) -> Served
    ensures { (t₀ : TableOf) (room out job : List ℕ) → end result room out job ≡ end_of t₀ [] room out job (answered t s res) }
{
    let x = table::slot_at(t, s);
    let y = met(x, res);
    table_endings::alter(t, s, y, told(y.state))
}

// Code 0x15: to the lowest attempt of this link with that identifier; where there is none, all attempts of this link are given up.
pub fn on_conn_res(
    t: Table,
    room: &mut [u8],
    out: &mut [u8],
    link: u16,
    id: u8,
    read: Option<LeCreditConnRes>,
) -> Served
    requires { RoomOf t (length room.old) × (signal_most ≤ length out.old) }
    ensures { end result room.new out.new [] ≡ end_of t [] room.old out.old [] (on_conn_res t link id read) }
{
    match read {
        None => on_rejects::bad_body(t, out, id),
        Some(res) => {
            let s = table::find(t, Want::AttemptBy { link, id });
            if t.n <= s {
                return table_endings::free_all(
                    t,
                    room,
                    Want::AttemptOf(link),
                    Answer::Refused(Refusal::NotFound),
                );
            }
            on_answer(t, s, res)
        }
    }
}
