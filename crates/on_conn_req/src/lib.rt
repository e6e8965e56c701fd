// Connect requests of the peer: code 0x14 (`handle_connect_request` in the original). They stand behind the gate, which has found the signal
// buffer to be long enough; `on_conn_req` is `pub` for the signal call alone. Its contract is the equation with the definition's handler.
#![tactic(auto)]

ghost use Rattle.std.specs.Prelude.{◌≡◌, List, [], ℕ, ◌≤◌, length};
ghost use Rattle.channel.specs.Limits.{signal_most};
ghost use Rattle.channel.specs.declared.Table.{Table as TableOf};
ghost use Rattle.definition.specs.Ending.{end, end_of};
ghost use Rattle.definition.specs.Signals.{requester, pending, on_conn_req};

use channel::{Answer, ChannelState, Peer, Served, Slot, Table};
use codes::LeCreditConnResultCode;
use signal_forms::LeCreditConnReq;
use table_slot::Want;

// The sender's side of the channel, as its request tells it.
fn requester(req: LeCreditConnReq) -> Peer
    ensures { result ≡ requester req }
{
    Peer {
        cid: req.scid,
        mps: req.mps,
        mtu: req.mtu,
        credits: req.credits,
    }
}

// The slot of a connection that the peer asks for. (It was free, so that all else in it is as in a slot never used.)
fn asked(link: u16, id: u8, req: LeCreditConnReq) -> Slot
    ensures { result ≡ pending link id req }
{
    Slot {
        state: ChannelState::PeerConnecting(id),
        link,
        spsm: req.spsm,
        peer: requester(req),
        ..table_slot::fresh(0)
    }
}

// Code 0x14: the lowest free slot is for us to accept; an SPSM that is not registered, a link where nobody listens, an MTU or MPS below the least, a CID
// that the peer uses, or a full table is refused by a response.
pub fn on_conn_req(
    t: Table,
    out: &mut [u8],
    link: u16,
    listening: bool,
    id: u8,
    read: Option<LeCreditConnReq>,
) -> Served
    requires { signal_most ≤ length out.old }
    ensures { (t₀ : TableOf) (room job : List ℕ) → end result room out.new job ≡ end_of t₀ [] room out.old job (on_conn_req t link listening id read) }
{
    match read {
        None => on_rejects::bad_body(t, out, id),
        Some(req) => {
            let cid = req.scid;
            if !table_spsms::is_registered(t, req.spsm) {
                return on_rejects::refuse(t, out, id, LeCreditConnResultCode::SpsmNotSupported);
            }
            if !listening {
                return on_rejects::refuse(t, out, id, LeCreditConnResultCode::NoResources);
            }
            if table_slot::below_least(requester(req)) {
                return on_rejects::refuse(
                    t,
                    out,
                    id,
                    LeCreditConnResultCode::UnacceptableParameters,
                );
            }
            if table::find(t, Want::UsesPeer { link, cid }) < t.n {
                return on_rejects::refuse(t, out, id, LeCreditConnResultCode::ScidAlreadyAllocated);
            }
            let s = table::find(t, Want::Free);
            if t.n <= s {
                return on_rejects::refuse(t, out, id, LeCreditConnResultCode::NoResources);
            }
            table_endings::alter(t, s, asked(link, id, req), Answer::Done)
        }
    }
}
