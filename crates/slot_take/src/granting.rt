// The credits that a take grants the peer, and a job handed out with them.
ghost use Rattle.std.specs.Prelude.{◌≡◌, ◌≤◌, ◌<◌, length, Some};
ghost use Rattle.channel.specs.Limits.{signal_most};
ghost use Rattle.definition.specs.Table.{part_width};
ghost use Rattle.definition.specs.Frames.{grant_in, crediting};
ghost use Rattle.table_room.specs.Placed.{Placed};
ghost use Rattle.slot_take.specs.Taking.{granted_of, Took};

use channel::Slot;
use signal_forms::{LeCreditFlowInd, Signal};
use slot_work::Worked;

// What is granted: only a channel that is Connected gets new credits.
pub fn grant_in(x: Slot) -> Option<u16>
    ensures { result ≡ grant_in x }
{
    let k = x.state;
    let a = x.account;
    if table_state::is_connected(k) {
        return a.process();
    }
    None
}

// Slot s, as x, hands its oldest job out, and its peer is granted n credits: the signal uses the identifier, and the credits are booked.
pub fn hand_and_grant(
    room: &mut [u8],
    signal: &mut [u8],
    d: usize,
    m: usize,
    s: usize,
    x: Slot,
    id: u8,
    job: &mut [u8],
    n: u16,
) -> Worked
    requires { Placed d m s (length room.old) × (signal_most ≤ length signal.old) × (0 < x.queue.count) }
    ensures { Took (part_width d m) s (granted_of d m s id x (Some n)) room.old signal.old job.old result room.new signal.new job.new }
{
    let a = x.account;
    let y = table_slot::with_account(x, credit_in_place::granted_through(a, n));
    let ind = credits_of(s, n);
    let octets = table_endings::reply::reply(signal, id, Signal::LeCreditFlowInd(ind));
    crate::handing::hand(room, d, m, s, y, job, octets)
}

// The signal that grants n credits to slot s's peer.
fn credits_of(s: usize, n: u16) -> LeCreditFlowInd
    requires { s < 256 }
    ensures { result ≡ crediting s n }
{
    let cid = table_identifiers::cid_of(table_identifiers::index_at(s));
    LeCreditFlowInd {
        cid: cid.0,
        credits: n,
    }
}
