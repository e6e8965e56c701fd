// A send's work on one slot by value: the job's frames cut into the output, the peer's credits fall by their number, and the tally of frames sent grows by it. `call_send` does it on a table, `edge_send` on a table's octets.
// It is defined in specs/Sending.antt; that it is what the definition's call does to that slot stands in specs/Into.antt.
#![tactic(auto)]

ghost use Rattle.std.specs.Prelude.{◌≡◌};
ghost use Rattle.channel.specs.declared.Answer.TheVariants.{Refused};
ghost use Rattle.slot_send.specs.Sending.{worked, work, sent_from};

use channel::{Answer, Slot};
use codes::Refusal;
use sar_cut::Framed;
use slot_work::Worked;

// A refusal; x is the slot as it leaves it.
fn refused(x: Slot, r: Refusal) -> Worked
    ensures { result ≡ worked (Refused r) x 0 }
{
    slot_work::became(x, Answer::Refused(r), 0)
}

// Writes a job's frames at the output's start, and says on which link they go out.
pub fn send_from(x: Slot, sdu: &[u8], out: &mut [u8]) -> Worked
    ensures { work result out.new ≡ sent_from x sdu.now out.old }
{
    let k = x.state;
    let credits = x.peer.credits;
    if !table_state::is_connected(k) {
        return refused(x, Refusal::ChannelClosed);
    }
    let job = x.job;
    if table_slot::is_open(job) {
        return refused(x, Refusal::JobOpen);
    }
    match sar_frames::send_job(out, x.peer.cid, x.peer.mtu, x.peer.mps, credits, sdu) {
        Err(r) => refused(table_slot::blocked_by(x, r), r),
        Ok(Framed { n, octets }) => {
            let used = n as u16;
            let y = table_slot::with_peer_credits(x, credits - used);
            let slot = table_slot::count_sent(y, n as u64);
            Worked {
                answer: Answer::Frames {
                    link: x.link,
                    count: n,
                },
                slot,
                octets,
            }
        }
    }
}
