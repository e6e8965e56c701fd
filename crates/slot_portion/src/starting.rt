// A job begun on a slot: its credits are set aside, its frames counted as sent, and of its first frame the header and the two octets of its length stand in the lent buffer.
ghost use Rattle.std.specs.Prelude.{◌≡◌, [], length};
ghost use Rattle.std.proofs.lemmas.List.Edits.{sets};
ghost use Rattle.definition.specs.Frames.{first_header};
ghost use Rattle.slot_portion.specs.Filled.{after, after_of};
ghost use Rattle.slot_portion.specs.Starting.{start_of};

use channel::{Answer, FRAME_HEAD, OpenJob, Slot};
use codes::Refusal;
use sar_cut::Framed;
use slot_work::Worked;

// An output that any plan fits, so that none is refused for it: a start writes no frames.
const ENOUGH: usize = 1048576;

// Writes at the buffer's start the header of a job's first frame, of that payload, and the job's length.
fn put_first(buffer: &mut [u8], cid: u16, payload: u16, l: u16)
    ensures { buffer.new ≡ sets buffer.old 0 (first_header cid payload l) }
{
    octets::put_number(buffer, 0, payload);
    octets::put_number(buffer, 2, cid);
    octets::put_number(buffer, 4, l);
}

// Begins a job of `stated` octets, and says how many frames it has and on which link they go out.
pub fn start_from(x: Slot, stated: usize, buffer: &mut [u8]) -> Worked
    ensures { after result buffer.new ≡ after_of (start_of x stated (length buffer.old)) [] buffer.old }
{
    let k = x.state;
    let mps = x.peer.mps;
    let credits = x.peer.credits;
    let aside = x.job.aside;
    if !table_state::is_connected(k) {
        return slot_work::became(x, Answer::Refused(Refusal::ChannelClosed), 0);
    }
    if 0 < aside {
        return slot_work::became(x, Answer::Refused(Refusal::JobOpen), 0);
    }
    match sar_cut::plan_send(stated, x.peer.mtu, mps, credits, ENOUGH) {
        Err(r) => slot_work::became(table_slot::blocked_by(x, r), Answer::Refused(r), 0),
        Ok(Framed { n, octets: _ }) => {
            let l = stated as u16;
            let payload = crate::sizes::longest(mps, l);
            if buffer.len() < FRAME_HEAD + payload as usize {
                return slot_work::became(x, Answer::Refused(Refusal::NoRoom), 0);
            }
            put_first(buffer, x.peer.cid, payload, l);
            let used = n as u16;
            let begun = OpenJob {
                length: l,
                taken: 0,
                filled: 2,
                aside: used,
            };
            let y = table_slot::with_peer_credits(x, credits - used);
            let z = table_slot::with_job(table_slot::count_sent(y, n as u64), begun);
            Worked {
                answer: Answer::Frames {
                    link: x.link,
                    count: n,
                },
                slot: z,
                octets: 0,
            }
        }
    }
}
