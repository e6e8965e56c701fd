// A portion of an open job: as many of its octets as the frame at hand still takes, copied behind those that stand in the lent buffer. Nothing here grows with the job.
ghost use Rattle.std.specs.Prelude.{◌≡◌, ◌+◌, ◌≤◌, ◌<◌, length};
ghost use Rattle.std.proofs.lemmas.List.Edits.{sets};
ghost use Rattle.lists.specs.Choose.{choose};
ghost use Rattle.channel.specs.Limits.{frame_head};
ghost use Rattle.definition.specs.Frames.{header};
ghost use Rattle.slot_portion.specs.Filled.{after, after_of};
ghost use Rattle.slot_portion.specs.Giving.{filled_to, portioned_of, portion_of};

use channel::{Answer, FRAME_HEAD, OpenJob, Slot};
use codes::Refusal;
use slot_work::Worked;

// Writes a frame's header at the buffer's start, where a frame begins.
fn put_header(buffer: &mut [u8], cid: u16, payload: u16, begins: bool)
    ensures { buffer.new ≡ choose begins (sets buffer.old 0 (header cid payload)) buffer.old }
{
    if begins {
        octets::put_number(buffer, 0, payload);
        octets::put_number(buffer, 2, cid);
    }
}

// The job once `taken` octets more are in a frame of `size`: the frame goes on, or it is given out, and the last one closes the job.
#[tactic(auto, unfolding(lists::specs::Choose::choose))]
fn filled_to(j: OpenJob, size: u16, taken: u16) -> OpenJob
    requires { (j.filled + taken ≤ 65535) × (j.taken + taken ≤ 65535) × (0 < j.aside) }
    ensures { result ≡ filled_to j size taken }
{
    let filled = j.filled + taken;
    let total = j.taken + taken;
    if filled != size {
        return OpenJob {
            taken: total,
            filled,
            ..j
        };
    }
    let sent = crate::sizes::given_out(j) + size as usize;
    if (sent == j.length as usize + 2) | (j.aside == 1) {
        return table_slot::no_job();
    }
    OpenJob {
        taken: total,
        filled: 0,
        aside: j.aside - 1,
        ..j
    }
}

// The octets that are given out from the buffer's start: the frame, where it is full.
#[tactic(auto, unfolding(lists::specs::Choose::choose))]
fn frame_out(full: bool, size: u16) -> usize
    ensures { result ≡ choose full (frame_head + size) 0 }
{
    if full {
        return FRAME_HEAD + size as usize;
    }
    0
}

// What stands behind the refusals.
fn portioned(x: Slot, portion: &[u8], buffer: &mut [u8]) -> Worked
    requires { 0 < x.job.aside }
    ensures { after result buffer.new ≡ after_of (portioned_of x (length portion.now)) portion.now buffer.old }
{
    let j = x.job;
    let filled = j.filled as usize;
    let size = crate::sizes::frame_size(x.peer.mps, j);
    let taken = octets::least(portion.len(), octets::left(size as usize, filled));
    let full = filled + taken == size as usize;
    let begins = (filled == 0) & ((0 < taken) | full);
    put_header(buffer, x.peer.cid, size, begins);
    octets::copy_to(buffer, FRAME_HEAD + filled, portion, 0, taken);
    let y = table_slot::with_job(x, filled_to(j, size, taken as u16));
    Worked {
        answer: Answer::Portion {
            link: x.link,
            taken,
            full,
        },
        slot: y,
        octets: frame_out(full, size),
    }
}

// Takes a portion of the job that is open, as far as its frame reaches; says how many octets were taken, and whether the frame is full and given out.
pub fn portion_from(x: Slot, portion: &[u8], buffer: &mut [u8]) -> Worked
    ensures { after result buffer.new ≡ after_of (portion_of x (length portion.now) (length buffer.old)) portion.now buffer.old }
{
    let j = x.job;
    if !table_state::is_connected(x.state) {
        return slot_work::became(x, Answer::Refused(Refusal::ChannelClosed), 0);
    }
    if !table_slot::is_open(j) {
        return slot_work::became(x, Answer::Refused(Refusal::NotFound), 0);
    }
    let payload = crate::sizes::longest(x.peer.mps, j.length);
    if buffer.len() < FRAME_HEAD + payload as usize {
        return slot_work::became(x, Answer::Refused(Refusal::NoRoom), 0);
    }
    if octets::left(j.length as usize, j.taken as usize) < portion.len() {
        return slot_work::became(x, Answer::Refused(Refusal::WrongLength), 0);
    }
    portioned(x, portion, buffer)
}
