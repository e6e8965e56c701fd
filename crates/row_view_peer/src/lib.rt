// The end of a slot's line in a view (docs/CHANRUN.md, `V`): the peer's side, what is held and what waits. What is shown is defined in
// specs/PeerLine.antt; it rests on `row_columns` and `text_write`.
#![tactic(auto)]

ghost use Rattle.text_write.specs.Rows.{Writes};
ghost use Rattle.row_view_peer.specs.PeerLine.{jobs_text, peer_text};

use channel::{DEPTH, Queue, Slot};
use octets::least;
use row_columns::write_columns;
use text_write::write_character;

// How many jobs wait, and the length of each.
fn write_jobs(out: &mut [u8], at: usize, q: Queue) -> usize
    ensures { Writes out.old at (jobs_text q) result out.new }
{
    let lens = q.lens;
    let wide = [
        lens[0] as u64,
        lens[1] as u64,
        lens[2] as u64,
        lens[3] as u64,
    ];
    let waiting = least(q.count as usize, DEPTH);
    let count = write_columns(out, at, &[q.count as u64]);
    write_columns(out, count, &wide[..waiting])
}

// The peer's side, what is held and what waits.
pub fn write_peer(out: &mut [u8], at: usize, x: Slot) -> usize
    ensures { Writes out.old at (peer_text x) result out.new }
{
    let p = x.peer;
    let a = x.assembly;
    let q = x.queue;
    let peer = write_columns(
        out,
        at,
        &[p.cid as u64, p.mps as u64, p.mtu as u64, p.credits as u64],
    );
    let numbers = write_columns(out, peer, &[x.hold as u64, a.have as u64, a.want as u64]);
    let jobs = write_jobs(out, numbers, q);
    write_character(out, jobs, b'\n')
}
