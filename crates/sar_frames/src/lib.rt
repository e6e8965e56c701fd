// The K-frames of a job, written (`encode` and `send` in the original; Core Vol 3 Part A 3.4), over what cutting plans. What is right stands in
// the specs of cutting; it rests on `octets`.
#![tactic(auto)]

ghost use Rattle.std.specs.Prelude.{◌≡◌, ◌++◌, ◌+◌, ◌≤◌, ◌<◌, length, take};
ghost use Rattle.std.proofs.lemmas.List.Edits.{sets};
ghost use Rattle.octets.specs.Octets.{le16};
ghost use Rattle.sar_cut.specs.Cutting.{plan_send, frame, frames_of, output_after};

use codes::Refusal;
use sar_cut::Framed;

// Writes at `at` a K-frame with that payload.
fn put_frame(out: &mut [u8], at: usize, cid: u16, payload: &[u8])
    requires { (at < 4294967296) × (length payload.now < 65536) }
    ensures { out.new ≡ sets out.old at (frame cid payload.now) }
{
    let n = payload.len();
    octets::put_number(out, at, n as u16);
    octets::put_number(out, at + 2, cid);
    octets::copy_to(out, at + 4, payload, 0, n);
}

// Writes at the output's start the first K-frame: its payload is the job's length and its first `n` octets.
fn put_first(out: &mut [u8], cid: u16, sdu: &[u8], n: usize)
    requires { (n ≤ length sdu.now) × (length sdu.now < 65534) }
    ensures { out.new ≡ sets out.old 0 (frame cid (le16 (length sdu.now) ++ take n sdu.now)) }
{
    octets::put_number(out, 0, (n + 2) as u16);
    octets::put_number(out, 2, cid);
    octets::put_number(out, 4, sdu.len() as u16);
    octets::copy_to(out, 6, sdu, 0, n);
}

// Writes a job's K-frames at the output's start, one after the other.
pub fn cut_job(out: &mut [u8], cid: u16, mps: u16, sdu: &[u8])
    requires { (2 ≤ mps) × (length sdu.now < 65534) }
    ensures { out.new ≡ sets out.old 0 (frames_of cid mps sdu.now) }
{
    let m = mps as usize;
    let first = octets::least(sdu.len(), m - 2);
    put_first(out, cid, sdu, first);
    let mut at = first + 6;
    for payload in sdu[first..].chunks(m) {
        put_frame(out, at, cid, payload);
        at += payload.len() + 4;
    }
}

// Plans a send and, where nothing is refused, writes the frames.
pub fn send_job(
    out: &mut [u8],
    cid: u16,
    mtu: u16,
    mps: u16,
    credits: u16,
    sdu: &[u8],
) -> Result<Framed, Refusal>
    ensures { (result ≡ plan_send (length sdu.now) mtu mps credits (length out.old))
        × (out.new ≡ output_after result cid mps out.old sdu.now) }
{
    let framed = sar_cut::plan_send(sdu.len(), mtu, mps, credits, out.len())?;
    cut_job(out, cid, mps, sdu);
    Ok(framed)
}
