// Copying, counting and cutting for C and Rust, on numbers and octets: what oracle/speed measures beside the original (docs/PERFORMANCE.md).
#![tactic(auto)]

ghost use Rattle.std.specs.Prelude.{◌≡◌, length};
ghost use Rattle.std.proofs.lemmas.List.Edits.{sets};
ghost use Rattle.sar_cut.specs.Cutting.{frame_count, plan_send, output_after};
ghost use Rattle.sar_speed.specs.Octets.{octets_of};

use codes::Refusal;
use sar_cut::Framed;

fn octets_of(p: Result<Framed, Refusal>) -> usize
    ensures { result ≡ octets_of p }
{
    match p {
        Err(_) => 0,
        Ok(Framed { n: _, octets }) => octets,
    }
}

// Copies all of `src` to the start of `dst`, as far as it reaches.
#[unsafe(no_mangle)]
pub extern "C" fn speed_copy(dst: &mut [u8], src: &[u8])
    ensures { dst.new ≡ sets dst.old 0 src.now }
{
    octets::copy_to(dst, 0, src, 0, src.len());
}

// How many frames a job of `l` octets takes.
#[unsafe(no_mangle)]
pub extern "C" fn speed_count(l: u16, mps: u16) -> usize
    ensures { result ≡ frame_count l mps }
{
    sar_cut::frame_count(l, mps)
}

// Writes the frames of a job at the output's start, and gives their octets: none where the send is refused.
#[unsafe(no_mangle)]
pub extern "C" fn speed_send(
    out: &mut [u8],
    cid: u16,
    mtu: u16,
    mps: u16,
    credits: u16,
    sdu: &[u8],
) -> usize
    ensures value { result ≡ octets_of (plan_send (length sdu.now) mtu mps credits (length out.old)) }
    ensures out_after { out.new ≡ output_after (plan_send (length sdu.now) mtu mps credits (length out.old)) cid mps out.old sdu.now }
{
    octets_of(sar_frames::send_job(out, cid, mtu, mps, credits, sdu))
}
