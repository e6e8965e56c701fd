// Cuts jobs of lengths around every boundary and joins the frames again (rows "cut"), and makes single join steps (rows "join"). The file stdout
// has what document 01 asks of each: the plan, the octets written, the answers, and what the slot's part of the room holds in the end.
#![tactic(auto)]

use codes::Refusal;
use sar_cut::Framed;
use sar_join::{Assembly, Joined};
use std::io;

// The receiving slot: its open assembly, the jobs that wait, and the answer to the last payload.
#[derive(Clone, Copy)]
struct Side {
    a: Assembly,
    queued: usize,
    answer: u8,
}

// A job's octets: no two neighbours are equal.
fn fill(s: &mut [u8]) {
    for (i, x) in s.iter_mut().enumerate() {
        *x = (i % 251) as u8;
    }
}

// Octets by their number and a check over them; the first 40 in full.
fn show(rt: &impl Print, s: &[u8]) -> io::Result<()> {
    print!(rt; " {} ", s.len())?;
    let mut c: u32 = 1;
    for (i, b) in s.iter().enumerate() {
        c = (c * 31 + *b as u32) % 65521;
        if i < 40 {
            print!(rt; "{b:02x}")?;
        }
    }
    print!(rt; " {c}")
}

// One payload on a slot's part of the room, of d + 1 places of as many octets as the MTU.
fn feed(places: &mut [u8], mtu: u16, mps: u16, d: u16, s: Side, payload: &[u8]) -> Side {
    let a = s.a;
    let queued = s.queued;
    let place = mtu as usize;
    let beside = d as usize;
    if place < a.have as usize {
        return s;
    }
    if 4 < queued {
        return s;
    }
    if places.len() < (beside + 1) * place {
        return s;
    }
    let step = sar_join_room::join_frame(places, place, mtu, mps, beside, a, queued, payload);
    match step {
        Err(r) => Side {
            a,
            queued,
            answer: codes::refusal_number(r),
        },
        Ok(Joined::Dropped) => Side {
            a: Assembly { have: 0, want: 0 },
            queued,
            answer: 21,
        },
        Ok(Joined::Finished(_)) => Side {
            a: Assembly { have: 0, want: 0 },
            queued: queued + 1,
            answer: 0,
        },
        Ok(Joined::Assembling(b)) => Side {
            a: b,
            queued,
            answer: 0,
        },
    }
}

// The answer, the open assembly and the jobs that wait.
fn state(rt: &impl Print, s: Side) -> io::Result<()> {
    let a = s.a;
    print!(rt; " joined {} {} {} {}", s.answer, a.have, a.want, s.queued)
}

// The payloads of the frames in `out`, one after the other, until one is refused: into two places of as many octets as the MTU.
fn join_all(places: &mut [u8], mtu: u16, mps: u16, out: &[u8]) -> Side {
    let mut s = Side {
        a: Assembly { have: 0, want: 0 },
        queued: 0,
        answer: 0,
    };
    let mut rest = out;
    while let [low, high, _, _, behind @ ..] = rest {
        let n = u16::from_le_bytes([*low, *high]) as usize;
        let Some((payload, next)) = behind.split_at_checked(n) else {
            return s;
        };
        s = feed(places, mtu, mps, 1, s, payload);
        if s.answer != 0 {
            return s;
        }
        rest = next;
    }
    s
}

// The frames, what joining them under the job's own length as MTU and the MPS that they were cut for answers, the jobs that wait then, and the two places.
fn rejoin(rt: &impl Print, l: u16, mps: u16, out: &[u8]) -> io::Result<()> {
    let mut places = [0u8; 131070];
    let s = join_all(&mut places, l, mps, out);
    let both = 2 * l as usize;
    show(rt, out)?;
    state(rt, s)?;
    show(rt, &places[0..both])
}

// What a send came to: its refusal, or the frames that it wrote.
fn came(
    rt: &impl Print,
    plan: Result<Framed, Refusal>,
    l: u16,
    mps: u16,
    out: &[u8],
) -> io::Result<()> {
    match plan {
        Err(r) => print!(rt; " refused {}", codes::refusal_number(r))?,
        Ok(Framed { n, octets }) => {
            print!(rt; " {n}")?;
            if octets <= out.len() {
                rejoin(rt, l, mps, &out[0..octets])?;
            }
        }
    }
    println!(rt)
}

// Plans and cuts a job of l octets for a peer of that MTU, MPS and credits.
fn send(
    rt: &impl Print,
    out: &mut [u8],
    l: u16,
    mtu: u16,
    mps: u16,
    credits: u16,
) -> io::Result<()> {
    let mut job = [0u8; 65535];
    let n = l as usize;
    fill(&mut job);
    let plan = sar_frames::send_job(out, 0x1234, mtu, mps, credits, &job[0..n]);
    came(rt, plan, l, mps, out)
}

// The same into `room` octets of an output.
fn cut(rt: &impl Print, l: u16, mtu: u16, mps: u16, credits: u16, room: usize) -> io::Result<()> {
    if 76935 < room {
        return Ok(());
    }
    print!(rt; "cut {l} {mtu} {mps} {credits} {room}")?;
    let mut out = [0u8; 76935];
    send(rt, &mut out[0..room], l, mtu, mps, credits)
}

// The jobs of from to to octets, with credits and room enough.
fn cuts(rt: &impl Print, mps: u16, from: u16, to: u16) -> io::Result<()> {
    for l in from..to {
        cut(rt, l, 65535, mps, 65535, 76935)?;
    }
    Ok(())
}

// Cut for an MPS that no send would take, and joined all the same.
fn small(rt: &impl Print, mps: u16, l: u8, octets: u8) -> io::Result<()> {
    if mps < 2 {
        return Ok(());
    }
    let mut job = [0u8; 255];
    let mut out = [0u8; 255];
    fill(&mut job);
    sar_frames::cut_job(&mut out, 0x1234, mps, &job[0..l as usize]);
    print!(rt; "small")?;
    rejoin(rt, l as u16, mps, &out[0..octets as usize])?;
    println!(rt)
}

// A state of the slot, and the first two octets of the payload that comes.
#[derive(Clone, Copy)]
struct Case {
    have: u16,
    want: u16,
    low: u8,
    high: u8,
}

// No assembly open, with lengths within and above the MTU; then a job of 6 octets open, with 0, 3 and (as no table has it) 7 of them there.
fn case_of(k: usize) -> Case {
    let (have, want, low, high) = match k {
        0 => (0, 0, 0, 0),
        1 => (0, 0, 2, 0),
        2 => (0, 0, 8, 0),
        3 => (0, 0, 9, 0),
        4 => (0, 0, 2, 1),
        5 => (0, 6, 255, 255),
        6 => (3, 6, 255, 255),
        _ => (7, 6, 255, 255),
    };
    Case {
        have,
        want,
        low,
        high,
    }
}

// Payload i: of n octets with `queued` of two places taken, in a part of three places of 8 octets, all of them marked.
fn join(rt: &impl Print, i: usize, mps: u16) -> io::Result<()> {
    let queued = i / 8 % 3;
    let n = i % 8;
    let mut places = [0xeeu8; 24];
    let c = case_of(i / 24);
    let payload = [c.low, c.high, 97, 98, 99, 100, 101];
    let s = Side {
        a: Assembly {
            have: c.have,
            want: c.want,
        },
        queued,
        answer: 0,
    };
    let r = feed(&mut places, 8, mps, 2, s, &payload[0..n]);
    print!(rt; "join {mps} {} {} {queued} {n}", c.have, c.want)?;
    show(rt, &payload[0..n])?;
    state(rt, r)?;
    show(rt, &places)?;
    println!(rt)
}

// Every such case, with 0 to 2 jobs waiting and 0 to 7 octets.
fn joins(rt: &impl Print, mps: u16) -> io::Result<()> {
    for i in 0..192 {
        join(rt, i, mps)?;
    }
    Ok(())
}

// The plan's order, each refusal where the next one would come too, and the last place where it doesn't.
fn refusals(rt: &impl Print) -> io::Result<()> {
    cut(rt, 65535, 65534, 22, 0, 0)?;
    cut(rt, 65534, 65534, 22, 0, 0)?;
    cut(rt, 65533, 65533, 22, 0, 0)?;
    cut(rt, 44, 44, 23, 1, 0)?;
    cut(rt, 44, 44, 23, 2, 53)?;
    cut(rt, 44, 44, 23, 2, 54)?;
    cut(rt, 45, 44, 23, 3, 60)?;
    cut(rt, 45, 45, 23, 2, 60)
}

fn main(rt: HostRuntime) -> io::Result<()> {
    cuts(&rt, 23, 0, 2)?;
    cuts(&rt, 23, 19, 27)?;
    cuts(&rt, 23, 42, 49)?;
    cuts(&rt, 23, 65532, 65535)?;
    cuts(&rt, 247, 243, 251)?;
    cuts(&rt, 247, 490, 498)?;
    cuts(&rt, 65535, 65532, 65535)?;
    refusals(&rt)?;
    small(&rt, 2, 0, 6)?;
    small(&rt, 2, 5, 23)?;
    small(&rt, 3, 7, 21)?;
    joins(&rt, 23)?;
    joins(&rt, 4)
}
