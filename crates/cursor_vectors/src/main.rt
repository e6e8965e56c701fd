// Runs the cursors on six octets lent at each call, from the start to past the end; the file stdout has what is expected. Where too few octets are
// left '-' stands for the cursor behind them, and the buffer stays as it was.
#![tactic(auto)]

use cursor_read::ReadCursor;
use cursor_write::WriteCursor;
use std::io;

// Octets in hex, behind a colon.
fn show(rt: &impl Print, s: &[u8]) -> io::Result<()> {
    print!(rt; " :")?;
    for b in s {
        print!(rt; "{b:02x}")?;
    }
    Ok(())
}

// A number read, and what the cursor behind it has left.
fn got(rt: &impl Print, r: Option<(u16, ReadCursor)>, src: &[u8]) -> io::Result<()> {
    match r {
        None => print!(rt; " -"),
        Some((v, c)) => {
            print!(rt; " {v}")?;
            show(rt, c.remaining(src))
        }
    }
}

fn past(rt: &impl Print, r: Option<ReadCursor>) -> io::Result<()> {
    match r {
        None => print!(rt; " -"),
        Some(c) => print!(rt; " {}", c.len()),
    }
}

// Position, octets left, the number and what it leaves, three octets and the position behind them, all that is left, the start.
fn reads(rt: &impl Print, src: &[u8], pos: usize) -> io::Result<()> {
    let c = ReadCursor { pos };
    print!(rt; " {} {}", c.len(), c.available(src))?;
    got(rt, c.read(src), src)?;
    show(rt, c.slice(src, 3))?;
    past(rt, c.past(src, 3))?;
    show(rt, c.remaining(src))?;
    println!(rt; " {}", c.reset().len())
}

// What the cursor behind a write has written, and what the buffer holds.
fn put(rt: &impl Print, w: Option<WriteCursor>, out: &[u8]) -> io::Result<()> {
    match w {
        None => print!(rt; " -")?,
        Some(c) => show(rt, c.finish(out))?,
    }
    show(rt, out)
}

// A number written to a painted buffer; then three octets, at the same place.
fn writes(rt: &impl Print, pos: usize) -> io::Result<()> {
    let c = WriteCursor { pos };
    let mut out = [0xee; 6];
    print!(rt; " {}", c.len())?;
    let w = c.write(&mut out, 0x1234);
    put(rt, w, &out)?;
    let a = c.append(&mut out, b"abc");
    put(rt, a, &out)?;
    told(rt, c, &out)
}

// Octets left, one of them taken as written, the position cut to 3 and to the start.
fn told(rt: &impl Print, c: WriteCursor, out: &[u8]) -> io::Result<()> {
    print!(rt; " {}", c.available(out))?;
    put(rt, c.commit(out, 1), out)?;
    println!(rt; " {} {}", c.truncate(3).len(), c.reset().len())
}

fn main(rt: HostRuntime) -> io::Result<()> {
    for pos in [ReadCursor::new().len(), 3, 4, 5, 6, usize::MAX] {
        reads(&rt, b"\x01\x02\x03\x04\x05\x06", pos)?;
    }
    for pos in [WriteCursor::new().len(), 3, 4, 5, 6, usize::MAX] {
        writes(&rt, pos)?;
    }
    Ok(())
}
