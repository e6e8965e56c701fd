// chanrun (document 01, module 5): reads calls from standard input, a line each, and prints the rows of each (docs/CHANRUN.md). Lines and words are
// read, and rows written, by proved functions on slices; what is here moves octets between those, the calls and the two streams.
#![tactic(auto)]

mod calls;

use octets::least;
use std::io;
use std::io::Read;
use text_lines::{Found, Held};

// The octets of a line's buffer: 131,100 characters and a newline.
const LINE: usize = 131101;

// The largest room.
const ROOM: usize = 65536;

// The most octets of a word.
const OCTETS: usize = 65535;

// The frames of the longest job at the smallest MPS.
const FRAMES: usize = 76935;

// The buffers of open jobs: one for each slot of the largest table.
const BUFFERS: usize = channel::SLOTS * script_commands::BUFFER_MOST as usize;

// The longest row: the frames in hex, the answer and a column.
const ROW: usize = 160000;

// Reads behind what is held: how many octets came, 0 at the end of the input.
fn read_more<R: Read>(reader: &mut R, input: &mut [u8], at: usize) -> io::Result<usize> {
    let from = least(at, input.len());
    reader.read(&mut input[from..])
}

// What the input has next, and what is held behind it; none where the input has ended.
#[derive(Clone, Copy)]
struct Fetched {
    found: Found,
    held: Option<Held>,
}

// The next of what is held, or more is read. Where the input has ended, a last line without its newline.
fn fetch<R: Read>(reader: &mut R, input: &mut [u8], h: Held) -> io::Result<Fetched> {
    let next = text_lines::next_line(input, h);
    let held = next.held;
    let found = next.found;
    if let Found::More = found {
        let ready = text_lines::ready(input, held);
        let n = read_more(reader, input, ready.end)?;
        if n == 0 {
            let last = text_lines::last_line(input, ready);
            return Ok(Fetched {
                found: last,
                held: None,
            });
        }
        let grown = text_lines::grown(input.len(), ready, n);
        return Ok(Fetched {
            found: Found::Passed,
            held: Some(grown),
        });
    }
    Ok(Fetched {
        found,
        held: Some(held),
    })
}

// The whole input. A loop has to end, and nothing says that the input does: there are as many turns as no run uses up.
fn run<R: Read>(
    rt: &impl Print,
    reader: &mut R,
    input: &mut [u8],
    room: &mut [u8],
    octets: &mut [u8],
    frames: &mut [u8],
    buffers: &mut [u8],
    row: &mut [u8],
) -> io::Result<()> {
    let mut t = calls::no_table();
    let mut held = text_lines::none();
    for _ in 0..u64::MAX {
        let next = fetch(reader, input, held)?;
        let found = next.found;
        let table = calls::serve_found(rt, t, found, input, room, octets, frames, buffers, row)?;
        let Some(h) = next.held else {
            return Ok(());
        };
        t = table;
        held = h;
    }
    Ok(())
}

fn main(rt: HostRuntime) -> io::Result<()> {
    let mut input = [0u8; LINE];
    let mut room = [0u8; ROOM];
    let mut octets = [0u8; OCTETS];
    let mut frames = [0u8; FRAMES];
    let mut buffers = [0u8; BUFFERS];
    let mut row = [0u8; ROW];
    rt.write_all(b"answer octets\n")?;
    run(
        &rt,
        &mut rt.stdin(),
        &mut input,
        &mut room,
        &mut octets,
        &mut frames,
        &mut buffers,
        &mut row,
    )
}
