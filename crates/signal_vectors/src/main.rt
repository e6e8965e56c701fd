// Replays the vectors of the file stdin over `signal_headers`, `signal_read` and `signal_write`: a line is a PDU in hex, '=', and what is to come of it; a line
// without '=' says what follows. Each line that differs is written, and at the end how many there are.
#![tactic(auto)]

ghost use Rattle.std.specs.Prelude.{◌≡◌, ◌≤◌, IfOk, length, nat_eq};
ghost use Rattle.lists.specs.First.{first};

use codes::Refusal;
use octets::{least, put};
use signal_forms::Signal;
use signal_headers::BadHeader;
use std::io;
use std::io::Read;

// Where the first octet of `s` stands that is `c`; the length where none is. Not `position` or `split`
// with a closure of the caller's: no contract would say what that answers.
fn find(s: &[u8], c: u8) -> usize
    ensures value { result ≡ first (λ x. nat_eq x c) s.now }
    ensures upper_bound { result ≤ length s.now }
{
    for i in 0..s.len() {
        if s[i] == c {
            return i;
        }
    }
    s.len()
}

// A hex digit's value; 0 for any other character.
fn value(c: u8) -> u8
    ensures { result ≤ 15 }
{
    match c {
        b'0'..=b'9' => c - b'0',
        b'a'..=b'f' => c - b'a' + 10,
        _ => 0,
    }
}

// The octets that hex digits spell, as far as `out` reaches; how many they are.
fn spelled(hex: &[u8], out: &mut [u8]) -> usize
    ensures { result ≤ length out.new }
{
    let (pairs, _) = hex.as_chunks::<2>();
    for (x, [high, low]) in out.iter_mut().zip(pairs) {
        *x = 16 * value(*high) + value(*low);
    }
    least(pairs.len(), out.len())
}

// 1 for parameters that a central takes.
fn valid(s: Signal) -> u8 {
    let Signal::ConnParamUpdateReq(p) = s else {
        return 0;
    };
    signal_parameter_rule::parameters_valid(p) as u8
}

// The signal written again, where it could be read; how many octets that are. `head` gets 1 for no known code, 2 for a bad body, 3 for a
// signal; and whether its parameters are valid.
fn again(code: u8, id: u8, body: &[u8], head: &mut [u8], out: &mut [u8]) -> usize {
    match signal_read::read_signal(code, body) {
        Err(Refusal::NotSupported) => {
            put(head, 2, 1);
            0
        }
        Err(_) => {
            put(head, 2, 2);
            0
        }
        Ok(s) => {
            put(head, 2, 3);
            put(head, 4, valid(s));
            match signal_write::write_signal(out, id, s) {
                None => 0,
                Some(n) => n,
            }
        }
    }
}

// What comes of a PDU: `head` gets what the header check finds (0 good, 1 cut, 2 past), the identifier of a header past the PDU, what
// `again` says, and how many octets are left after the first signal.
fn answer(pdu: &[u8], head: &mut [u8], out: &mut [u8]) -> usize {
    put(head, 3, (signal_headers::rest(pdu).len() % 256) as u8);
    match signal_headers::check_headers(pdu) {
        Err(BadHeader::Cut) => {
            put(head, 0, 1);
            0
        }
        Err(BadHeader::Past(id)) => {
            put(head, 0, 2);
            put(head, 1, id);
            0
        }
        Ok(()) => match signal_headers::read_header(pdu) {
            None => 0,
            Some(h) => again(h.code, h.identifier, signal_headers::body(pdu), head, out),
        },
    }
}

// Whether what comes of a PDU is what is wanted: the five octets of `head`, then the signal written again.
fn agrees(pdu: &[u8], wanted: &[u8]) -> bool {
    let mut head = [0u8; 5];
    let mut out = [0u8; 18];
    let k = least(answer(pdu, &mut head, &mut out), 18);
    let h = least(wanted.len(), 5);
    head[..] == wanted[..h] && out[..k] == wanted[h..]
}

#[derive(Clone, Copy, Default)]
struct Tally {
    same: u64,
    different: u64,
}

// One line, replayed and counted; it is written where something else comes of its PDU.
fn replay(rt: &impl Print, line: &[u8], t: &mut Tally) -> io::Result<()> {
    let at = find(line, b'=');
    if at == line.len() {
        return Ok(());
    }
    let mut pdu = [0u8; 64];
    let n = spelled(&line[..at], &mut pdu);
    let mut wanted = [0u8; 64];
    let m = spelled(&line[at + 1..], &mut wanted);
    if agrees(&pdu[..n], &wanted[..m]) {
        t.same = t.same.wrapping_add(1);
        return Ok(());
    }
    t.different = t.different.wrapping_add(1);
    rt.write_all(line)?;
    rt.write_all(b"\n")
}

fn replay_all(rt: &impl Print, text: &[u8]) -> io::Result<Tally> {
    let mut tally = Tally::default();
    let mut rest = text;
    while 0 < rest.len() {
        let end = find(rest, b'\n');
        replay(rt, &rest[..end], &mut tally)?;
        if rest.len() <= end {
            return Ok(tally);
        }
        rest = &rest[end + 1..];
    }
    Ok(tally)
}

// Reads until `buf` is full or the input ends; how many octets that are.
fn read_full<R: Read>(input: &mut R, buf: &mut [u8]) -> io::Result<usize>
    ensures { IfOk result (λ n. n ≤ length buf.new) }
{
    let mut n = 0;
    // A `while`: `n` moves by as many octets as come.
    while n < buf.len() {
        let more = input.read(&mut buf[n..])?;
        if more == 0 {
            break;
        }
        n += more;
    }
    Ok(n)
}

fn main(rt: HostRuntime) -> io::Result<()> {
    let mut text = [0u8; 65536];
    let n = read_full(&mut rt.stdin(), &mut text)?;
    let tally = replay_all(&rt, &text[..n])?;
    println!(rt;
        "{} vectors as they should be, {} different",
        tally.same, tally.different
    )
}
