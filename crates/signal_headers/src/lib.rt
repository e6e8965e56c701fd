// The headers of the signals in a PDU (Core Vol 3 Part A 4): the check of every one, and what stands after the first signal, whose header and
// body `first` reads.
#![tactic(auto)]

pub mod first;

ghost use Rattle.std.specs.Prelude.{◌≡◌};
ghost use Rattle.signal_headers.specs.Headers.{headers_of, rest_of};

pub use first::{body, read_header};
use octets::{number, octet};

// What is wrong with the first header in a PDU that fails the check.
#[derive(Clone, Copy)]
pub enum BadHeader {
    // A header under 4 octets.
    Cut,
    // A body that runs past the PDU, with that signal's identifier.
    Past(u8),
}

// Every header of the PDU, from the first on.
pub fn check_headers(pdu: &[u8]) -> Result<(), BadHeader>
    ensures { result ≡ headers_of pdu.now }
{
    let mut t = pdu;
    while 0 < t.len() {
        if t.len() < 4 {
            return Err(BadHeader::Cut);
        }
        let n = number(t, 2) as usize;
        if t.len() - 4 < n {
            return Err(BadHeader::Past(octet(t, 1)));
        }
        t = &t[4 + n..];
    }
    Ok(())
}

// The part of the PDU after its first signal; empty where the header check refuses.
pub fn rest(pdu: &[u8]) -> &[u8]
    ensures { result.now ≡ rest_of pdu.now }
{
    match check_headers(pdu) {
        Ok(()) => {
            let n = number(pdu, 2) as usize;
            if pdu.len() < 4 + n {
                &pdu[..0]
            } else {
                &pdu[4 + n..]
            }
        }
        Err(_) => &pdu[..0],
    }
}
