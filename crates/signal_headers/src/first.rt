// The first signal of a PDU (Core Vol 3 Part A 4): its header, of code, identifier and body length in two octets, and its body.
ghost use Rattle.std.specs.Prelude.{◌≡◌};
ghost use Rattle.signal_headers.specs.FirstSignal.{header_of, body_in};

use octets::number;

#[derive(Clone, Copy)]
pub struct L2capSignalHeader {
    pub code: u8,
    pub identifier: u8,
    pub length: u16,
}

// The header of the first signal.
pub fn read_header(pdu: &[u8]) -> Option<L2capSignalHeader>
    ensures { result ≡ header_of pdu.now }
{
    if pdu.len() < 4 {
        None
    } else {
        Some(L2capSignalHeader {
            code: pdu[0],
            identifier: pdu[1],
            length: number(pdu, 2),
        })
    }
}

// The body of the first signal; what there is of it where the PDU is shorter.
pub fn body(pdu: &[u8]) -> &[u8]
    ensures { result.now ≡ body_in pdu.now }
{
    if pdu.len() < 4 {
        return &pdu[..0];
    }
    let n = octets::least(number(pdu, 2) as usize, pdu.len() - 4);
    &pdu[4..4 + n]
}
