// A signal, written: the PDU that its form's code and fields make (Core Vol 3 Part A 3.1 and 4). The one writer of all replies and requests.
#![tactic(auto)]

ghost use Rattle.signal_write.specs.Writer.{encode_of, Writes};

use signal_forms::{SIGNAL_MOST, Signal};
use signal_write_pdu::{put_five, put_four, put_one, put_two};

// Writes a signal from the buffer's start; a buffer under SIGNAL_MOST octets is left as it is, whatever the signal.
pub fn write_signal(out: &mut [u8], id: u8, s: Signal) -> Option<usize>
    ensures { Writes out.old (encode_of id s) result out.new }
{
    if out.len() < SIGNAL_MOST {
        return None;
    }
    match s {
        Signal::CommandRejectRes(f) => {
            put_one(out, 0x01, id, f.reason);
            Some(10)
        }
        Signal::DisconnectionReq(f) => {
            put_two(out, 0x06, id, f.dcid, f.scid);
            Some(12)
        }
        Signal::DisconnectionRes(f) => {
            put_two(out, 0x07, id, f.dcid, f.scid);
            Some(12)
        }
        Signal::ConnParamUpdateReq(f) => {
            put_four(out, 0x12, id, f.min, f.max, f.latency, f.timeout);
            Some(16)
        }
        Signal::ConnParamUpdateRes(f) => {
            put_one(out, 0x13, id, f.result);
            Some(10)
        }
        Signal::LeCreditConnReq(f) => {
            put_five(out, 0x14, id, f.spsm, f.scid, f.mtu, f.mps, f.credits);
            Some(18)
        }
        Signal::LeCreditConnRes(f) => {
            let result = f.result;
            put_five(
                out,
                0x15,
                id,
                f.dcid,
                f.mtu,
                f.mps,
                f.credits,
                codes::result_number(result),
            );
            Some(18)
        }
        Signal::LeCreditFlowInd(f) => {
            put_two(out, 0x16, id, f.cid, f.credits);
            Some(12)
        }
    }
}
