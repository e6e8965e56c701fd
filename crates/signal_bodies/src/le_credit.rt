// The bodies of the signals of LE credit based connections, read: the length first, then fields of two octets. A body of another length,
// or of an unknown result, is Decode (refusal 15).
ghost use Rattle.std.specs.Prelude.{◌≡◌};
ghost use Rattle.signal_bodies.specs.LeCreditBodies.{le_credit_conn_req, le_credit_conn_res, le_credit_flow_ind};

use octets::number;
use signal_forms::{LeCreditConnReq, LeCreditConnRes, LeCreditFlowInd};

// Code 0x14.
pub fn read_le_credit_conn_req(body: &[u8]) -> Option<LeCreditConnReq>
    ensures { result ≡ le_credit_conn_req body.now }
{
    if body.len() != 10 {
        return None;
    }
    Some(LeCreditConnReq {
        spsm: number(body, 0),
        scid: number(body, 2),
        mtu: number(body, 4),
        mps: number(body, 6),
        credits: number(body, 8),
    })
}

// Code 0x15.
pub fn read_le_credit_conn_res(body: &[u8]) -> Option<LeCreditConnRes>
    ensures { result ≡ le_credit_conn_res body.now }
{
    if body.len() != 10 {
        return None;
    }
    let result = codes::result_of(number(body, 8))?;
    Some(LeCreditConnRes {
        dcid: number(body, 0),
        mtu: number(body, 2),
        mps: number(body, 4),
        credits: number(body, 6),
        result,
    })
}

// Code 0x16.
pub fn read_le_credit_flow_ind(body: &[u8]) -> Option<LeCreditFlowInd>
    ensures { result ≡ le_credit_flow_ind body.now }
{
    if body.len() != 4 {
        return None;
    }
    Some(LeCreditFlowInd {
        cid: number(body, 0),
        credits: number(body, 2),
    })
}
