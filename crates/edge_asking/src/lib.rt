// Making a table, the questions, and the two senders, each on octets: the table read, the call, the table and the answer written back. Each is
// defined in specs/Asking.antt, by the call's own definition lifted through the two layouts. A question is lent the table to read alone: its contract is
// of the same form, with the octets as they were for those at its end. The exported names are in `entries`.
#![tactic(auto)]

ghost use Rattle.std.specs.Prelude.{◌≡◌, []};
ghost use Rattle.edge.specs.Edge.{edge};
ghost use Rattle.edge_asking.specs.Asking.{make_edge, register_spsm_edge, spsm_edge, mtu_edge, mps_edge, peer_mtu_edge, peer_mps_edge, tally_sent_edge, tally_received_edge, tally_blocked_sends_edge, tally_blocked_receives_edge, attention_edge, send_conn_param_update_req_edge, send_conn_param_update_res_edge};

use channel::ChannelIndex;
use edge_layout::TABLE_OCTETS;

// Makes a table of n slots, depth d and packets of m octets, and zeroes its room. Table octets of another length are refused by 1.
pub fn make(table: &mut [u8], answer: &mut [u8], room: &mut [u8], n: u16, d: u16, m: u16) -> u32
    ensures { edge result table.new answer.new room.new [] [] ≡ make_edge table.old answer.old room.old n d m }
{
    let fits = table.len() == TABLE_OCTETS;
    let slots = edge::slots_if(fits, n);
    let s = call_make::make(slots, d, m, room);
    edge::store(table, answer, fits, s)
}

// Registers an SPSM, 1 to 255.
pub fn register_spsm(table: &mut [u8], answer: &mut [u8], spsm: u16) -> u32
    ensures { edge result table.new answer.new [] [] [] ≡ register_spsm_edge table.old answer.old spsm }
{
    let d = edge_layout_decode::decode(table);
    let t = d.table;
    let s = call_register_spsm::register_spsm(t, spsm);
    edge::store(table, answer, d.ok, s)
}

// A slot's SPSM.
pub fn spsm(table: &[u8], answer: &mut [u8], slot: u8) -> u32
    ensures { edge result table.now answer.new [] [] [] ≡ spsm_edge table.now answer.old slot }
{
    let d = edge_layout_decode::decode(table);
    let t = d.table;
    let s = call_queries::spsm(t, ChannelIndex(slot));
    let a = s.answer;
    edge_answer::put_answer(answer, a, s.octets)
}

// A slot's MTU.
pub fn mtu(table: &[u8], answer: &mut [u8], slot: u8) -> u32
    ensures { edge result table.now answer.new [] [] [] ≡ mtu_edge table.now answer.old slot }
{
    let d = edge_layout_decode::decode(table);
    let t = d.table;
    let s = call_queries::mtu(t, ChannelIndex(slot));
    let a = s.answer;
    edge_answer::put_answer(answer, a, s.octets)
}

// A slot's MPS.
pub fn mps(table: &[u8], answer: &mut [u8], slot: u8) -> u32
    ensures { edge result table.now answer.new [] [] [] ≡ mps_edge table.now answer.old slot }
{
    let d = edge_layout_decode::decode(table);
    let t = d.table;
    let s = call_queries::mps(t, ChannelIndex(slot));
    let a = s.answer;
    edge_answer::put_answer(answer, a, s.octets)
}

// The MTU of a slot's peer.
pub fn peer_mtu(table: &[u8], answer: &mut [u8], slot: u8) -> u32
    ensures { edge result table.now answer.new [] [] [] ≡ peer_mtu_edge table.now answer.old slot }
{
    let d = edge_layout_decode::decode(table);
    let t = d.table;
    let s = call_queries::peer_mtu(t, ChannelIndex(slot));
    let a = s.answer;
    edge_answer::put_answer(answer, a, s.octets)
}

// The MPS of a slot's peer.
pub fn peer_mps(table: &[u8], answer: &mut [u8], slot: u8) -> u32
    ensures { edge result table.now answer.new [] [] [] ≡ peer_mps_edge table.now answer.old slot }
{
    let d = edge_layout_decode::decode(table);
    let t = d.table;
    let s = call_queries::peer_mps(t, ChannelIndex(slot));
    let a = s.answer;
    edge_answer::put_answer(answer, a, s.octets)
}

// The frames that a slot has sent.
pub fn tally_sent(table: &[u8], answer: &mut [u8], slot: u8) -> u32
    ensures { edge result table.now answer.new [] [] [] ≡ tally_sent_edge table.now answer.old slot }
{
    let d = edge_layout_decode::decode(table);
    let t = d.table;
    let s = call_queries::tally_sent(t, ChannelIndex(slot));
    let a = s.answer;
    edge_answer::put_answer(answer, a, s.octets)
}

// The frames that a slot has received.
pub fn tally_received(table: &[u8], answer: &mut [u8], slot: u8) -> u32
    ensures { edge result table.now answer.new [] [] [] ≡ tally_received_edge table.now answer.old slot }
{
    let d = edge_layout_decode::decode(table);
    let t = d.table;
    let s = call_queries::tally_received(t, ChannelIndex(slot));
    let a = s.answer;
    edge_answer::put_answer(answer, a, s.octets)
}

// A slot's sends and starts that were refused for want of credits.
pub fn tally_blocked_sends(table: &[u8], answer: &mut [u8], slot: u8) -> u32
    ensures { edge result table.now answer.new [] [] [] ≡ tally_blocked_sends_edge table.now answer.old slot }
{
    let d = edge_layout_decode::decode(table);
    let t = d.table;
    let s = call_queries::tally_blocked_sends(t, ChannelIndex(slot));
    let a = s.answer;
    edge_answer::put_answer(answer, a, s.octets)
}

// A slot's frames that were refused for want of credits.
pub fn tally_blocked_receives(table: &[u8], answer: &mut [u8], slot: u8) -> u32
    ensures { edge result table.now answer.new [] [] [] ≡ tally_blocked_receives_edge table.now answer.old slot }
{
    let d = edge_layout_decode::decode(table);
    let t = d.table;
    let s = call_queries::tally_blocked_receives(t, ChannelIndex(slot));
    let a = s.answer;
    edge_answer::put_answer(answer, a, s.octets)
}

// The slots that call.
pub fn attention(table: &[u8], answer: &mut [u8]) -> u32
    ensures { edge result table.now answer.new [] [] [] ≡ attention_edge table.now answer.old }
{
    let d = edge_layout_decode::decode(table);
    let t = d.table;
    let s = call_attention::attention(t);
    let a = s.answer;
    edge_answer::put_answer(answer, a, s.octets)
}

// Writes a request for connection parameters.
pub fn send_conn_param_update_req(
    table: &mut [u8],
    answer: &mut [u8],
    signal: &mut [u8],
    link: u16,
    min: u16,
    max: u16,
    latency: u16,
    timeout: u16,
) -> u32
    ensures { edge result table.new answer.new [] signal.new [] ≡ send_conn_param_update_req_edge table.old answer.old signal.old link min max latency timeout }
{
    let d = edge_layout_decode::decode(table);
    let t = d.table;
    let s = call_send_parameters::send_conn_param_update_req(
        t, signal, link, min, max, latency, timeout,
    );
    edge::store(table, answer, d.ok, s)
}

// Writes the response to a request for connection parameters.
pub fn send_conn_param_update_res(
    table: &mut [u8],
    answer: &mut [u8],
    signal: &mut [u8],
    link: u16,
    res: u16,
) -> u32
    ensures { edge result table.new answer.new [] signal.new [] ≡ send_conn_param_update_res_edge table.old answer.old signal.old link res }
{
    let d = edge_layout_decode::decode(table);
    let t = d.table;
    let s = call_send_parameters::send_conn_param_update_res(t, signal, link, res);
    edge::store(table, answer, d.ok, s)
}
