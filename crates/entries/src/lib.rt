// The calls for C and Rust, on numbers and octets: a static library. Each entry reads the table from its 1,312 octets, makes the call, writes table and
// answer back, or for a question the answer alone, and returns 0 or the refusal's number; a frame in, a send, a take, a credit signal and the two runs read and write one row where it stands. It is the
// function of that name in `edge_asking`, `edge_pending`, `edge_opening`, `edge_closing`, `edge_signals`, `edge_dispatch`, `edge_send`, `edge_receive`, `edge_dispatch_run` or `edge_send_run`, whose definition is
// the entry's too. It is the call's own, lifted through the two layouts (Edge.antt of `edge`); of a run the calls', one after the other (Run.antt of `edge_run`).
#![tactic(auto)]

ghost use Rattle.std.specs.Prelude.{◌≡◌, [], length};
ghost use Rattle.signal_headers.specs.Headers.{rest_of};
ghost use Rattle.edge.specs.Edge.{edge};
ghost use Rattle.edge_asking.specs.Asking.{make_edge, register_spsm_edge, spsm_edge, mtu_edge, mps_edge, peer_mtu_edge, peer_mps_edge, tally_sent_edge, tally_received_edge, tally_blocked_sends_edge, tally_blocked_receives_edge, attention_edge, send_conn_param_update_req_edge, send_conn_param_update_res_edge};
ghost use Rattle.edge_opening.specs.Opening.{create_edge, opened_edge, give_up_edge};
ghost use Rattle.edge_pending.specs.Pending.{next_pending_edge, accept_pending_edge, reject_pending_edge, reject_all_pending_edge, drop_pending_edge};
ghost use Rattle.edge_closing.specs.Holding.{inc_ref_edge, dec_ref_edge};
ghost use Rattle.edge_closing.specs.Closing.{disconnect_edge, disconnect_by_cid_edge, disconnected_edge, next_disconnect_edge};
ghost use Rattle.edge_placed.specs.Frames.{dispatch_edge, send_edge, receive_edge, start_edge, portion_edge, cancel_edge};
ghost use Rattle.edge_signals.specs.Signals.{signal_edge};
ghost use Rattle.edge_run.specs.Run.{run_edge};
ghost use Rattle.edge_dispatch_run.specs.Frames.{dispatch_run_edge};
ghost use Rattle.edge_send_run.specs.Jobs.{send_run_edge};

// Makes a table of n slots, depth d and packets of m octets, and zeroes its room. Table octets of another length are refused by 1.
#[unsafe(no_mangle)]
pub extern "C" fn l2cap_make(
    table: &mut [u8],
    answer: &mut [u8],
    room: &mut [u8],
    n: u16,
    d: u16,
    m: u16,
) -> u32
    ensures { edge result table.new answer.new room.new [] [] ≡ make_edge table.old answer.old room.old n d m }
{
    edge_asking::make(table, answer, room, n, d, m)
}

// Registers an SPSM, 1 to 255.
#[unsafe(no_mangle)]
pub extern "C" fn l2cap_register_spsm(table: &mut [u8], answer: &mut [u8], spsm: u16) -> u32
    ensures { edge result table.new answer.new [] [] [] ≡ register_spsm_edge table.old answer.old spsm }
{
    edge_asking::register_spsm(table, answer, spsm)
}

// A slot's SPSM.
#[unsafe(no_mangle)]
pub extern "C" fn l2cap_spsm(table: &[u8], answer: &mut [u8], slot: u8) -> u32
    ensures { edge result table.now answer.new [] [] [] ≡ spsm_edge table.now answer.old slot }
{
    edge_asking::spsm(table, answer, slot)
}

// A slot's MTU.
#[unsafe(no_mangle)]
pub extern "C" fn l2cap_mtu(table: &[u8], answer: &mut [u8], slot: u8) -> u32
    ensures { edge result table.now answer.new [] [] [] ≡ mtu_edge table.now answer.old slot }
{
    edge_asking::mtu(table, answer, slot)
}

// A slot's MPS.
#[unsafe(no_mangle)]
pub extern "C" fn l2cap_mps(table: &[u8], answer: &mut [u8], slot: u8) -> u32
    ensures { edge result table.now answer.new [] [] [] ≡ mps_edge table.now answer.old slot }
{
    edge_asking::mps(table, answer, slot)
}

// The MTU of a slot's peer.
#[unsafe(no_mangle)]
pub extern "C" fn l2cap_peer_mtu(table: &[u8], answer: &mut [u8], slot: u8) -> u32
    ensures { edge result table.now answer.new [] [] [] ≡ peer_mtu_edge table.now answer.old slot }
{
    edge_asking::peer_mtu(table, answer, slot)
}

// The MPS of a slot's peer.
#[unsafe(no_mangle)]
pub extern "C" fn l2cap_peer_mps(table: &[u8], answer: &mut [u8], slot: u8) -> u32
    ensures { edge result table.now answer.new [] [] [] ≡ peer_mps_edge table.now answer.old slot }
{
    edge_asking::peer_mps(table, answer, slot)
}

// The frames that a slot has sent, or has set credits aside for.
#[unsafe(no_mangle)]
pub extern "C" fn l2cap_tally_sent(table: &[u8], answer: &mut [u8], slot: u8) -> u32
    ensures { edge result table.now answer.new [] [] [] ≡ tally_sent_edge table.now answer.old slot }
{
    edge_asking::tally_sent(table, answer, slot)
}

// The frames that came to a slot and used a credit.
#[unsafe(no_mangle)]
pub extern "C" fn l2cap_tally_received(table: &[u8], answer: &mut [u8], slot: u8) -> u32
    ensures { edge result table.now answer.new [] [] [] ≡ tally_received_edge table.now answer.old slot }
{
    edge_asking::tally_received(table, answer, slot)
}

// A slot's sends and starts that were refused for want of credits (14).
#[unsafe(no_mangle)]
pub extern "C" fn l2cap_tally_blocked_sends(table: &[u8], answer: &mut [u8], slot: u8) -> u32
    ensures { edge result table.now answer.new [] [] [] ≡ tally_blocked_sends_edge table.now answer.old slot }
{
    edge_asking::tally_blocked_sends(table, answer, slot)
}

// A slot's frames that were refused for want of credits (10).
#[unsafe(no_mangle)]
pub extern "C" fn l2cap_tally_blocked_receives(table: &[u8], answer: &mut [u8], slot: u8) -> u32
    ensures { edge result table.now answer.new [] [] [] ≡ tally_blocked_receives_edge table.now answer.old slot }
{
    edge_asking::tally_blocked_receives(table, answer, slot)
}

// The slots that call.
#[unsafe(no_mangle)]
pub extern "C" fn l2cap_attention(table: &[u8], answer: &mut [u8]) -> u32
    ensures { edge result table.now answer.new [] [] [] ≡ attention_edge table.now answer.old }
{
    edge_asking::attention(table, answer)
}

// The lowest pending of a link; up: is the link up?
#[unsafe(no_mangle)]
pub extern "C" fn l2cap_next_pending(table: &mut [u8], answer: &mut [u8], link: u16, up: u8) -> u32
    ensures { edge result table.new answer.new [] [] [] ≡ next_pending_edge table.old answer.old link up }
{
    edge_pending::next_pending(table, answer, link, up)
}

// One hold more.
#[unsafe(no_mangle)]
pub extern "C" fn l2cap_inc_ref(table: &mut [u8], answer: &mut [u8], slot: u8) -> u32
    ensures { edge result table.new answer.new [] [] [] ≡ inc_ref_edge table.old answer.old slot }
{
    edge_closing::inc_ref(table, answer, slot)
}

// Writes a request for connection parameters.
#[unsafe(no_mangle)]
pub extern "C" fn l2cap_send_conn_param_update_req(
    table: &mut [u8],
    answer: &mut [u8],
    signal: &mut [u8],
    link: u16,
    min: u16,
    max: u16,
    latency: u16,
    timeout: u16,
) -> u32
    ensures { edge result table.new answer.new [] signal.new [] ≡ send_conn_param_update_req_edge table.old answer.old signal.old link min max latency timeout }
{
    edge_asking::send_conn_param_update_req(table, answer, signal, link, min, max, latency, timeout)
}

// Writes the response to a request for connection parameters.
#[unsafe(no_mangle)]
pub extern "C" fn l2cap_send_conn_param_update_res(
    table: &mut [u8],
    answer: &mut [u8],
    signal: &mut [u8],
    link: u16,
    res: u16,
) -> u32
    ensures { edge result table.new answer.new [] signal.new [] ≡ send_conn_param_update_res_edge table.old answer.old signal.old link res }
{
    edge_asking::send_conn_param_update_res(table, answer, signal, link, res)
}

// Accepts the pending of a slot.
#[unsafe(no_mangle)]
pub extern "C" fn l2cap_accept_pending(
    table: &mut [u8],
    answer: &mut [u8],
    signal: &mut [u8],
    slot: u8,
    mtu: u32,
    mps: u32,
    kind: u8,
    value: u16,
    credits: u32,
) -> u32
    ensures { edge result table.new answer.new [] signal.new [] ≡ accept_pending_edge table.old answer.old signal.old slot mtu mps kind value credits }
{
    edge_pending::accept_pending(table, answer, signal, slot, mtu, mps, kind, value, credits)
}

// Asks the peer for a channel.
#[unsafe(no_mangle)]
pub extern "C" fn l2cap_create(
    table: &mut [u8],
    answer: &mut [u8],
    signal: &mut [u8],
    link: u16,
    spsm: u16,
    mtu: u32,
    mps: u32,
    kind: u8,
    value: u16,
    credits: u32,
) -> u32
    ensures { edge result table.new answer.new [] signal.new [] ≡ create_edge table.old answer.old signal.old link spsm mtu mps kind value credits }
{
    edge_opening::create(
        table, answer, signal, link, spsm, mtu, mps, kind, value, credits,
    )
}

// Drops the pending of a slot.
#[unsafe(no_mangle)]
pub extern "C" fn l2cap_drop_pending(
    table: &mut [u8],
    answer: &mut [u8],
    room: &mut [u8],
    slot: u8,
) -> u32
    ensures { edge result table.new answer.new room.new [] [] ≡ drop_pending_edge table.old answer.old room.old slot }
{
    edge_pending::drop_pending(table, answer, room, slot)
}

// Is the channel of a slot open?
#[unsafe(no_mangle)]
pub extern "C" fn l2cap_opened(
    table: &mut [u8],
    answer: &mut [u8],
    room: &mut [u8],
    slot: u8,
    link: u16,
    up: u8,
) -> u32
    ensures { edge result table.new answer.new room.new [] [] ≡ opened_edge table.old answer.old room.old slot link up }
{
    edge_opening::opened(table, answer, room, slot, link, up)
}

// Gives up an attempt.
#[unsafe(no_mangle)]
pub extern "C" fn l2cap_give_up(
    table: &mut [u8],
    answer: &mut [u8],
    room: &mut [u8],
    slot: u8,
) -> u32
    ensures { edge result table.new answer.new room.new [] [] ≡ give_up_edge table.old answer.old room.old slot }
{
    edge_opening::give_up(table, answer, room, slot)
}

// One hold less.
#[unsafe(no_mangle)]
pub extern "C" fn l2cap_dec_ref(
    table: &mut [u8],
    answer: &mut [u8],
    room: &mut [u8],
    slot: u8,
) -> u32
    ensures { edge result table.new answer.new room.new [] [] ≡ dec_ref_edge table.old answer.old room.old slot }
{
    edge_closing::dec_ref(table, answer, room, slot)
}

// Disconnects a slot.
#[unsafe(no_mangle)]
pub extern "C" fn l2cap_disconnect(
    table: &mut [u8],
    answer: &mut [u8],
    room: &mut [u8],
    slot: u8,
) -> u32
    ensures { edge result table.new answer.new room.new [] [] ≡ disconnect_edge table.old answer.old room.old slot }
{
    edge_closing::disconnect(table, answer, room, slot)
}

// Disconnects the slot of a CID.
#[unsafe(no_mangle)]
pub extern "C" fn l2cap_disconnect_by_cid(
    table: &mut [u8],
    answer: &mut [u8],
    room: &mut [u8],
    cid: u16,
) -> u32
    ensures { edge result table.new answer.new room.new [] [] ≡ disconnect_by_cid_edge table.old answer.old room.old cid }
{
    edge_closing::disconnect_by_cid(table, answer, room, cid)
}

// A link is down.
#[unsafe(no_mangle)]
pub extern "C" fn l2cap_disconnected(
    table: &mut [u8],
    answer: &mut [u8],
    room: &mut [u8],
    link: u16,
) -> u32
    ensures { edge result table.new answer.new room.new [] [] ≡ disconnected_edge table.old answer.old room.old link }
{
    edge_closing::disconnected(table, answer, room, link)
}

// Rejects the lowest pending of a link that nobody holds.
#[unsafe(no_mangle)]
pub extern "C" fn l2cap_reject_all_pending(
    table: &mut [u8],
    answer: &mut [u8],
    room: &mut [u8],
    signal: &mut [u8],
    link: u16,
) -> u32
    ensures { edge result table.new answer.new room.new signal.new [] ≡ reject_all_pending_edge table.old answer.old room.old signal.old link }
{
    edge_pending::reject_all_pending(table, answer, room, signal, link)
}

// Rejects the pending of a slot with a result code; a number that is none is refusal 15.
#[unsafe(no_mangle)]
pub extern "C" fn l2cap_reject_pending(
    table: &mut [u8],
    answer: &mut [u8],
    room: &mut [u8],
    signal: &mut [u8],
    slot: u8,
    res: u16,
) -> u32
    ensures { edge result table.new answer.new room.new signal.new [] ≡ reject_pending_edge table.old answer.old room.old signal.old slot res }
{
    edge_pending::reject_pending(table, answer, room, signal, slot, res)
}

// The next disconnect that is due.
#[unsafe(no_mangle)]
pub extern "C" fn l2cap_next_disconnect(
    table: &mut [u8],
    answer: &mut [u8],
    room: &mut [u8],
    signal: &mut [u8],
) -> u32
    ensures { edge result table.new answer.new room.new signal.new [] ≡ next_disconnect_edge table.old answer.old room.old signal.old }
{
    edge_closing::next_disconnect(table, answer, room, signal)
}

// The first signal of a PDU.
#[unsafe(no_mangle)]
pub extern "C" fn l2cap_signal(
    table: &mut [u8],
    answer: &mut [u8],
    room: &mut [u8],
    signal: &mut [u8],
    link: u16,
    listening: u8,
    central: u8,
    pdu: &[u8],
) -> u32
    ensures { edge result table.new answer.new room.new signal.new [] ≡ signal_edge table.old answer.old room.old signal.old link listening central pdu.now }
{
    edge_signals::signal(table, answer, room, signal, link, listening, central, pdu)
}

// A frame that came in.
#[unsafe(no_mangle)]
pub extern "C" fn l2cap_dispatch(
    table: &mut [u8],
    answer: &mut [u8],
    room: &mut [u8],
    link: u16,
    cid: u16,
    payload: &[u8],
) -> u32
    ensures { edge result table.new answer.new room.new [] [] ≡ dispatch_edge table.old answer.old room.old link cid payload.now }
{
    edge_dispatch::dispatch(table, answer, room, link, cid, payload)
}

// Cuts a job into frames.
#[unsafe(no_mangle)]
pub extern "C" fn l2cap_send(
    table: &mut [u8],
    answer: &mut [u8],
    out: &mut [u8],
    slot: u8,
    sdu: &[u8],
) -> u32
    ensures { edge result table.new answer.new [] out.new [] ≡ send_edge table.old answer.old out.old slot sdu.now }
{
    edge_send::send(table, answer, out, slot, sdu)
}

// Begins a job of `length` octets, to be handed over in portions: credits are set aside for all its frames, and its first frame is begun in the lent buffer.
#[unsafe(no_mangle)]
pub extern "C" fn l2cap_start_job(
    table: &mut [u8],
    answer: &mut [u8],
    buffer: &mut [u8],
    slot: u8,
    length: usize,
) -> u32
    ensures { edge result table.new answer.new [] buffer.new [] ≡ start_edge table.old answer.old buffer.old slot length }
{
    edge_start_job::start_job(table, answer, buffer, slot, length)
}

// Hands over a portion of that job, as far as its frame reaches, with the buffer as the job's last call left it. A frame that is full stands at the buffer's start.
#[unsafe(no_mangle)]
pub extern "C" fn l2cap_give_portion(
    table: &mut [u8],
    answer: &mut [u8],
    buffer: &mut [u8],
    slot: u8,
    octets: &[u8],
) -> u32
    ensures { edge result table.new answer.new [] buffer.new [] ≡ portion_edge table.old answer.old buffer.old slot octets.now }
{
    edge_give_portion::give_portion(table, answer, buffer, slot, octets)
}

// Gives that job up: before its first frame its credits return; later the channel is left.
#[unsafe(no_mangle)]
pub extern "C" fn l2cap_cancel_job(
    table: &mut [u8],
    answer: &mut [u8],
    room: &mut [u8],
    slot: u8,
) -> u32
    ensures { edge result table.new answer.new room.new [] [] ≡ cancel_edge table.old answer.old room.old slot }
{
    edge_cancel_job::cancel_job(table, answer, room, slot)
}

// Frames that came in, one after the other: link, CID, length, payload.
#[unsafe(no_mangle)]
pub extern "C" fn l2cap_dispatch_run(
    table: &mut [u8],
    answer: &mut [u8],
    room: &mut [u8],
    frames: &[u8],
    answers: &mut [u8],
) -> u32
    ensures { run_edge result table.new answer.new room.new [] answers.new ≡ dispatch_run_edge table.old answer.old room.old frames.now answers.old }
{
    edge_dispatch_run::dispatch_run(table, answer, room, frames, answers)
}

// Jobs that go out, one after the other: slot, length, octets.
#[unsafe(no_mangle)]
pub extern "C" fn l2cap_send_run(
    table: &mut [u8],
    answer: &mut [u8],
    out: &mut [u8],
    jobs: &[u8],
    answers: &mut [u8],
) -> u32
    ensures { run_edge result table.new answer.new [] out.new answers.new ≡ send_run_edge table.old answer.old out.old jobs.now answers.old }
{
    edge_send_run::send_run(table, answer, out, jobs, answers)
}

// Takes the oldest job that waits in a slot.
#[unsafe(no_mangle)]
pub extern "C" fn l2cap_receive(
    table: &mut [u8],
    answer: &mut [u8],
    room: &mut [u8],
    signal: &mut [u8],
    job: &mut [u8],
    slot: u8,
) -> u32
    ensures { edge result table.new answer.new room.new signal.new job.new ≡ receive_edge table.old answer.old room.old signal.old job.old slot }
{
    edge_receive::receive(table, answer, room, signal, job, slot)
}

// How many octets of a PDU stand behind its first signal: what `l2cap_signal` is called with next. No slice crosses the edge.
#[unsafe(no_mangle)]
pub extern "C" fn l2cap_signal_rest(pdu: &[u8]) -> usize
    ensures { result ≡ length (rest_of pdu.now) }
{
    signal_headers::rest(pdu).len()
}

// The version of this edge, the header's L2CAP_CHANNELS_VERSION. The number is in the name too: it goes up when an entry's parameters, the table's layout or the answer's
// change, so that a header and an archive of different versions are not linked.
#[unsafe(no_mangle)]
pub extern "C" fn l2cap_version_4() -> u32
    ensures { result ≡ 4 }
{
    4
}
