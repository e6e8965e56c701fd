// The calls that commands of holds and disconnects, of the attention set and of the parameter signals ask for (docs/CHANRUN.md). Which call each is
// stands in specs/Called.antt; it rests on the calls.
#![tactic(auto)]

ghost use Rattle.std.specs.Prelude.{◌≡◌, []};
ghost use Rattle.definition.specs.Ending.{end};
ghost use Rattle.run_call_closing.specs.Called.{end_closing};

use call_send_parameters::send_conn_param_update_req;
use channel::{Cid, Served, Table};
use script_commands::{Closing, slot_of};

pub fn called_closing(t: Table, c: Closing, room: &mut [u8], signal: &mut [u8]) -> Served
    ensures { end result room.new signal.new [] ≡ end_closing t room.old signal.old c }
{
    match c {
        Closing::IncRef(slot) => call_hold::inc_ref(t, slot_of(slot)),
        Closing::DecRef(slot) => call_hold::dec_ref(t, room, slot_of(slot)),
        Closing::Disconnect(slot) => call_disconnect::disconnect(t, room, slot_of(slot)),
        Closing::DisconnectByCid(cid) => call_disconnect::disconnect_by_cid(t, room, Cid(cid)),
        Closing::Disconnected(link) => call_link_down::disconnected(t, room, link),
        Closing::NextDisconnect => call_next_disconnect::next_disconnect(t, room, signal),
        Closing::Attention => call_attention::attention(t),
        Closing::SendConnParamUpdateReq {
            link,
            min,
            max,
            latency,
            timeout,
        } => send_conn_param_update_req(t, signal, link, min, max, latency, timeout),
        Closing::SendConnParamUpdateRes { link, result } => {
            call_send_parameters::send_conn_param_update_res(t, signal, link, result)
        }
    }
}
