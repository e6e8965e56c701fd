// The first signal of a PDU, to the handler of its code: a match on the code's number. It stands behind the gate, which has found room and
// signal buffer to be as long as the table says; `handled` is `pub` for the signal call alone. Its contract is the equation with the
// definition of that name.
#![tactic(auto)]

ghost use Rattle.std.specs.Prelude.{◌≡◌, [], ◌≤◌, length};
ghost use Rattle.channel.specs.Limits.{signal_most};
ghost use Rattle.definition.specs.Ending.{end, end_of};
ghost use Rattle.definition.specs.Signals.{handled};
ghost use Rattle.table_room.specs.Placed.{RoomOf};

use channel::{Answer, Served, Table};
use codes::Refusal;
use signal_bodies::le_credit::{
    read_le_credit_conn_req, read_le_credit_conn_res, read_le_credit_flow_ind,
};
use signal_bodies::{
    read_command_reject_res, read_conn_param_update_res, read_disconnection_req,
    read_disconnection_res,
};

// The signal, by the number of its code.
pub fn handled(
    t: Table,
    room: &mut [u8],
    out: &mut [u8],
    link: u16,
    listening: bool,
    central: bool,
    code: u8,
    id: u8,
    body: &[u8],
) -> Served
    requires { RoomOf t (length room.old) × (signal_most ≤ length out.old) }
    ensures { end result room.new out.new [] ≡ end_of t [] room.old out.old [] (handled t link listening central code id body.now) }
{
    match code {
        0x01 => on_parameters::on_reject(t, out, id, read_command_reject_res(body)),
        0x06 => on_disconnection::on_disconnection_req(
            t,
            room,
            out,
            link,
            id,
            read_disconnection_req(body),
        ),
        0x07 => on_disconnection::on_disconnection_res(
            t,
            room,
            out,
            link,
            id,
            read_disconnection_res(body),
        ),
        0x12 => on_parameters::on_update(t, out, central, id, body),
        0x13 => on_parameters::on_parameter_response(t, out, id, read_conn_param_update_res(body)),
        0x14 => on_conn_req::on_conn_req(
            t,
            out,
            link,
            listening,
            id,
            read_le_credit_conn_req(body),
        ),
        0x15 => on_conn_res::on_conn_res(t, room, out, link, id, read_le_credit_conn_res(body)),
        0x16 => on_credits::on_credits(t, room, out, link, id, read_le_credit_flow_ind(body)),
        _ => on_rejects::reject(t, out, Answer::Refused(Refusal::NotSupported), id, 0),
    }
}
