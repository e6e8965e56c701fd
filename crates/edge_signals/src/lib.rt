// A signal PDU's first signal, on octets. It is defined in specs/Signals.antt, by the call's own definition lifted through the two layouts. A credit signal, which comes with every few
// frames, works where the octets stand (`edge_credits`); of every other the table is read, the call made, the table and the answer written back. The exported name is in
// `entries`.
#![tactic(auto)]

ghost use Rattle.std.specs.Prelude.{◌≡◌, []};
ghost use Rattle.edge.specs.Edge.{edge};
ghost use Rattle.edge_signals.specs.Signals.{signal_edge};

// The first signal of a PDU. Of a good credit signal one row is read, and only the columns that it changes are written: the rest of it stays, and other rows.
pub fn signal(
    table: &mut [u8],
    answer: &mut [u8],
    room: &mut [u8],
    signal: &mut [u8],
    link: u16,
    listening: u8,
    central: u8,
    pdu: &[u8],
) -> u32
    ensures { edge result table.new answer.new room.new signal.new [] ≡ signal_edge table.old answer.old room.old signal.old link listening central pdu.now }
{
    match edge_credits::credits_in(pdu) {
        Some(ind) => edge_credits::credit(table, answer, room, signal, link, ind),
        None => {
            let d = edge_layout_decode::decode(table);
            let t = d.table;
            let s = call_signal::signal(t, room, signal, link, listening != 0, central != 0, pdu);
            edge::store(table, answer, d.ok, s)
        }
    }
}
