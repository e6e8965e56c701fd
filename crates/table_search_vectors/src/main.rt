// Runs the search for the lowest free slot on rows of sixteen records with expected results (the file stdout). A letter is a record. Behind the row
// stand the place that the lent records give, and the one that the table's own search gives: 16 where none is free.
#![tactic(auto)]

use channel::{ChannelState, Slot, Table};
use codes::LeCreditConnResultCode;
use std::io;
use table_slot::Want;

// f is Disconnected without a hold, h and m Disconnected and held; the others are in use.
fn record(c: u8) -> Slot {
    let free = table_slot::fresh(0);
    match c {
        b'f' => free,
        b'h' => table_slot::fresh(1),
        b'm' => table_slot::fresh(255),
        b'i' => table_slot::in_state(free, ChannelState::Connecting(1)),
        b'p' => table_slot::in_state(free, ChannelState::PeerConnecting(1)),
        b'x' => table_slot::in_state(
            free,
            ChannelState::ConnectFailed(LeCreditConnResultCode::NoResources),
        ),
        b'q' => table_slot::in_state(free, ChannelState::PeerDisconnecting(1)),
        b'd' => table_slot::in_state(free, ChannelState::Disconnecting(false)),
        _ => table_slot::in_state(free, ChannelState::Connected),
    }
}

fn table(row: &[u8]) -> Table {
    let mut t = call_make::blank(16, 1, 29);
    for i in 0..16 {
        t = table::put_slot(t, i, record(octets::octet(row, i)));
    }
    t
}

fn search(rt: &impl Print, row: &[u8]) -> io::Result<()> {
    let t = table(row);
    let lent = table_search::lowest_free_among(t.slots).unwrap_or(16);
    let own = table::find(t, Want::Free);
    rt.write_all(row)?;
    println!(rt; " {lent} {own}")
}

fn main(rt: HostRuntime) -> io::Result<()> {
    search(&rt, b"ffffffffffffffff")?;
    search(&rt, b"cfffffffffffffff")?;
    search(&rt, b"hfffffffffffffff")?;
    search(&rt, b"mhffffffffffffff")?;
    search(&rt, b"ccccccccfccccccc")?;
    search(&rt, b"ccccccccfccccccf")?;
    search(&rt, b"cccccccccccccccf")?;
    search(&rt, b"hhhhhhhhhhhhhhhf")?;
    search(&rt, b"cipxqdhmcipxqdfm")?;
    search(&rt, b"cccccccccccccccc")?;
    search(&rt, b"hhhhhhhhhhhhhhhh")?;
    search(&rt, b"cipxqdhmcipxqdhm")
}
