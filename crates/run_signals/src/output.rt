// Rows, printed: each was written at the start of `row` by a proved function, and goes out here.
ghost use Rattle.std.specs.Prelude.{◌≡◌, IfOk};

use channel::Table;
use row_call::first;
use run_play::Played;
use std::io;

// The first `n` octets of `row` go out: all that there is to say of it is outside the program.
fn print(rt: &impl Print, row: &[u8], n: usize) -> io::Result<()> {
    rt.write_all(first(row, n))
}

// The row of a played call. The table after it, where the row could be printed.
pub fn printed_row(rt: &impl Print, p: Played, row: &[u8]) -> io::Result<Table>
    ensures { IfOk result (λ u. u ≡ p.table) }
{
    print(rt, row, p.octets)?;
    let table = p.table;
    Ok(table)
}
