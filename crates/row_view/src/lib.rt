// The view of a table (docs/CHANRUN.md, `V`): its sizes, and a line for each slot. What is shown is defined in specs/View.antt; it rests on
// `row_view_slot`, `row_answer`, `channel_answer`, `row_columns` and `text_write`.
#![tactic(auto)]

ghost use Rattle.text_write.specs.Rows.{Writes};
ghost use Rattle.row_view.specs.View.{sizes_text, view_text};

use channel::{Answer, SLOTS, Table};
use channel_answer::shown;
use octets::least;
use row_answer::write_answer;
use row_columns::write_columns;
use row_view_slot::write_slot;
use text_write::write_character;

// The row of the table's sizes and its next identifier.
fn write_sizes(out: &mut [u8], at: usize, t: Table) -> usize
    ensures { Writes out.old at (sizes_text t) result out.new }
{
    let answer = write_answer(out, at, Answer::Done, b"");
    let numbers = write_columns(
        out,
        answer,
        &[
            shown(t.n) as u64,
            shown(t.d) as u64,
            shown(t.m) as u64,
            t.identifier as u64,
        ],
    );
    write_character(out, numbers, b'\n')
}

// The rows of `V`.
pub fn write_view(out: &mut [u8], at: usize, t: Table) -> usize
    ensures { Writes out.old at (view_text t) result out.new }
{
    let n = least(t.n, SLOTS);
    let mut next = write_sizes(out, at, t);
    for i in 0..n {
        next = write_slot(out, next, i as u8, table::slot_at(t, i));
    }
    next
}
