// Columns of a row: numbers, a space before each, written into a lent buffer (`Writes` of `text_write`). What is written is defined in
// specs/Columns.antt; it rests on `text_write` and `text_decimal::write`.
#![tactic(auto)]

ghost use Rattle.text_write.specs.Rows.{Writes};
ghost use Rattle.row_columns.specs.Columns.{columns_text};

use octets::least;
use text_decimal::write_number;
use text_write::write_character;

// Writes a column for each number: a space and the number.
pub fn write_columns(out: &mut [u8], at: usize, numbers: &[u64]) -> usize
    ensures { Writes out.old at (columns_text numbers.now) result out.new }
{
    let mut next = least(at, out.len());
    for &n in numbers {
        let behind = write_character(out, next, b' ');
        next = write_number(out, behind, n);
    }
    next
}
