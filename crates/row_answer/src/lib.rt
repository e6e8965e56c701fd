// The row of a call (docs/CHANRUN.md): the answer's number, the octets, and the columns that the answer tells. Each writer adds its piece to a
// lent buffer (`Writes` of `text_write`). What is written is defined in specs/Answers.antt; it rests on `text_write`, `text_decimal::write`, `text_hex_write`, `channel_answer`
// and `columns`.
#![tactic(auto)]

mod columns;

ghost use Rattle.text_write.specs.Rows.{Writes};
ghost use Rattle.row_answer.specs.Answers.{answer_text};

use channel::Answer;
use channel_answer::tells;
use columns::columns_of;
pub use row_columns::write_columns;
use text_decimal::write_number;
use text_hex_write::write_hex;
use text_write::write_character;

// Writes the answer's number, the octets and the columns. The row's end is the caller's, who may have more to tell.
pub fn write_answer(out: &mut [u8], at: usize, a: Answer, octets: &[u8]) -> usize
    ensures { Writes out.old at (answer_text a octets.now) result out.new }
{
    let x = tells(a);
    let number = write_number(out, at, x.refusal as u64);
    let space = write_character(out, number, b' ');
    let next = write_hex(out, space, octets);
    let c = columns_of(x);
    let numbers = c.numbers;
    let count = c.count;
    write_columns(out, next, &numbers[..count])
}
