// Decimal numbers written into a row. How a number is written is defined in specs/NumberText.antt; it rests on `text_write`.
ghost use Rattle.text_write.specs.Rows.{Writes};
ghost use Rattle.text_decimal.specs.NumberText.{number_text};

use text_write::write_character;

// Writes a number at `at` with no zero in front, and gives the place behind it.
pub fn write_number(out: &mut [u8], at: usize, n: u64) -> usize
    ensures { Writes out.old at (number_text n) result out.new }
{
    if n < 10 {
        return write_character(out, at, (48 + n) as u8);
    }
    let next = write_number(out, at, n / 10);
    write_character(out, next, (48 + n % 10) as u8)
}
