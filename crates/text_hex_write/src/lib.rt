// Octets written into a row as a word of hex digits. How octets are written is defined in specs/HexText.antt; it rests on `text_write`.
#![tactic(auto)]

ghost use Rattle.std.specs.Prelude.{◌≡◌, ◌<◌};
ghost use Rattle.text_write.specs.Rows.{Writes};
ghost use Rattle.text_hex_write.specs.HexText.{digit_of, hex_text};

use octets::least;
use text_write::write_character;

// The hex digit of a value.
fn digit(n: u8) -> u8
    requires { n < 16 }
    ensures { result ≡ digit_of n }
{
    if n < 10 { b'0' + n } else { 87 + n }
}

// Writes octets at `at`, `-` for none, and gives the place behind them.
pub fn write_hex(out: &mut [u8], at: usize, octets: &[u8]) -> usize
    ensures { Writes out.old at (hex_text octets.now) result out.new }
{
    if octets.len() == 0 {
        return write_character(out, at, b'-');
    }
    let mut next = least(at, out.len());
    for &b in octets {
        let behind = write_character(out, next, digit(b / 16));
        next = write_character(out, behind, digit(b % 16));
    }
    next
}
