// Decimal numbers of a script, read from a word; `write` writes them. What a word spells is defined in specs/Decimal.antt; that a number
// written is read again is a law of specs/DecimalLaws.antt.
#![tactic(auto)]

mod write;

ghost use Rattle.std.specs.Prelude.{◌≡◌};
ghost use Rattle.text_decimal.specs.Decimal.{is_digit, number_read};

pub use write::write_number;

fn is_digit(c: u8) -> bool
    ensures { result ≡ is_digit c }
{
    (b'0' <= c) & (c <= b'9')
}

// Reads a word of 1 to 5 digits: a number of 16 bits, or none.
pub fn read_number(word: &[u8]) -> Option<u16>
    ensures { result ≡ number_read word.now }
{
    if word.len() < 1 {
        return None;
    }
    if 5 < word.len() {
        return None;
    }
    let mut n: u32 = 0;
    for &c in word {
        if !is_digit(c) {
            return None;
        }
        n = 10 * n + ((c - b'0') as u32);
    }
    if 65535 < n {
        return None;
    }
    Some(n as u16)
}
