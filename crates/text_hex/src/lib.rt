// Octets of a script as words of hex digits, read into a lent buffer; `text_hex_write` writes them. What a word spells is defined in specs/Hex.antt;
// the laws of specs/HexLaws.antt go there and back. It rests on `text_hex_words` and `octets`.
#![tactic(auto)]

ghost use Rattle.std.specs.Prelude.{◌≡◌, true};
ghost use Rattle.text_hex_words.specs.HexWords.{is_hex};
ghost use Rattle.text_hex.specs.Hex.{nibble_of, ReadsHex};

use octets::put;
pub use text_hex_words::hex_ok;
pub use text_hex_write::write_hex;

// The value of a hex digit.
fn nibble(c: u8) -> u8
    requires { is_hex c ≡ true }
    ensures { result ≡ nibble_of c }
{
    if c < 58 { c - b'0' } else { c - 87 }
}

// Reads a word's octets into the start of `out`, as far as it reaches, and says how many the word has; none for a bad word, which writes nothing.
pub fn read_hex(word: &[u8], out: &mut [u8]) -> Option<usize>
    ensures { ReadsHex word.now out.old result out.new }
{
    if !hex_ok(word) {
        return None;
    }
    let n = word.len() / 2;
    for i in 0..n {
        let high = nibble(word[2 * i]);
        let low = nibble(word[2 * i + 1]);
        put(out, i, 16 * high + low);
    }
    Some(n)
}
