// Whether a word of a script spells octets, in hex digits. What such a word is is defined in specs/HexWords.antt.
#![tactic(auto)]

ghost use Rattle.std.specs.Prelude.{◌≡◌};
ghost use Rattle.text_hex_words.specs.HexWords.{is_hex, is_hex_word};

fn is_hex(c: u8) -> bool
    ensures { result ≡ is_hex c }
{
    ((b'0' <= c) & (c <= b'9')) | ((b'a' <= c) & (c <= b'f'))
}

// Whether a word spells octets: `-` alone for none, or an even number of lower-case digits.
pub fn hex_ok(word: &[u8]) -> bool
    ensures { result ≡ is_hex_word word.now }
{
    if word.len() < 1 {
        return false;
    }
    if 131070 < word.len() {
        return false;
    }
    if word.len() == 1 {
        return word[0] == b'-';
    }
    if word.len() % 2 == 1 {
        return false;
    }
    // Not `all`: a line of a long word takes up to a third longer by it.
    for i in 0..word.len() {
        if !is_hex(word[i]) {
            return false;
        }
    }
    true
}
