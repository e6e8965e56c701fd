// The plain words of a call, one kind each: a number, the size of a frame buffer, one character, a flag, a role. Whether a word is of that kind, and what it then says; a
// word is tested before it is asked. What each word says is defined in specs/PlainFields.antt. It rests on `text_decimal`.
#![tactic(auto)]

ghost use Rattle.std.specs.Prelude.{◌≡◌};
ghost use Rattle.script_fields_plain.specs.PlainFields.{is_number, number_of, is_size, is_one, is_flag, flag_of, is_role, central_of};

use text_decimal::read_number;

pub fn is_number(word: &[u8]) -> bool
    ensures { result ≡ is_number word.now }
{
    read_number(word).is_some()
}

pub fn number_of(word: &[u8]) -> u16
    ensures { result ≡ number_of word.now }
{
    read_number(word).unwrap_or(0)
}

// The octets of the buffer that the program lends a slot for the frame of an open job.
pub const BUFFER_MOST: u16 = 4096;

// Whether a word is a number of octets that such a buffer has.
pub fn is_size(word: &[u8]) -> bool
    ensures { result ≡ is_size word.now }
{
    is_number(word) & (number_of(word) <= BUFFER_MOST)
}

// Whether a word is the one character `c`.
pub fn is_one(word: &[u8], c: u8) -> bool
    ensures { result ≡ is_one c word.now }
{
    (word.len() == 1) & (octets::octet(word, 0) == c)
}

pub fn is_flag(word: &[u8]) -> bool
    ensures { result ≡ is_flag word.now }
{
    is_number(word) & (number_of(word) <= 1)
}

pub fn flag_of(word: &[u8]) -> bool
    ensures { result ≡ flag_of word.now }
{
    number_of(word) == 1
}

pub fn is_role(word: &[u8]) -> bool
    ensures { result ≡ is_role word.now }
{
    is_one(word, b'c') | is_one(word, b'p')
}

// Whether the role is Central.
pub fn central_of(word: &[u8]) -> bool
    ensures { result ≡ central_of word.now }
{
    is_one(word, b'c')
}
