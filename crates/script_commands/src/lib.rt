// The calls of a script (docs/CHANRUN.md), and those of at most three words, by the number of words of their line: the letter, then what the call
// is given; the longer ones are in `long`. The table of these calls is specs/Commands.antt, which every function here follows test by
// test. It rests on `text_decimal`, `text_words`, `script_fields_plain` and `text_hex_words`.
#![tactic(auto)]

pub mod long;

ghost use Rattle.std.specs.Prelude.{◌≡◌};
ghost use Rattle.script_commands.specs.Commands.{slot_number, one_word, with_number, two_words, with_numbers, three_words};

use channel::{ChannelIndex, L2capChannelConfig};
use octets::least;
pub use script_fields_plain::BUFFER_MOST;
use script_fields_plain::{flag_of, is_flag};
use text_decimal::read_number;
use text_hex_words::hex_ok;
use text_words::Word;

// The calls of pending connections and of attempts, and the registering of an SPSM.
#[derive(Clone, Copy)]
pub enum Opening {
    // R
    RegisterSpsm(u16),
    // P
    NextPending {
        link: u16,
        up: bool,
    },
    // J
    RejectAllPending(u16),
    // A
    AcceptPending {
        slot: u16,
        config: L2capChannelConfig,
    },
    // X
    RejectPending {
        slot: u16,
        result: u16,
    },
    // Z
    DropPending(u16),
    // C
    Create {
        link: u16,
        spsm: u16,
        config: L2capChannelConfig,
    },
    // G
    GiveUp(u16),
}

// The calls of holds and disconnects, the attention set, and the parameter signals.
#[derive(Clone, Copy)]
pub enum Closing {
    // H
    IncRef(u16),
    // L
    DecRef(u16),
    // D
    Disconnect(u16),
    // E
    DisconnectByCid(u16),
    // W
    Disconnected(u16),
    // Q
    NextDisconnect,
    // I
    Attention,
    // Y
    SendConnParamUpdateReq {
        link: u16,
        min: u16,
        max: u16,
        latency: u16,
        timeout: u16,
    },
    // y
    SendConnParamUpdateRes {
        link: u16,
        result: u16,
    },
}

// The calls of a job that is handed over in portions.
#[derive(Clone, Copy)]
pub enum Portions {
    // N
    StartJob { slot: u16, stated: u16, size: u16 },
    // p
    GivePortion { slot: u16, size: u16, portion: Word },
    // x
    CancelJob(u16),
    // n
    ShowJob(u16),
}

// A command, with the words of its line as values. Octets are left where they stand: as the place of their word in the line.
#[derive(Clone, Copy)]
pub enum Command {
    // A line that asks for nothing: `? -`.
    Bad,
    // The calls that are lent the room, a signal buffer, both or neither, and whose row is their answer with what they wrote.
    Opening(Opening),
    Closing(Closing),
    // T
    Make {
        n: u16,
        d: u16,
        m: u16,
    },
    // S
    Signal {
        link: u16,
        listening: bool,
        central: bool,
        pdu: Word,
    },
    // O
    Opened {
        slot: u16,
        link: u16,
        up: bool,
    },
    // F
    Dispatch {
        link: u16,
        cid: u16,
        payload: Word,
    },
    // K
    Send {
        slot: u16,
        job: Word,
    },
    // B
    Receive {
        slot: u16,
        size: u16,
    },
    // U
    Queries(u16),
    // t
    Tallies(u16),
    // V
    View,
    // M
    Room(u16),
    // The calls whose frame stands in a buffer of the slot's own.
    Portions(Portions),
}

// The slot that a command names. A number that is no octet is past every table, as 255 is.
pub fn slot_of(n: u16) -> ChannelIndex
    ensures { result.0 ≡ slot_number n }
{
    ChannelIndex(least(n as usize, 255) as u8)
}

pub fn one_word(c: u8) -> Command
    ensures { result ≡ one_word c }
{
    if c == b'Q' {
        return Command::Closing(Closing::NextDisconnect);
    }
    if c == b'I' {
        return Command::Closing(Closing::Attention);
    }
    if c == b'V' {
        return Command::View;
    }
    Command::Bad
}

// The calls that are given one number.
fn with_number(c: u8, n: u16) -> Command
    ensures { result ≡ with_number c n }
{
    if c == b'R' {
        return Command::Opening(Opening::RegisterSpsm(n));
    }
    if c == b'J' {
        return Command::Opening(Opening::RejectAllPending(n));
    }
    if c == b'Z' {
        return Command::Opening(Opening::DropPending(n));
    }
    if c == b'G' {
        return Command::Opening(Opening::GiveUp(n));
    }
    if c == b'H' {
        return Command::Closing(Closing::IncRef(n));
    }
    if c == b'L' {
        return Command::Closing(Closing::DecRef(n));
    }
    if c == b'D' {
        return Command::Closing(Closing::Disconnect(n));
    }
    if c == b'E' {
        return Command::Closing(Closing::DisconnectByCid(n));
    }
    if c == b'W' {
        return Command::Closing(Closing::Disconnected(n));
    }
    if c == b'U' {
        return Command::Queries(n);
    }
    if c == b't' {
        return Command::Tallies(n);
    }
    if c == b'M' {
        return Command::Room(n);
    }
    if c == b'x' {
        return Command::Portions(Portions::CancelJob(n));
    }
    if c == b'n' {
        return Command::Portions(Portions::ShowJob(n));
    }
    Command::Bad
}

pub fn two_words(c: u8, a: &[u8]) -> Command
    ensures { result ≡ two_words c a.now }
{
    let Some(n) = read_number(a) else {
        return Command::Bad;
    };
    with_number(c, n)
}

// The calls that are given two numbers.
fn with_numbers(c: u8, n: u16, m: u16) -> Command
    ensures { result ≡ with_numbers c n m }
{
    if c == b'X' {
        return Command::Opening(Opening::RejectPending { slot: n, result: m });
    }
    if c == b'B' {
        return Command::Receive { slot: n, size: m };
    }
    if c == b'y' {
        return Command::Closing(Closing::SendConnParamUpdateRes { link: n, result: m });
    }
    Command::Bad
}

pub fn three_words(c: u8, a: &[u8], b: &[u8], last: Word) -> Command
    ensures { result ≡ three_words c a.now b.now last }
{
    let Some(n) = read_number(a) else {
        return Command::Bad;
    };
    if c == b'P' {
        if is_flag(b) {
            return Command::Opening(Opening::NextPending {
                link: n,
                up: flag_of(b),
            });
        }
        return Command::Bad;
    }
    if c == b'K' {
        if hex_ok(b) {
            return Command::Send { slot: n, job: last };
        }
        return Command::Bad;
    }
    let Some(m) = read_number(b) else {
        return Command::Bad;
    };
    with_numbers(c, n, m)
}
