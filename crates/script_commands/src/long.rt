// The calls of a script (docs/CHANRUN.md) whose line has four words or more, by their number; the shorter ones are in `script_commands`. The table of these
// calls is specs/LongCommands.antt, which every function here follows test by test. It rests on `script_commands`, `text_decimal`, `script_fields_plain`, `script_fields` and `text_hex_words`.
ghost use Rattle.std.specs.Prelude.{◌≡◌};
ghost use Rattle.script_commands.specs.LongCommands.{four_words, five_words, six_words, seven_words};

use crate::{Closing, Command, Opening, Portions};
use script_fields_config::{config_of, is_config};
use script_fields_plain::{central_of, flag_of, is_flag, is_number, is_role, is_size, number_of};
use text_decimal::read_number;
use text_hex_words::hex_ok;
use text_words::Word;

pub fn four_words(c: u8, a: &[u8], b: &[u8], d: &[u8], last: Word) -> Command
    ensures { result ≡ four_words c a.now b.now d.now last }
{
    let Some(n) = read_number(a) else {
        return Command::Bad;
    };
    let Some(m) = read_number(b) else {
        return Command::Bad;
    };
    if c == b'T' {
        if is_number(d) {
            return Command::Make {
                n,
                d: m,
                m: number_of(d),
            };
        }
        return Command::Bad;
    }
    if c == b'O' {
        if is_flag(d) {
            return Command::Opened {
                slot: n,
                link: m,
                up: flag_of(d),
            };
        }
        return Command::Bad;
    }
    if c == b'F' {
        if hex_ok(d) {
            return Command::Dispatch {
                link: n,
                cid: m,
                payload: last,
            };
        }
        return Command::Bad;
    }
    if c == b'N' {
        if is_size(d) {
            return Command::Portions(Portions::StartJob {
                slot: n,
                stated: m,
                size: number_of(d),
            });
        }
        return Command::Bad;
    }
    if c == b'p' {
        if is_size(b) & hex_ok(d) {
            return Command::Portions(Portions::GivePortion {
                slot: n,
                size: m,
                portion: last,
            });
        }
        return Command::Bad;
    }
    Command::Bad
}

pub fn five_words(c: u8, a: &[u8], b: &[u8], d: &[u8], e: &[u8], last: Word) -> Command
    ensures { result ≡ five_words c a.now b.now d.now e.now last }
{
    if (c == b'S') & is_number(a) & is_flag(b) & is_role(d) & hex_ok(e) {
        return Command::Signal {
            link: number_of(a),
            listening: flag_of(b),
            central: central_of(d),
            pdu: last,
        };
    }
    Command::Bad
}

pub fn six_words(c: u8, a: &[u8], b: &[u8], d: &[u8], e: &[u8], f: &[u8]) -> Command
    ensures { result ≡ six_words c a.now b.now d.now e.now f.now }
{
    let Some(n) = read_number(a) else {
        return Command::Bad;
    };
    if c == b'A' {
        if is_config(b, d, e, f) {
            let config = config_of(b, d, e, f);
            return Command::Opening(Opening::AcceptPending { slot: n, config });
        }
        return Command::Bad;
    }
    if c == b'Y' {
        if is_number(b) & is_number(d) & is_number(e) & is_number(f) {
            return Command::Closing(Closing::SendConnParamUpdateReq {
                link: n,
                min: number_of(b),
                max: number_of(d),
                latency: number_of(e),
                timeout: number_of(f),
            });
        }
        return Command::Bad;
    }
    Command::Bad
}

pub fn seven_words(c: u8, a: &[u8], b: &[u8], d: &[u8], e: &[u8], f: &[u8], g: &[u8]) -> Command
    ensures { result ≡ seven_words c a.now b.now d.now e.now f.now g.now }
{
    if (c == b'C') & is_number(a) & is_number(b) & is_config(d, e, f, g) {
        let config = config_of(d, e, f, g);
        return Command::Opening(Opening::Create {
            link: number_of(a),
            spsm: number_of(b),
            config,
        });
    }
    Command::Bad
}
