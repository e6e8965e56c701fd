// What a call's answer tells, in numbers: its kind, its refusal and what it carries. Defined in specs/Tells.antt. `edge_answer` writes it for
// callers in other languages, `row_answer` and `row_call` as a row. It rests on `codes` for the numbers of refusals and result codes.
#![tactic(auto)]

ghost use Rattle.std.specs.Prelude.{◌≡◌};
ghost use Rattle.channel.specs.declared.Answer.TheVariants.{Refused, Number};
ghost use Rattle.lists.specs.Bits as Bits;
ghost use Rattle.channel_answer.specs.Tells.{shown, told_by, tells, number_told};

use channel::Answer;
use codes::Refusal;
use octets::least;

// The kinds, a number for each answer in their order (specs/Kinds.antt). 11 is the answer of a run, which is no call's (`edge_run`).
pub const DONE: u8 = 0;

pub const REFUSED: u8 = 1;

pub const AT: u8 = 2;

pub const LINK: u8 = 3;

pub const OPENED: u8 = 4;

pub const DUE: u8 = 5;

pub const FRAMES: u8 = 6;

pub const JOB: u8 = 7;

pub const ATTENTION: u8 = 8;

pub const NUMBER: u8 = 9;

pub const EVENT: u8 = 10;

pub const PORTION: u8 = 12;

// What an answer tells: its kind, the refusal's number, and four numbers.
#[derive(Clone, Copy)]
pub struct Told {
    pub kind: u8,
    pub refusal: u8,
    pub first: u16,
    pub second: u16,
    pub third: u16,
    pub fourth: u16,
}

// Nothing is refused.
fn plain(kind: u8, first: u16, second: u16, third: u16, fourth: u16) -> Told
    ensures { result ≡ told_by kind 0 first second third fourth }
{
    Told {
        kind,
        refusal: 0,
        first,
        second,
        third,
        fourth,
    }
}

// A count above 65,535, which no table and no job reaches, is told as that.
pub fn shown(n: usize) -> u16
    ensures { result ≡ shown n }
{
    least(n, 65535) as u16
}

fn bit(b: bool) -> u16
    ensures { result ≡ Bits.bit b }
{
    if b { 1 } else { 0 }
}

// A refusal, with what it carries.
fn refused(r: Refusal) -> Told
    ensures { result ≡ tells (Refused r) }
{
    Told {
        kind: REFUSED,
        refusal: codes::refusal_number(r),
        first: codes::result_in(r),
        second: 0,
        third: 0,
        fourth: 0,
    }
}

// A number of 64 bits, in four.
fn number(n: u64) -> Told
    ensures { result ≡ tells (Number n) }
{
    let l = octets::limbs_of(n);
    plain(NUMBER, l.first, l.second, l.third, l.fourth)
}

// The number that an answer of that kind told.
pub fn number_told(x: Told) -> u64
    ensures { result ≡ number_told x }
{
    octets::of_limbs(x.first, x.second, x.third, x.fourth)
}

// What an answer tells.
pub fn tells(a: Answer) -> Told
    ensures { result ≡ tells a }
{
    match a {
        Answer::Done => plain(DONE, 0, 0, 0, 0),
        Answer::Refused(r) => refused(r),
        Answer::At(slot) => plain(AT, slot.0 as u16, 0, 0, 0),
        Answer::Link(link) => plain(LINK, link, 0, 0, 0),
        Answer::Opened => plain(OPENED, 0, 0, 0, 0),
        Answer::Due { link, slot } => plain(DUE, link, slot.0 as u16, 0, 0),
        Answer::Frames { link, count } => plain(FRAMES, link, shown(count), 0, 0),
        Answer::Job { link, length } => plain(JOB, link, length, 0, 0),
        Answer::Attention { set, count, lowest } => plain(
            ATTENTION,
            set,
            count as u16,
            lowest as u16,
            0,
        ),
        Answer::Number(n) => number(n),
        Answer::Event {
            min,
            max,
            latency,
            timeout,
        } => plain(EVENT, min, max, latency, timeout),
        Answer::Portion { link, taken, full } => plain(PORTION, link, shown(taken), bit(full), 0),
    }
}
