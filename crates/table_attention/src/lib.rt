// The attention set: a bit for each slot that calls, the number of them, and the lowest (N when none calls).
// The set is built from the last slot down; the counts are those of its bits (crate lists, Bits).
#![tactic(auto)]

ghost use Rattle.std.specs.Prelude.{◌≡◌};
ghost use Rattle.lists.specs.Bits.{bit, bitset, count};
ghost use Rattle.channel.specs.declared.Answer.TheVariants.{Attention};
ghost use Rattle.definition.specs.Table.{live, found, calls};

use channel::{Answer, SLOTS, Table};

fn bit_of(b: bool) -> u16
    ensures { result ≡ bit b }
{
    if b { 1 } else { 0 }
}

// Bit k is set exactly when slot k calls.
pub fn attention_set(t: Table) -> u16
    ensures { result ≡ bitset calls (live t) }
{
    let n = octets::least(t.n, SLOTS);
    let mut a: u16 = 0;
    for i in (0..n).rev() {
        a = bit_of(table_slot::calls(t.slots[i])) + 2 * a;
    }
    a
}

// The set, how many slots call, and the lowest of them; N when none calls.
pub fn attention(t: Table) -> Answer
    ensures { result ≡ Attention (bitset calls (live t)) (count calls (live t)) (found calls t) }
{
    let set = attention_set(t);
    let count = u16::count_ones(set) as u8;
    if set == 0 {
        return Answer::Attention {
            set,
            count,
            lowest: octets::least(t.n, SLOTS) as u8,
        };
    }
    Answer::Attention {
        set,
        count,
        lowest: u16::trailing_zeros(set) as u8,
    }
}
