// Where a text is cut: the first occurrence of a character. What a text is cut into is defined in specs/Cut.antt, with its laws in
// proofs/CutLaws.antt; it rests on the leaves of `octets`.
#![tactic(auto)]

ghost use Rattle.std.specs.Prelude.{◌≡◌, ◌+◌, ◌-◌};
ghost use Rattle.lists.specs.First.{first};
ghost use Rattle.octets.specs.Octets.{part};
ghost use Rattle.text_cut.specs.Cut.{is};

use octets::{least, left};

// The index of the first `c` of `s` from `from` on and before `to`; where there is none, where the search ended.
pub fn find(s: &[u8], from: usize, to: usize, c: u8) -> usize
    ensures { result ≡ from + first (is c) (part s.now from (to - from)) }
{
    let n = least(left(to, from), left(s.len(), from));
    for i in 0..n {
        if s[from + i] == c {
            return from + i;
        }
    }
    from + n
}
