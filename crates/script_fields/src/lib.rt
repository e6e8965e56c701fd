// The words of a configuration, one kind each, beside the plain ones (`script_fields_plain`): whether a word is of that kind, and what it then says. A
// word is tested before it is asked. What each word says is defined in specs/Fields.antt.
#![tactic(auto)]

ghost use Rattle.std.specs.Prelude.{◌≡◌, drop};
ghost use Rattle.script_fields.specs.Fields.{is_setting, setting_of, is_policy, policy_of};

use credit::CreditFlowPolicy;
use script_fields_plain::{is_number, is_one, number_of};

pub fn is_setting(word: &[u8]) -> bool
    ensures { result ≡ is_setting word.now }
{
    is_one(word, b'-') | is_number(word)
}

pub fn setting_of(word: &[u8]) -> Option<u16>
    ensures { result ≡ setting_of word.now }
{
    if is_one(word, b'-') {
        return None;
    }
    Some(number_of(word))
}

// What stands behind the first character.
fn behind_first(word: &[u8]) -> &[u8]
    ensures { result.now ≡ drop 1 word.now }
{
    if 0 < word.len() { &word[1..] } else { word }
}

pub fn is_policy(word: &[u8]) -> bool
    ensures { result ≡ is_policy word.now }
{
    if is_one(word, b'-') {
        return true;
    }
    let c = octets::octet(word, 0);
    ((c == b'e') | (c == b'm')) & is_number(behind_first(word))
}

pub fn policy_of(word: &[u8]) -> CreditFlowPolicy
    ensures { result ≡ policy_of word.now }
{
    if is_one(word, b'-') {
        return CreditFlowPolicy::Every(1);
    }
    let n = number_of(behind_first(word));
    if octets::octet(word, 0) == b'e' {
        return CreditFlowPolicy::Every(n);
    }
    CreditFlowPolicy::MinThreshold(n)
}
