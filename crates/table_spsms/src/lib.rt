// Registered SPSMs: bit s % 8 of octet s / 8 of the table. Each contract is the equation with the function of that name in the crate
// `definition`.
#![tactic(auto)]

ghost use Rattle.std.specs.Prelude.{◌≡◌, false, ◌+◌, ◌/◌, ◌%◌, ◌^◌, ◌≤◌, ◌<◌, eqb};
ghost use Rattle.channel.specs.Limits.{spsm_most};
ghost use Rattle.definition.specs.Table.{is_registered, registered};

use channel::{SPSM_MOST, Table};

fn is_set(octet: u8, k: u16) -> bool
    requires { k < 8 }
    ensures { result ≡ eqb (octet / 2 ^ k % 2) 1 }
{
    (octet >> k) % 2 == 1
}

// The octet with a bit set that was not.
fn with_bit(octet: u8, k: u16) -> u8
    requires { (k < 8) × (eqb (octet / 2 ^ k % 2) 1 ≡ false) }
    ensures { result ≡ octet + 2 ^ k }
{
    octet + (1u8 << k)
}

pub fn is_registered(t: Table, spsm: u16) -> bool
    ensures { result ≡ is_registered t spsm }
{
    if spsm < 1 {
        return false;
    }
    if SPSM_MOST < spsm {
        return false;
    }
    let i = (spsm / 8) as usize;
    let octet = t.spsms[i];
    is_set(octet, spsm % 8)
}

// The table with the SPSM registered; one that is registered stays so.
pub fn registered(t: Table, spsm: u16) -> Table
    requires { (1 ≤ spsm) × (spsm ≤ spsm_most) }
    ensures { result ≡ registered t spsm }
{
    if is_registered(t, spsm) {
        return t;
    }
    let i = (spsm / 8) as usize;
    let octet = with_bit(t.spsms[i], spsm % 8);
    // one element: no struct update says that
    let mut u = t;
    u.spsms[i] = octet;
    u
}
