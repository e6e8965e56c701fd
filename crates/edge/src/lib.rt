// What every entry does at the edge to another language: the table written back, the answer written, and numbers read as what they stand for.
// Defined in specs/Edge.antt. It rests on `edge_layout_encode` and `edge_answer`.
#![tactic(auto)]

ghost use Rattle.std.specs.Prelude.{◌≡◌, List, ℕ};
ghost use Rattle.lists.specs.Choose.{choose};
ghost use Rattle.definition.specs.Ending.{end};
ghost use Rattle.edge_layout.specs.Layout.{written};
ghost use Rattle.edge.specs.Edge.{edge, lifted, setting_of, policy_by, config_of};

use channel::{L2capChannelConfig, Served, Table};
use credit::CreditFlowPolicy;

// Writes the table back where its octets were a table's.
fn keep(table: &mut [u8], ok: bool, t: Table)
    ensures { table.new ≡ choose ok (written table.old t) table.old }
{
    if ok {
        edge_layout_encode::encode(table, t);
    }
}

// Ends a call: the table and the answer are written; the number is 0 or the refusal's.
pub fn store(table: &mut [u8], answer: &mut [u8], ok: bool, s: Served) -> u32
    ensures { (room out job : List ℕ) → edge result table.new answer.new room out job ≡ lifted ok table.old answer.old (end s room out job) }
{
    // Taken first: what is left of s is then the table alone, which goes on uncopied.
    let a = s.answer;
    let n = s.octets;
    let t = s.table;
    keep(table, ok, t);
    edge_answer::put_answer(answer, a, n)
}

// The slots to be made: none where the table's octets are too few or too many, which is refusal 1.
pub fn slots_if(fits: bool, n: u16) -> u16
    ensures { result ≡ choose fits n 0 }
{
    if fits { n } else { 0 }
}

// A setting above 65,535 is the default.
fn setting(n: u32) -> Option<u16>
    ensures { result ≡ setting_of n }
{
    if 65535 < n {
        return None;
    }
    Some(n as u16)
}

// Kind 0 is Every, another MinThreshold: a number, as the C interface gives it.
fn policy(kind: u8, value: u16) -> CreditFlowPolicy
    ensures { result ≡ policy_by kind value }
{
    if kind == 0 {
        return CreditFlowPolicy::Every(value);
    }
    CreditFlowPolicy::MinThreshold(value)
}

// What an accept or a create asks for.
pub fn config(mtu: u32, mps: u32, kind: u8, value: u16, credits: u32) -> L2capChannelConfig
    ensures { result ≡ config_of mtu mps kind value credits }
{
    let policy = policy(kind, value);
    let mtu = setting(mtu);
    let mps = setting(mps);
    let credits = setting(credits);
    L2capChannelConfig {
        mtu,
        mps,
        policy,
        credits,
    }
}
