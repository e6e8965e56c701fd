// Runs the credit account on cases with expected results (the file stdout): each row is the account, what `process` grants, and what n frames
// and n granted credits leave, first by the by-value method, then by the function that changes the account where it stands.
#![tactic(auto)]

use credit::{CreditFlowControl, CreditFlowPolicy};
use std::io;

fn account(rt: &impl Print, a: CreditFlowControl) -> io::Result<()> {
    print!(rt; "{} {} ", a.credits, a.received)
}

fn grant(rt: &impl Print, g: Option<u16>) -> io::Result<()> {
    match g {
        None => print!(rt; "grants nothing "),
        Some(n) => print!(rt; "grants {n} "),
    }
}

fn row(
    rt: &impl Print,
    policy: CreditFlowPolicy,
    credits: u16,
    received: u16,
    n: u16,
) -> io::Result<()> {
    let a = CreditFlowControl {
        policy,
        credits,
        received,
    };
    account(rt, a)?;
    grant(rt, a.process())?;
    print!(rt; "/ {n} received: ")?;
    account(rt, a.confirm_received(n))?;
    account(rt, credit_in_place::received_through(a, n))?;
    print!(rt; "granted: ")?;
    account(rt, a.confirm_granted(n))?;
    account(rt, credit_in_place::granted_through(a, n))?;
    println!(rt)
}

fn every(rt: &impl Print, k: u16, credits: u16, received: u16, n: u16) -> io::Result<()> {
    print!(rt; "every {k} ")?;
    row(rt, CreditFlowPolicy::Every(k), credits, received, n)
}

fn threshold(rt: &impl Print, t: u16, credits: u16, received: u16, n: u16) -> io::Result<()> {
    print!(rt; "below {t} ")?;
    row(rt, CreditFlowPolicy::MinThreshold(t), credits, received, n)
}

fn main(rt: HostRuntime) -> io::Result<()> {
    let a = CreditFlowControl::new(CreditFlowPolicy::Every(1), 5);
    print!(rt; "new ")?;
    account(&rt, a)?;
    println!(rt; "{} ", a.available())?;
    every(&rt, 1, 5, 0, 1)?;
    every(&rt, 1, 4, 1, 1)?;
    every(&rt, 3, 4, 2, 2)?;
    every(&rt, 3, 4, 3, 3)?;
    every(&rt, 0, 4, 0, 0)?;
    every(&rt, 0, 4, 1, 1)?;
    every(&rt, 65535, 0, 65534, 1)?;
    every(&rt, 65535, 0, 65535, 1)?;
    threshold(&rt, 3, 3, 2, 2)?;
    threshold(&rt, 3, 2, 2, 2)?;
    threshold(&rt, 3, 2, 0, 1)?;
    threshold(&rt, 0, 0, 9, 9)?;
    threshold(&rt, 65535, 65534, 1, 1)?;
    every(&rt, 1, 65530, 5, 5)?;
    every(&rt, 1, 65530, 6, 6)?;
    every(&rt, 1, 0, 7, 65535)?;
    every(&rt, 1, 65535, 65535, 65535)
}
