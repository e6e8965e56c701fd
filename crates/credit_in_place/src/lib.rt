// The credit account changed where it stands, behind `&mut`: thin functions over the proved by-value methods of `credit`, each with a
// bridge for callers that have the account by value.
#![tactic(auto)]

ghost use Rattle.std.specs.Prelude.{◌≡◌};
ghost use Rattle.credit.specs.Account.{received, granted};

use credit::CreditFlowControl;

// n frames came.
pub fn received_in_place(a: &mut CreditFlowControl, n: u16)
    ensures { a.new ≡ received a.old n }
{
    *a = (*a).confirm_received(n);
}

// n credits were granted.
pub fn granted_in_place(a: &mut CreditFlowControl, n: u16)
    ensures { a.new ≡ granted a.old n }
{
    *a = (*a).confirm_granted(n);
}

// The same on an account by value, lent from a local: what covered code calls.
pub fn received_through(a: CreditFlowControl, n: u16) -> CreditFlowControl
    ensures { result ≡ received a n }
{
    let mut b = a;
    received_in_place(&mut b, n);
    b
}

pub fn granted_through(a: CreditFlowControl, n: u16) -> CreditFlowControl
    ensures { result ≡ granted a n }
{
    let mut b = a;
    granted_in_place(&mut b, n);
    b
}
