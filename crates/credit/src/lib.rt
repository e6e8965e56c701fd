// The credit account of one channel (`CreditFlowControl` in the original's channel manager; Core Vol 3 Part A 10.1): by value.
// What each method gives is defined in specs/Account.antt; it rests on no other crate.
#![tactic(auto)]

ghost use Rattle.std.specs.Prelude.{◌≡◌};
ghost use Rattle.credit.specs.Account.{new_account, received, granted, grant_of};

// Credits, and the sum of those held and received, end here: where a u16 saturates.
pub const CREDITS_MOST: u16 = u16::MAX;

// When a taken job makes the peer new credits due.
#[derive(Clone, Copy)]
pub enum CreditFlowPolicy {
    // Once that many frames came since the last grant.
    Every(u16),
    // Once the peer holds fewer credits than that.
    MinThreshold(u16),
}

// Credits that the peer still holds, and those that it has used since the last grant.
#[derive(Clone, Copy)]
pub struct CreditFlowControl {
    pub policy: CreditFlowPolicy,
    pub credits: u16,
    pub received: u16,
}

impl CreditFlowControl {
    // An account that starts with these credits.
    pub fn new(policy: CreditFlowPolicy, credits: u16) -> CreditFlowControl
        ensures { result ≡ new_account policy credits }
    {
        CreditFlowControl {
            policy,
            credits,
            received: 0,
        }
    }

    // The credits that the peer holds.
    pub fn available(self) -> u16
        ensures { result ≡ self.credits }
    {
        self.credits
    }

    // n frames came.
    pub fn confirm_received(self, n: u16) -> CreditFlowControl
        ensures { result ≡ received self n }
    {
        CreditFlowControl {
            credits: self.credits.saturating_sub(n),
            received: self.received.saturating_add(n),
            ..self
        }
    }

    // n credits were granted.
    pub fn confirm_granted(self, n: u16) -> CreditFlowControl
        ensures { result ≡ granted self n }
    {
        CreditFlowControl {
            credits: self.credits.saturating_add(n),
            received: self.received.saturating_sub(n),
            ..self
        }
    }

    // What is to be granted now: nothing, or so many credits, which are never 0.
    #[tactic(auto, unfolding(crate::specs::Account::due, crate::specs::Account::grant_of, lists::specs::Choose::choose))]
    pub fn process(self) -> Option<u16>
        ensures { result ≡ grant_of self }
    {
        let n = self.received;
        if n == 0 {
            return None;
        }
        match self.policy {
            CreditFlowPolicy::Every(k) if k <= n => Some(n),
            CreditFlowPolicy::MinThreshold(t) if self.credits < t => Some(n),
            _ => None,
        }
    }
}
