// The connection parameters that a central takes (Core Vol 3 Part A 4.20, in the ranges of document 01).
#![tactic(auto)]

ghost use Rattle.std.specs.Prelude.{◌≡◌};
ghost use Rattle.signal_parameter_rule.specs.Parameters.{parameters_valid};

use signal_forms::ConnParamUpdateReq;

pub fn parameters_valid(p: ConnParamUpdateReq) -> bool
    ensures { result ≡ parameters_valid p }
{
    if p.min < 6 {
        return false;
    }
    if p.max < p.min {
        return false;
    }
    if 3200 < p.max {
        return false;
    }
    if 499 < p.latency {
        return false;
    }
    if p.timeout < 10 {
        return false;
    }
    if 3200 < p.timeout {
        return false;
    }
    (1 + p.latency as u32) * (p.max as u32) < 4 * (p.timeout as u32)
}
