// What a call was given, a number or nothing, and the tests of the number: nothing given passes each.
#![tactic(auto)]

ghost use Rattle.std.specs.Prelude.{◌≡◌, not, eqb, leb, ltb};
ghost use Rattle.definition.specs.Outcome.{fails};

pub fn other_than(g: Option<usize>, k: usize) -> bool
    ensures { result ≡ fails (λ x. not (eqb x k)) g }
{
    match g {
        None => false,
        Some(x) => x != k,
    }
}

pub fn below(g: Option<usize>, k: usize) -> bool
    ensures { result ≡ fails (λ x. ltb x k) g }
{
    match g {
        None => false,
        Some(x) => x < k,
    }
}

pub fn above(g: Option<usize>, k: usize) -> bool
    ensures { result ≡ fails (λ x. ltb k x) g }
{
    match g {
        None => false,
        Some(x) => k < x,
    }
}

pub fn reaching(g: Option<usize>, k: usize) -> bool
    ensures { result ≡ fails (λ x. leb k x) g }
{
    match g {
        None => false,
        Some(x) => k <= x,
    }
}
