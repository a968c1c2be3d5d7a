// Tests joined, and the test of a number against its limits.
#![tactic(auto)]

ghost use Rattle.std.specs.Prelude.{◌≡◌};
ghost use Rattle.lists.specs.Below.{both, within};

// Both tests hold. Neither is left out for the other's sake.
pub fn both(a: bool, b: bool) -> bool
    ensures { result ≡ both a b }
{
    a && b
}

// Whether a number is one of those from low to high.
pub fn within(low: u32, high: u32, number: u32) -> bool
    ensures { result ≡ within low high number }
{
    (low..=high).contains(&number)
}
