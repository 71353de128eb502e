// The largest and the smallest of some numbers; and definitions of their sum, and of a sum held to a limit, which std adds. Uses
// nothing.
#![tactic(auto)]

ghost use Rattle.std.specs.Prelude.{◌≡◌};
ghost use Rattle.numbers.specs.Numbers.{largest, smallest};

// The largest of some numbers; 0 of none.
pub fn largest(ns: &[u16]) -> u16
    ensures { result ≡ largest ns.now }
{
    ns.iter().copied().max().unwrap_or(0)
}

// The smallest; 0 of none.
pub fn smallest(ns: &[u16]) -> u16
    ensures { result ≡ smallest ns.now }
{
    ns.iter().copied().min().unwrap_or(0)
}
