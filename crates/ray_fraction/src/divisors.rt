//! Divisors of whole numbers.

ghost use Rattle.std.specs.Prelude.{◌≤◌};
ghost use Rattle.std.specs.Int.{IsGcd};

/// The greatest number that divides both, by the falling remainders of Euclid.
pub fn greatest_common_divisor(a: u64, b: u64) -> u64
    requires { 1 ≤ b }
    ensures divisor { IsGcd a b result }
    ensures some { 1 ≤ result }
{
    let mut x = a;
    let mut y = b;
    while y != 0 {
        let rest = x % y;
        x = y;
        y = rest;
    }
    x
}
