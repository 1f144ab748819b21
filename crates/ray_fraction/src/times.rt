//! Times as fractions.

ghost use Rattle.std.specs.Prelude.{◌≡◌, ◌*◌, ◌≤◌};
ghost use Rattle.std.specs.Ordering.{nat_cmp};
ghost use Rattle.ray_fraction.specs.Fractions.{IsReduced};

use crate::divisors::greatest_common_divisor;
use std::cmp::Ordering;

/// The time `n / m`, in lowest terms: no number above 1 divides both, and time zero is `0 / 1`.
#[derive(Clone, Copy, Debug, PartialEq, Eq)]
pub struct Time {
    pub n: u64,
    pub m: u64,
    pub ghost some: { 1 ≤ m },
    pub ghost reduced: { IsReduced n m },
}

impl Time {
    /// The time `n / m`.
    pub fn new(n: u64, m: u64) -> Time
        requires { 1 ≤ m }
        ensures { result.n * m ≡ n * result.m }
    {
        let divisor = greatest_common_divisor(n, m);
        Time {
            n: n / divisor,
            m: m / divisor,
        }
    }
}

/// The order of two times by their values.
pub fn compare(a: &Time, b: &Time) -> Ordering
    ensures { result ≡ nat_cmp (a.now.n * b.now.m) (b.now.n * a.now.m) }
{
    let left = u128::from(a.n) * u128::from(b.m);
    let right = u128::from(b.n) * u128::from(a.m);
    left.cmp(&right)
}
