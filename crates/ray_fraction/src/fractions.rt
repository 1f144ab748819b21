//! Fractions that are not in lowest terms.

ghost use Rattle.std.specs.Prelude.{◌≡◌, ℕ, ◌*◌, ◌<◌, ◌≤◌, ◌↔◌, IsTrue};
ghost use Rattle.ray_fraction.specs.Fractions.{IsUpTo};

use crate::times::Time;

/// The fraction `n / m`, as it came.
#[derive(Clone, Copy)]
pub struct Fraction {
    pub n: u64,
    pub m: u64,
    pub ghost some: { 1 ≤ m },
}

impl Fraction {
    /// Whether it is greater than another.
    pub fn is_after(&self, other: &Fraction) -> bool
        ensures { IsTrue result ↔ (other.now.n * self.now.m < self.now.n * other.now.m) }
    {
        u128::from(other.n) * u128::from(self.m) < u128::from(self.n) * u128::from(other.m)
    }

    /// The greater of two.
    pub fn later(&self, other: &Fraction) -> Fraction
        ensures { (n m : ℕ) → IsUpTo result.n result.m n m ↔ (IsUpTo self.now.n self.now.m n m × IsUpTo other.now.n other.now.m n m) }
    {
        if self.is_after(other) { *self } else { *other }
    }

    /// The smaller of two.
    pub fn earlier(&self, other: &Fraction) -> Fraction
        ensures { (n m : ℕ) → IsUpTo n m result.n result.m ↔ (IsUpTo n m self.now.n self.now.m × IsUpTo n m other.now.n other.now.m) }
    {
        if self.is_after(other) { *other } else { *self }
    }

    /// The time in lowest terms.
    pub fn time(&self) -> Time
        ensures { result.n * self.now.m ≡ self.now.n * result.m }
    {
        Time::new(self.n, self.m)
    }
}
