//! Spans of time.

ghost use Rattle.ray_fraction.specs.Fractions.{IsUpTo};

use crate::fractions::Fraction;

/// The times from one on until another, both included.
#[derive(Clone, Copy)]
pub struct Interval {
    pub from: Fraction,
    pub until: Fraction,
    pub ghost some: { IsUpTo from.n from.m until.n until.m },
}

/// The times from 0 on at which something holds, where they have no gap.
#[derive(Clone, Copy)]
pub enum TimeSpan {
    Never,
    Always,
    Between(Interval),
}

impl TimeSpan {
    ghost use Rattle.std.specs.Prelude.{◌≡◌, ◌≢◌};
    ghost use Rattle.ray_fraction.specs.Spans.{AreSameTimes, IsFromUntil, IsDuring};

    /// The times from one on until another.
    pub fn between(from: Fraction, until: Fraction) -> TimeSpan
        ensures times { AreSameTimes (IsDuring result) (IsFromUntil from until) }
        ensures ends { result ≢ TimeSpan.Always }
    {
        if from.is_after(&until) {
            TimeSpan::Never
        } else {
            TimeSpan::Between(Interval { from, until })
        }
    }

    /// The times that both have.
    pub fn meet(&self, other: &TimeSpan) -> TimeSpan
        ensures times { AreSameTimes (IsDuring result) (λ n m. IsDuring self.now n m × IsDuring other.now n m) }
        ensures always { result ≡ TimeSpan.Always → (self.now ≡ TimeSpan.Always) × (other.now ≡ TimeSpan.Always) }
    {
        match (self, other) {
            (TimeSpan::Never, _) | (_, TimeSpan::Never) => TimeSpan::Never,
            (TimeSpan::Always, span) | (span, TimeSpan::Always) => *span,
            (TimeSpan::Between(a), TimeSpan::Between(b)) => a.meet(b),
        }
    }
}

impl Interval {
    ghost use Rattle.std.specs.Prelude.{◌≢◌};
    ghost use Rattle.ray_fraction.specs.Spans.{AreSameTimes, IsFromUntil, IsDuring};

    /// The times that both have.
    fn meet(&self, other: &Interval) -> TimeSpan
        ensures times { AreSameTimes (IsDuring result) (λ n m. IsFromUntil self.now.from self.now.until n m × IsFromUntil other.now.from other.now.until n m) }
        ensures ends { result ≢ TimeSpan.Always }
    {
        let from = self.from.later(&other.from);
        let until = self.until.earlier(&other.until);
        TimeSpan::between(from, until)
    }
}
