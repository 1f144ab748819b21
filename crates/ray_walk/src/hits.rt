//! Hits of filled cells.

use ray_fraction::Time;

/// The first filled cell that a ray hits: when, and the cell's Morton code.
#[derive(Clone, Copy, Debug, PartialEq, Eq)]
pub struct Hit {
    pub time: Time,
    pub code: u64,
}

/// A filled cell that is hit, and when, in ticks of its flight.
#[derive(Clone, Copy, Debug, PartialEq, Eq)]
pub struct Candidate {
    pub ticks: u128,
    pub code: u64,
}
