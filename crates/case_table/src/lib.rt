//! Tables of cases, written out by macros, each compared with its definition as a whole.
#![tactic(auto)]

mod cases;
mod orders;
mod separation;

pub use cases::Cases;
pub use orders::octant_orders;
pub use separation::{axis_cases, row_pairs};

#[cfg(test)]
mod tests;
