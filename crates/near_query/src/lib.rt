//! The filled cube nearest to a point, found by a walk down the octree of a node file that reads the
//! nearest node first (Hjaltason, Samet 1999).
#![tactic(auto)]

mod cells;
mod gaps;
mod laws;
mod measures;
mod queues;
mod searching;
mod steps;
mod walking;

pub use cells::{NearCell, NearFault};
pub use laws::nearest_cells_are_one;
pub use measures::is_in_reach;
pub use searching::{Search, near};

#[cfg(test)]
mod tests;
