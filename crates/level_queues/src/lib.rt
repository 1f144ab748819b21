//! An octree's words from its cells in ascending order, front to back.
//!
//! What waits in the queues after some cells, and that closing a height and putting a cell keep it so,
//! stands in `specs/` and `proofs/`.
#![tactic(auto)]

mod codes;
mod entries;
mod levels;

pub use codes::{ancestor, turning_height};
pub use levels::LevelQueues;
