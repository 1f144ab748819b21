//! The build of a node file from a mesh text, out of core: the text's vertices and triangles go to
//! scratch, and then the parts of the grid are filled one after another and put out as an octree.
#![tactic(auto)]

mod building;
mod cells;
mod faults;
mod jobs;
mod nodes;
mod parts;
mod spilling;
mod triangles;
mod vertices;

pub use building::build_core;
pub use faults::BuildFault;
pub use jobs::{Built, GridChoice, Job};

#[cfg(test)]
mod nodes_tests;
