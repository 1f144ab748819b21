//! A mesh that is made from a number, for trials of any size with no file: a square of points 16
//! apart, with heights of 0 to 63 from a generator, and a face of four corners in each gap.
#![tactic(auto)]

mod body;
mod generator;
mod laws;
mod lines;
mod made_mesh;

pub use laws::{made_meshes_are_counted, made_texts_mean_their_mesh};
pub use made_mesh::MadeMesh;
