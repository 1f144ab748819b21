//! Whether a closed triangle and a closed cube share a point, answered exactly in whole numbers.
//! The question is that of the overlap test of Schwarz and Seidel (2010); it is answered by the
//! weights of the triangle's corners.
#![tactic(auto)]

mod candidates;
mod extents;
mod meeting;
mod narrow;
mod near;
mod near_outlines;
mod near_planes;
mod outlines;
mod planes;
mod prepared;
mod products;
mod rows;
mod small;
mod verdicts;
mod wide;

pub use meeting::{overlaps, overlaps_by_candidates};
pub use narrow::NarrowVector;
pub use prepared::PreparedTriangle;
pub use products::{cross, scaled, wide_product};
pub use verdicts::{Verdict, why};
