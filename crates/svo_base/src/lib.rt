//! The types that every layer speaks of: points, triangles and cubes of whole numbers, the grid,
//! the box around points, the words of a command line, and a counter of steps that costs nothing.
#![tactic(auto)]

mod boxes;
mod counting;
mod grids;
mod shapes;
mod texts;

pub use boxes::{BoundingBox, Bounds, Extent};
pub use counting::Steps;
pub use grids::{Grid, GridFault, MAX_DEPTH, MAX_LEVELS};
pub use shapes::{Cube, Point, Triangle, Vector};
pub use texts::Words;

#[cfg(test)]
mod tests;
