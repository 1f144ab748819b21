//! What is put into slots.

use svo_base::Bounds;
use tri_cube::PreparedTriangle;

/// A triangle with its box, and its face. The first slot is that of the cell with the code `first`.
#[derive(Drop)]
pub struct Put {
    pub triangle: PreparedTriangle,
    pub bounds: Bounds,
    pub face: u32,
    pub first: u64,
}
