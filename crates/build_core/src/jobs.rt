//! What is built, and what was.

use room_plan::MemPlan;
use svo_base::Grid;

/// The grid that a mesh is sampled on.
#[derive(Clone, Copy, Debug, PartialEq, Eq)]
pub enum GridChoice {
    /// This one.
    Given(Grid),
    /// The one of this depth that is fitted to the mesh's vertices.
    Fit(u32),
}

/// What is to be built: the grid, how coordinates are read, and the plan of the memory. Coordinates are
/// multiplied by ten to the power of `decimals`, and with `cut` they are then cut toward zero.
#[derive(Clone, Copy, Debug, PartialEq, Eq)]
pub struct Job {
    pub grid: GridChoice,
    pub decimals: u32,
    pub cut: bool,
    pub plan: MemPlan,
}

/// What was built: the grid, how many faces and triangles the mesh has, how many cells and words the
/// file has, and in how many parts it was filled.
#[derive(Clone, Copy, Debug, PartialEq, Eq)]
pub struct Built {
    pub grid: Grid,
    pub faces: u64,
    pub triangles: u64,
    pub cells: u64,
    pub records: u64,
    pub parts: u64,
}
