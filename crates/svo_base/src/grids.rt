//! The grid of cells that a mesh is sampled on.

ghost use Rattle.std.specs.Prelude.{◌≡◌, ◌*◌, ◌^◌, ◌≤◌, ◌&&◌, nat_le, pos};
ghost use Rattle.std.specs.List.{list_all};
ghost use Rattle.svo_base.specs.GridLimits.{is_positive, is_within};

use std::marker::Model;

/// The greatest depth of an octree.
pub const MAX_DEPTH: u32 = 12;

/// The same, as the length of a row with a place for each level.
pub const MAX_LEVELS: usize = MAX_DEPTH as usize;

/// The greatest size of a component of a grid's origin.
const ORIGIN_LIMIT: u64 = 1 << 30;

/// The greatest side of a whole grid.
const WIDTH_LIMIT: u64 = 1 << 32;

/// Which limit of a grid was broken first.
#[derive(Clone, Copy, Debug, PartialEq, Eq)]
pub enum GridFault {
    /// The depth is not in 1 to `MAX_DEPTH`.
    Depth,
    /// A component of the origin has a size above 2^30.
    Origin,
    /// The cell's side is below 1.
    Cell,
    /// The cell's side times 2 to the depth is above 2^32.
    TooWide,
}

/// A grid of `2^depth` cells along each axis. Cells are closed cubes with sides of `cell` units,
/// and the first one has its lower corner at the origin.
#[derive(Clone, Copy, Debug, PartialEq, Eq)]
pub struct Grid {
    depth: u32,
    origin: [i64; 3],
    cell: u64,
}

impl Model for Grid {
    ghost use Rattle.svo_base.specs.GridShape.{GridShape, IsGrid};

    ghost Value = { GridShape };

    ghost view = { λ g. record { depth = g.depth; origin = g.origin; cell = g.cell } };

    ghost invariant = { λ g. IsGrid (record { depth = g.depth; origin = g.origin; cell = g.cell }) };

    ghost inverse = { λ v. record { depth = v.depth; origin = v.origin; cell = v.cell } };
}

impl Grid {
    ghost use Rattle.svo_base.specs.GridShape.{GridShape, IsGrid};
    ghost use Rattle.svo_base.specs.GridLimits.{grid_from};

    /// The grid of these numbers, or the first of its limits that is broken, in the order of the
    /// variants of [`GridFault`].
    #[tactic(auto, unfolding(crate::specs::GridLimits::grid_from))]
    pub fn new(depth: i64, origin: [i64; 3], cell: i64) -> Result<Grid, GridFault>
        ensures { result ≡ grid_from depth origin cell }
    {
        if !is_depth(depth) {
            return Err(GridFault::Depth);
        }
        if !is_near(&origin) {
            return Err(GridFault::Origin);
        }
        if cell < 1 {
            return Err(GridFault::Cell);
        }
        let depth = depth.unsigned_abs() as u32;
        let cell = cell.unsigned_abs();
        if !is_narrow(cell, depth) {
            return Err(GridFault::TooWide);
        }
        Ok(Grid {
            depth,
            origin,
            cell,
        })
    }

    /// The grid of numbers that are within the limits.
    pub(crate) fn within(depth: u32, origin: [i64; 3], cell: u64) -> Grid
        requires { IsGrid (record { depth = depth; origin = origin; cell = cell }) }
        ensures { result ≡ record { depth = depth; origin = origin; cell = cell } }
    {
        Grid {
            depth,
            origin,
            cell,
        }
    }

    /// How many times the grid is halved until its cells are reached.
    pub fn depth(&self) -> u32
        ensures value { result ≡ self.now.depth }
        ensures limits { IsGrid self.now }
    {
        self.depth
    }

    /// The lower corner of the grid.
    pub fn origin(&self) -> [i64; 3]
        ensures value { result ≡ self.now.origin }
        ensures limits { IsGrid self.now }
    {
        self.origin
    }

    /// The side of a cell.
    pub fn cell(&self) -> i64
        ensures value { result ≡ pos self.now.cell }
        ensures limits { IsGrid self.now }
    {
        self.cell as i64
    }
}

/// Whether an octree may be so deep.
fn is_depth(depth: i64) -> bool
    ensures { result ≡ (is_positive depth && is_within MAX_DEPTH depth) }
{
    (1..=i64::from(MAX_DEPTH)).contains(&depth)
}

/// Whether an origin is near enough to 0 on each axis.
fn is_near(origin: &[i64; 3]) -> bool
    ensures { result ≡ list_all (is_within (2 ^ 30)) origin.now }
{
    origin.iter().all(|o| o.unsigned_abs() <= ORIGIN_LIMIT)
}

/// Whether a grid with cells of this side is within its width.
fn is_narrow(cell: u64, depth: u32) -> bool
    requires { depth ≤ MAX_DEPTH }
    ensures { result ≡ nat_le (cell * 2 ^ depth) (2 ^ 32) }
{
    cell <= WIDTH_LIMIT >> depth
}
