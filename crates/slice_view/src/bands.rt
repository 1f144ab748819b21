//! Some rows of a slice.

ghost use Rattle.std.specs.Prelude.{◌≡◌, ◌+◌, ◌-◌, ◌*◌, ◌/◌, ◌^◌, ◌<◌, ◌≤◌, true};
ghost use Rattle.svo_base.specs.declared.grids.TheConstants.{MAX_DEPTH};
ghost use Rattle.slice_view.specs.Bands.{IsBand, IsSquare, band_size, crosses};

use crate::axes::Axis;
use crate::squares::Square;

/// The logarithm of the samples that a block has room for.
pub const BAND_EXPONENT: u32 = 12;

/// The samples that a block has room for.
pub const ROOM: usize = 4096;

/// The rows from one up to another, counted from below, of the slice at a place across an axis of an
/// octree of this depth.
#[derive(Clone, Copy)]
pub struct Band {
    pub depth: u32,
    pub axis: Axis,
    pub at: u32,
    pub low: u32,
    pub high: u32,
}

impl Band {
    /// Whether the band shows some cells of a node.
    pub fn crosses(&self, square: &Square) -> bool
        requires { square.now.height ≤ MAX_DEPTH }
        ensures { result ≡ crosses self.now square.now }
    {
        self.at >> square.height == square.layer
            && self.low >> square.height <= square.row
            && square.row <= self.high >> square.height
    }

    /// How many samples it has.
    pub fn size(&self) -> usize
        requires { IsBand self.now }
        ensures value { result ≡ band_size self.now }
        ensures within { result ≤ 4096 }
    {
        (self.high - self.low + 1) as usize * self.width()
    }

    /// How many samples a row has.
    pub fn width(&self) -> usize
        requires { self.now.depth ≤ MAX_DEPTH }
        ensures { result ≡ 2 ^ self.now.depth }
    {
        1 << self.depth
    }

    /// The number of a cell's sample.
    pub fn sample(&self, cell: &Square) -> usize
        requires band { IsBand self.now }
        requires square { IsSquare self.now.depth self.now.axis cell.now }
        requires cell { cell.now.height ≡ 0 }
        requires shown { crosses self.now cell.now ≡ true }
        ensures value { result ≡ (self.now.high - cell.now.row) * 2 ^ self.now.depth + cell.now.column }
        ensures within { result < band_size self.now }
    {
        (self.high - cell.row) as usize * self.width() + cell.column as usize
    }
}
