//! The squares that nodes take up in a slice.

ghost use Rattle.std.specs.Prelude.{◌≡◌, ◌+◌, ◌-◌, ◌*◌, ◌/◌, ◌%◌, ◌^◌, ◌<◌, ◌≤◌};
ghost use Rattle.svo_base.specs.declared.grids.TheConstants.{MAX_DEPTH};
ghost use Rattle.slice_view.specs.Bands.{IsSquare};

use crate::axes::Axis;

/// A node, so many levels above the cells: its Morton code, and its places among the nodes of its
/// height, across the slice and along the slice's columns and rows.
#[derive(Clone, Copy)]
pub struct Square {
    pub height: u32,
    pub code: u64,
    pub layer: u32,
    pub column: u32,
    pub row: u32,
}

impl Square {
    /// The root of an octree of this depth.
    pub fn root(axis: Axis, depth: u32) -> Square
        ensures square { IsSquare depth axis result }
        ensures height { result.height ≡ depth }
        ensures code { result.code ≡ 0 }
    {
        Square {
            height: depth,
            code: 0,
            layer: 0,
            column: 0,
            row: 0,
        }
    }

    /// The child at a place.
    pub fn child(&self, axis: Axis, depth: u32, place: u64) -> Square
        requires square { IsSquare depth axis self.now }
        requires depth { depth ≤ MAX_DEPTH }
        requires above { 1 ≤ self.now.height }
        requires place { place < 8 }
        ensures square { IsSquare depth axis result }
        ensures height { result.height ≡ self.now.height - 1 }
        ensures code { result.code ≡ 8 * self.now.code + place }
    {
        Square {
            height: self.height - 1,
            code: 8 * self.code + place,
            layer: half(self.layer, place, axis.number()),
            column: half(self.column, place, axis.of_columns()),
            row: half(self.row, place, axis.of_rows()),
        }
    }
}

/// A child's place along an axis, of its parent's.
fn half(parent: u32, place: u64, axis: u32) -> u32
    requires parent { parent < 2 ^ MAX_DEPTH }
    requires axis { axis < 3 }
    ensures { result ≡ 2 * parent + place / 2 ^ axis % 2 }
{
    2 * parent + ((place >> axis) % 2) as u32
}
