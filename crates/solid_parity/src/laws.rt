//! Laws of solid cells. Each function does nothing: a call gives its `ensures`.

ghost use Rattle.solid_parity.specs.Laws.{AgreeFromBelow, SolidCellsGrow};
ghost use Rattle.solid_parity.specs.PartLaws.{PartsNeedTheirColumns};

/// Where each edge stands an even number of times among the edges of all triangles, as in a closed
/// mesh, each column goes through an even number of triangles. So a cell is solid exactly where an
/// odd number of triangles covers its column and is not above its centre.
pub fn parity_agrees_from_below()
    ensures { AgreeFromBelow }
{}

/// The solid cells below a bound grow by the cell at the bound where it is solid.
pub fn solid_cells_grow_one_by_one()
    ensures { SolidCellsGrow }
{}

/// A triangle that is over a cell is one that the cell's part needs. So the slots that the parcels of a
/// part give, in any order, are those of all triangles.
pub fn parts_need_their_columns()
    ensures { PartsNeedTheirColumns }
{}
