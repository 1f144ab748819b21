//! Laws of parts. Each function does nothing: a call gives its `ensures`.

ghost use Rattle.grid_parts.specs.Laws.{LiesInPart, FillsPart, GrowsBySlots, HaveOneFill};

/// A triangle that meets a cell has a box that reaches the part in which the cell lies.
pub fn met_cells_lie_in_reached_parts()
    ensures { LiesInPart }
{}

/// What a cell's slot keeps is the same for all triangles and for the parcels of its part alone, in
/// whatever order.
pub fn parcels_fill_their_part()
    ensures { FillsPart }
{}

/// The filled cells below a bound grow by the cell at the bound, as its slot says.
pub fn cells_grow_slot_by_slot()
    ensures { GrowsBySlots }
{}

/// A grid and triangles with faces have one list of filled cells, and so one node file.
pub fn filled_cells_are_one_list()
    ensures { HaveOneFill }
{}
