//! Laws of nearest cells. Each function does nothing: a call gives its `ensures`.

ghost use Rattle.near_query.specs.Laws.{HaveOneNearest};

/// A point, a grid and some cells have one nearest cell at most.
pub fn nearest_cells_are_one()
    ensures { HaveOneNearest }
{}
