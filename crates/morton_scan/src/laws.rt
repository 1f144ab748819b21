//! Laws of slots. Each function does nothing: a call gives its `ensures`.

ghost use Rattle.morton_scan.specs.FilledParts.{FillsFromParcels, GrowsByTriangles};

/// Slots that are cleared, and into which one triangle after another is filled with its face, are
/// those that all of them give.
pub fn slots_grow_by_triangles()
    ensures { GrowsByTriangles }
{}

/// The slots of a part that its parcels give, in any order, are those that all triangles give.
pub fn parcels_fill_their_slots()
    ensures { FillsFromParcels }
{}
