//! Laws of parcels on scratch. Each function does nothing: a call gives its `ensures`.

ghost use Rattle.tri_partition.specs.Laws.{SpillsInSteps, PartsAreSpilled, SecondPartsAreSpilled, ReadsBack, ReadsBehind};

/// Parcels that are appended in two steps are appended in all.
pub fn parcels_are_spilled_in_steps()
    ensures { SpillsInSteps }
{}

/// Where all parcels of triangles were appended, each part's stream has grown by the parcels of the
/// triangles that reach the part, and all other streams stayed.
pub fn parts_are_spilled()
    ensures { PartsAreSpilled }
{}

/// Where the triangles that reach a node of level 4 were spilled again, the stream of each part under the
/// node has grown by the parcels of all triangles that reach the part, and all other streams stayed.
pub fn second_parts_are_spilled()
    ensures { SecondPartsAreSpilled }
{}

/// A stream that was empty holds the parcels that it grew by, and these are read back from it.
pub fn spilled_parcels_are_read_back()
    ensures { ReadsBack }
{}

/// Parcels that a stream grew by behind what it had are read back from where that ended.
pub fn parcels_behind_a_mark_are_read_back()
    ensures { ReadsBehind }
{}
