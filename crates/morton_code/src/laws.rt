//! Laws of codes and of the cubes that they stand for. Each function does nothing: a call
//! gives its `ensures`.

ghost use Rattle.morton_code.specs.Laws.{NamesParent, HalvesCoordinates, IgnoresLeadingZeros, AreRanges, AreInOrder, CoverParent, MeetTogether, HaveOneList};

/// A code names its parent and its place among its siblings.
pub fn codes_name_parents()
    ensures { NamesParent }
{}

/// A parent has half the coordinates of its children.
pub fn parents_halve_coordinates()
    ensures { HalvesCoordinates }
{}

/// A code of few digits is also the code of more digits, of which the first ones are 0.
pub fn leading_zeros_change_nothing()
    ensures { IgnoresLeadingZeros }
{}

/// The codes under a node are a range.
pub fn nodes_are_ranges()
    ensures { AreRanges }
{}

/// The codes under the children of one parent lie in the order of the children.
pub fn children_are_in_order()
    ensures { AreInOrder }
{}

/// The cubes of eight children lie in their parent's, and cover it.
pub fn children_cover_their_parent()
    ensures { CoverParent }
{}

/// A triangle meets a node exactly where it meets one of the children.
pub fn children_are_met_with_their_parent()
    ensures { MeetTogether }
{}

/// A grid and triangles have one list of filled cells, and so one node file.
pub fn filled_cells_are_one_list()
    ensures { HaveOneList }
{}
