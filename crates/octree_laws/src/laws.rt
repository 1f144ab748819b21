//! Laws of the words and the files of octrees. Each function does nothing: a call gives its `ensures`.

ghost use Rattle.octree_laws.specs.Laws.{LeadToCells, StandForOne, AreAcceptedExactly, AreNoFronts, SetsHaveFormatOne};

/// The words of a file lead from its root to its cells: a node's word has a bit for each nonempty
/// child, and the word of the k-th of these, from 0, has the number `base + k`, which is below the
/// node's own.
pub fn words_lead_to_cells()
    ensures { LeadToCells }
{}

/// Words stand for at most one list of cells, and bytes are the file of at most one.
pub fn words_stand_for_one()
    ensures { StandForOne }
{}

/// The checker refuses no number of a framed file exactly where the file is a node file: its words
/// stand for some cells, as many as its trailer says.
pub fn node_files_are_accepted()
    ensures { AreAcceptedExactly }
{}

/// No node file is a proper front of another.
pub fn files_are_no_fronts()
    ensures { AreNoFronts }
{}

/// The file of a set of codes is that of format 1 of its cells.
pub fn sets_have_format_one()
    ensures { SetsHaveFormatOne }
{}
