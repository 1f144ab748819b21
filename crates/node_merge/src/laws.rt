//! Laws of maps put together. Each function does nothing: a call gives its `ensures`.

ghost use Rattle.node_merge.specs.Laws.{PiecesJoin};

/// A mesh may be built in pieces. Each piece has all vertices and a run of the mesh's faces, and in
/// place of each face of another piece one that touches no cell, so that faces keep their numbers. The
/// union of the pieces' files, in the order of their runs and in any grouping, is the file of the mesh.
pub fn pieces_join_to_their_mesh()
    ensures { PiecesJoin }
{}
