//! Laws of mesh texts. Each function does nothing: a call gives its `ensures`.

ghost use Rattle.mesh_laws.specs.Laws.{MeanTheirMesh};

/// A text in the plain form means the mesh that it spells, whether or not decimals are cut: its points
/// are the vertices, and its triangles those of the faces, each with the number of its face.
pub fn plain_texts_mean_their_mesh()
    ensures { MeanTheirMesh }
{}
