//! Laws of made texts. Each function does nothing: a call gives its `ensures`.

ghost use Rattle.mesh_maker.specs.Laws.{MeanMadeMeshes, CountMadeMeshes};

/// A made text is a mesh text, with no decimals: its points are the made vertices, and each face gives
/// two triangles with the number of the face.
pub fn made_texts_mean_their_mesh()
    ensures { MeanMadeMeshes }
{}

/// A made mesh has `(side + 1)^2` points and two triangles for each of its `side^2` faces.
pub fn made_meshes_are_counted()
    ensures { CountMadeMeshes }
{}
