//! What mesh texts mean for octrees: the triangles of a mesh, each with the number of its face, and that
//! a text in the plain form means the mesh that it spells.
#![tactic(auto)]

mod laws;

pub use laws::plain_texts_mean_their_mesh;
