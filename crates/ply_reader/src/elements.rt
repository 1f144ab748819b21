//! The elements of a mesh text.

/// What an element is to the mesh.
#[derive(Clone, Copy, Debug, PartialEq, Eq, Default)]
pub enum Role {
    Vertex,
    Face,
    /// Nothing: it is passed.
    #[default]
    Other,
}

/// An element as it was declared.
#[derive(Clone, Copy, Debug, PartialEq, Eq, Default)]
pub struct Element {
    /// How often it stands in the text.
    pub count: u64,
    /// The number, in the whole header, of its first property.
    pub first: usize,
    /// How many properties it has.
    pub properties: usize,
    /// What it is to the mesh.
    pub role: Role,
}
