//! The properties of an element.

/// A type of single values.
#[derive(Clone, Copy, Debug, PartialEq, Eq, Default)]
pub enum Scalar {
    #[default]
    Int8,
    UInt8,
    Int16,
    UInt16,
    Int32,
    UInt32,
    Float32,
    Float64,
}

/// What a property is to the mesh.
#[derive(Clone, Copy, Debug, PartialEq, Eq, Default)]
pub enum Part {
    /// A coordinate of a vertex.
    X,
    Y,
    Z,
    /// The vertex numbers of a face's corners.
    Indices,
    /// Nothing: it is passed unread.
    #[default]
    Other,
}

/// A property as it was declared.
#[derive(Clone, Copy, Debug, PartialEq, Eq, Default)]
pub struct Property {
    /// The type of a list's count; `None` where the property is one value.
    pub counts: Option<Scalar>,
    /// The type of the value, or of the list's values.
    pub values: Scalar,
    /// What it is to the mesh.
    pub part: Part,
}
