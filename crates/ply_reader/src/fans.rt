//! The triangles of a face.

/// A triangle of a face.
#[derive(Clone, Copy, Debug, PartialEq, Eq)]
pub struct FaceTriangle {
    /// The number of the face, counted from 0.
    pub face: u32,
    /// The numbers of its corners, counted from 0 in the order of the vertices.
    pub corners: [u32; 3],
}

/// A face whose corners are being read: each further one makes a triangle with the first one and the
/// one before it.
#[derive(Clone, Copy, Debug, PartialEq, Eq)]
pub(crate) struct Fan {
    pub(crate) first: u32,
    pub(crate) last: u32,
    /// How many corners are still to come.
    pub(crate) left: u64,
}
