//! What the buffers of a build are made of.

/// A triangle on its way to a part: the coordinates of its corners (x, y, z of the first, then of the
/// second and the third), the number of its face, and the part. It takes 44 bytes.
#[derive(Clone, Copy, Debug, PartialEq, Eq)]
pub struct Parcel {
    pub corners: [i32; 9],
    pub face: u32,
    pub part: u32,
}

/// Up to 63 points of a mesh that stand one after another: the number of the block, how many points
/// it has, and their coordinates (x, y, z of the first, then of the second, and so on). It takes 768
/// bytes.
#[derive(Clone, Copy)]
pub struct VertexBlock {
    pub number: u64,
    pub count: u32,
    pub numbers: [i32; 189],
}
