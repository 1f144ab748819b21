//! Plain shapes in whole-number coordinates.

/// A point of a mesh, in whole units.
#[derive(Clone, Copy, Debug, PartialEq, Eq)]
pub struct Point {
    pub x: i32,
    pub y: i32,
    pub z: i32,
}

/// A closed triangle: its corners, its sides and what lies between. Corners may coincide.
#[derive(Clone, Copy, Debug, PartialEq, Eq)]
pub struct Triangle {
    pub a: Point,
    pub b: Point,
    pub c: Point,
}

/// A closed cube: all points from `lo` to `hi` on each of the axes x, y, z, both planes included. The
/// planes are in the units of the mesh.
#[derive(Clone, Copy, Debug, PartialEq, Eq)]
pub struct Cube {
    pub lo: [i64; 3],
    pub hi: [i64; 3],
}

/// Three whole numbers: a direction, or the weights of a triangle's corners.
#[derive(Clone, Copy, Debug, PartialEq, Eq)]
pub struct Vector {
    pub x: i128,
    pub y: i128,
    pub z: i128,
}
