//! Why a mesh text is refused.

/// What is wrong with a mesh text.
#[derive(Clone, Copy, Debug, PartialEq, Eq)]
pub enum PlyKind {
    /// The first line is not the one word `ply`.
    NotPly,
    /// The format is not `ascii 1.0`, or is not said once before all elements.
    BadFormat,
    /// A header line is not in its form.
    BadHeader,
    /// There are more than 16 elements or 128 properties, or more vertices or faces than 4,294,967,295.
    HeaderTooLarge,
    /// There is no element `vertex` with `x`, `y` and `z`.
    NoVertexElement,
    /// There is no element `face` with a list of vertex indices.
    NoFaceElement,
    /// The element `face` is declared before `vertex`.
    FaceFirst,
    /// A header line has more than 1024 bytes.
    LineTooLong,
    /// The text ends where a header line or a token has to follow.
    Truncated,
    /// A coordinate is no decimal number.
    BadNumber,
    /// A coordinate is not whole at the scale, and cutting was not asked for.
    NotWhole,
    /// The size of a coordinate is above 2^30.
    OutOfRange,
    /// The count of a list is no whole number in its range.
    BadCount,
    /// A corner of a face is not the number of a vertex.
    BadIndex,
    /// A token has more than 255 bytes.
    TokenTooLong,
    /// Something other than white space follows the last element.
    TrailingData,
    /// The text goes on beyond 2^62 bytes.
    TooLong,
}

/// Why a mesh was not read.
#[derive(Clone, Copy, Debug, PartialEq, Eq)]
pub enum PlyFault {
    /// The text is refused, at a place that is counted in bytes from its start.
    Refused { kind: PlyKind, place: u64 },
    /// The source refused a read.
    ReadFault,
}
