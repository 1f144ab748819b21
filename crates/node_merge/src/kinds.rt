//! How two maps are put together.

ghost use Rattle.std.specs.Prelude.{◌≡◌};
ghost use Rattle.node_merge.specs.Combined.{face_in};

/// How the cells of two files are put together.
#[derive(Clone, Copy, Debug, PartialEq, Eq)]
pub enum MergeKind {
    /// The cells of either, with the first one's face where it has the cell.
    Union,
    /// The cells that both have, with the first one's faces.
    Both,
    /// The cells of the first that the second has not.
    Minus,
}

/// The face of a cell that has these faces in the two maps.
pub fn chosen(kind: MergeKind, first: Option<u32>, second: Option<u32>) -> Option<u32>
    ensures { result ≡ face_in kind first second }
{
    match kind {
        MergeKind::Union => first.or(second),
        MergeKind::Both => match second {
            Some(_) => first,
            None => None,
        },
        MergeKind::Minus => match second {
            Some(_) => None,
            None => first,
        },
    }
}
