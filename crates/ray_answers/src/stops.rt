//! Why the answers to the lines of a text end before their end.

ghost use Rattle.std.specs.Prelude.{◌≡◌};
ghost use Rattle.ray_answers.specs.LineMeanings.{stop_of_fault};

use near_query::NearFault;
use node_check::WalkFault;
use thiserror::Error;

/// What is wrong with a line, and the place of its first byte.
#[derive(Clone, Copy, Debug, Drop, Error, PartialEq, Eq)]
pub enum LineFault {
    /// It has words, and they are not the six whole numbers of a ray, of at most 18 digits each.
    #[error("no ray at {0}")]
    BadRay(u64),
    /// It has words, and they are not the three whole numbers of a point, of at most 18 digits each.
    #[error("no point at {0}")]
    BadPoint(u64),
    /// More than 1024 bytes stand before its end.
    #[error("line too long at {0}")]
    LineTooLong(u64),
    /// The text goes on past 2^62 bytes, which is this place.
    #[error("text too long at {0}")]
    TooLong(u64),
    /// Its numbers break a limit of rays.
    #[error("ray out of range at {0}")]
    RayRange(u64),
    /// One of its numbers breaks the limit of points.
    #[error("point out of range at {0}")]
    PointRange(u64),
}

/// Why the answers to the lines of a text end before their end.
#[derive(Clone, Copy, Debug, Drop, Error, PartialEq, Eq)]
pub enum LineStop {
    /// A line is not answered.
    #[error("line not answered")]
    AtLine(LineFault),
    /// The input did not give a byte.
    #[error("input not read")]
    ReadFault,
    /// The output did not take the answers.
    #[error("not written")]
    WriteFault,
    /// The file was not read on.
    #[error("file not read")]
    Walk(WalkFault),
    /// There is no memory for the search of a nearest cell.
    #[error("out of memory")]
    Memory,
}

/// How the answers end where a query is not answered so.
pub fn stop_of_fault(fault: NearFault) -> LineStop
    ensures { result ≡ stop_of_fault fault }
{
    match fault {
        NearFault::Walk(fault) => LineStop::Walk(fault),
        NearFault::Memory => LineStop::Memory,
    }
}
