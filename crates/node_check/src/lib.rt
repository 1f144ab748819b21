//! Node files are checked, and asked for cells and faces.
#![tactic(auto)]

mod checking;
mod cursor;
mod following;
mod paths;
mod queries;
mod siblings;
mod stops;
mod walking;

pub use checking::{CheckFault, check};
pub use cursor::{CellWalk, FacedCell};
pub use following::next_cell;
pub use queries::{face_of, has};
pub use stops::AnswerStop;
pub use walking::{Node, WalkFault, child_at, has_bit, root};
