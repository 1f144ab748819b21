//! Rays and points that are read from a text, asked of an octree, and answered line by line.
#![tactic(auto)]

mod answer_line;
mod answering;
mod answers;
mod hits;
mod laws;
mod lines;
mod neighbours;
mod queries;
mod stops;
mod waiting;

pub use answering::answer_text;
pub use laws::{answers_are_one, fronts_are_of_all_answers};
pub use queries::QueryKind;
pub use stops::{LineFault, LineStop};
