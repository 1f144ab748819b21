//! Lists of the filled cells of a node file, and its file of format 2.
#![tactic(auto)]

mod lifting;
mod lines;
mod listing;
mod pushing;

pub use lifting::lift;
pub use listing::list_cells;
