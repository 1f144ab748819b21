//! Two node files put together into one, and a node file with fewer levels.
#![tactic(auto)]

mod coarse_pushing;
mod coarsening;
mod file_merging;
mod fronts;
mod gathering;
mod halves;
mod kinds;
mod laws;
mod merging;
mod pair_checking;
mod pair_loading;
mod pairs;
mod sides;
#[cfg(test)]
mod test_files;
#[cfg(test)]
mod tests;
mod turning;

pub use coarsening::coarsen;
pub use file_merging::merge;
pub use kinds::MergeKind;
pub use laws::pieces_join_to_their_mesh;
pub use pair_checking::check_file;
pub use pair_loading::{Frames, PairFault, read_frames};
pub use pairs::{Pair, Turn, UnloadedPair};
pub use sides::Side;
