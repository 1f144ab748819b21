//! The triangles of a mesh by the parts of a grid that their boxes reach, on scratch.
#![tactic(auto)]

mod laws;
mod part_ranges;
mod partition;
mod pieces;
mod pool;
mod reader;
mod second;
mod waiting;

pub use laws::{
    parcels_are_spilled_in_steps, parcels_behind_a_mark_are_read_back, parts_are_spilled,
    second_parts_are_spilled, spilled_parcels_are_read_back,
};
pub use part_ranges::{PartRange, reached_parts};
pub use partition::Partition;
pub use reader::PartReader;
pub use second::SecondPartition;
