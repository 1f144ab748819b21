//! The words of a node file, read by blocks of which those last used are kept.
#![tactic(auto)]

mod kept_blocks;
mod reading;

pub use kept_blocks::BlockCache;
pub use reading::Blocks;
