//! The vertices of a mesh on scratch, read back by number through a window of blocks.
#![tactic(auto)]

mod blocks;
mod spooling;
mod waiting;

pub use spooling::Spool;
