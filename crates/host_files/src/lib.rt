//! The devices of the host: the standard streams, a folder of streams, and files with names.
//!
//! They tell contracts nothing of their contents, and count each fault of the host: an error of the
//! system, whatever its kind; a write that takes nothing of what is left; the end of a file within a
//! piece that is read. The count stays at 2^64 - 1. Each turn of a loop moves a byte or ends the call,
//! and no call takes memory.
#![tactic(auto)]

mod faults;
mod file_store;
mod folder_scratch;
mod made_streams;
mod stream_files;
mod streams;
mod transfers;

pub use file_store::FileStore;
pub use folder_scratch::FolderScratch;
pub use streams::{HostErrors, HostInput, HostOutput};

#[cfg(test)]
mod tests;
