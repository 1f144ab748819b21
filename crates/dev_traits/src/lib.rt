//! The devices that the program reads from and writes to, as traits whose contracts say what a call
//! does to the bytes and when it may refuse, and devices in memory for tests and made input.
//!
//! Bytes come from a source and go to a sink; a scratch has streams that grow and are read back; a
//! store has node files with names.
#![tactic(auto)]

mod asking;
mod device;
mod failing;
mod file_device;
mod memory_scratch;
mod memory_sink;
mod memory_source;
mod memory_store;
mod stored_files;
mod stream_device;

pub use asking::Asking;
pub use device::{ByteSink, ByteSource, Failed};
pub use failing::PartFail;
pub use file_device::NodeStore;
pub use memory_scratch::MemScratch;
pub use memory_sink::MemSink;
pub use memory_source::MemSource;
pub use memory_store::MemStore;
pub use stream_device::Scratch;
