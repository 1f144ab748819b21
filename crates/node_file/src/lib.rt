//! Node files: their bytes, and their words by number.
#![tactic(auto)]

mod blocks;
mod framing;
mod layout;
mod lent_words;
mod loading;
mod records;
mod stored;
mod writer;

pub use blocks::{append, put_front};
pub use framing::{read_format, read_header, read_trailer};
pub use layout::{header_bytes, trailer_bytes};
pub use lent_words::LentWords;
pub use loading::{Frame, LoadFault};
pub use records::{Records, Totals};
pub use stored::{Nodes, Unloaded};
pub use writer::NodeWriter;
