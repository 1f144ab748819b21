//! Reads binary little-endian PLY ("The PLY Polygon File Format", Greg Turk, Stanford, 1994) as ASCII
//! PLY: a source over another source, which gives an ASCII text as it is, and rewrites a binary one.
#![tactic(auto)]

mod body;
mod held;
mod lines;
mod reading;
mod rewriting;
mod source;
mod values;
mod waiting;

pub use held::HeldInput;
pub use reading::{AsciiReading, Start};
pub use source::AsciiSource;
