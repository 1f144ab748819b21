//! The parts of a mesh text in ASCII PLY ("The PLY Polygon File Format", Greg Turk, Stanford, 1994):
//! its lines and tokens, and the numbers that tokens write.
#![tactic(auto)]

mod fault;
mod numbers;
mod numerals;
mod run;
mod sizes;
mod tokens;
mod wholes;

pub use fault::TextFault;
pub use numbers::{NumberFault, one_numeral, one_reading, read_fixed};
pub use tokens::{Line, Token, Tokens, without_return};
pub use wholes::read_whole;
