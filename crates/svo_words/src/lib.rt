//! From the words of a command line to a command.
#![tactic(auto)]

mod build;
mod choices;
mod combining;
mod commands;
mod form_test;
mod kinds;
mod laws;
mod made;
mod matching;
mod nodes;
mod numbers;
mod pictures;
mod values;
mod why;

pub use build::BuildWords;
pub use combining::{CoarseWords, MergeWords};
pub use commands::{Command, WordFault, read_words};
pub use kinds::{AxisWord, KindWord, MergeWord, Text};
pub use laws::{one_grid, one_meaning, one_spelling};
pub use made::{MakeWords, SumWords};
pub use nodes::{CastWords, CellsWords, CheckWords, HasWords, LiftWords, NearWords};
pub use pictures::{SliceWords, ViewWords};
pub use why::WhyWords;
