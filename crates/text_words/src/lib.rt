//! The words of a line of text, and the whole numbers that words write. Command lines and all texts
//! that are read by lines stand on it.
#![tactic(auto)]

mod numbers;
mod words;

pub use numbers::{number, three_numbers};
pub use words::{line_words, next_word};

#[cfg(test)]
mod tests;
