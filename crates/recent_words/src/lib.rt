//! The words of a node file that were read lately, remembered by their numbers.
#![tactic(auto)]

mod reading;
mod table;

pub use reading::RecentWords;
