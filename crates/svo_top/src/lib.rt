//! The whole program as one call, `run`, over devices that it is handed.
#![tactic(auto)]

mod building;
mod checking;
mod coarsening;
mod explaining;
mod file_commands;
mod file_question;
mod input_lines;
mod jobs;
mod laws;
mod lifting;
mod making;
mod membership;
mod merging;
mod nowhere;
mod open_file;
mod outcome;
mod picturing;
mod putting;
mod reporting;
mod running;
mod summing;
mod why_question;

pub use laws::answers_are_one;
pub use outcome::{Device, InputKind, NodeRefusal, RangeFault, Status, UsageKind};
pub use running::run;
