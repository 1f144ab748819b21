//! Laws of octrees and of node files.
#![tactic(auto)]

mod laws;

pub use laws::{
    files_are_no_fronts, node_files_are_accepted, sets_have_format_one, words_lead_to_cells,
    words_stand_for_one,
};
