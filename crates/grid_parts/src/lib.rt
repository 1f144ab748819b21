//! Laws of the parts of a grid, each of which is filled by itself: what a part's triangles are, and
//! that the cells of a mesh are the cells of its parts, one part after another.
#![tactic(auto)]

mod laws;

pub use laws::{
    cells_grow_slot_by_slot, filled_cells_are_one_list, met_cells_lie_in_reached_parts,
    parcels_fill_their_part,
};
