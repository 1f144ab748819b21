//! The cells of one part of a grid that triangles meet: each has a slot, which keeps the least face
//! that meets it. A triangle is filled in by walking down the octree's nodes below the part (Laine,
//! Karras 2010; Schwarz, Seidel 2010).
#![tactic(auto)]

mod box_filling;
mod cell_boxes;
mod cells;
mod filling;
mod laws;
mod narrowing;
mod nodes;
mod octants;
mod part_slots;
mod parts;
mod put;
mod reaching;

pub use cells::{FilledCell, next_code};
pub use filling::fill_triangle;
pub use laws::{parcels_fill_their_slots, slots_grow_by_triangles};
pub use part_slots::PartSlots;
pub use parts::fill_part;
