//! The solid cells of a mesh: those whose centres have an odd number of triangles above them, after
//! Schwarz and Seidel (2010). What is solid, and which triangles a part needs for it, is said in
//! `specs/`; here are the slots of a part's solid cells, filled from the part's stream of parcels, the
//! parts that need a triangle, the plan of memory, and laws.
#![tactic(auto)]

mod columns;
mod filling;
mod heights;
mod laws;
mod notes;
mod part_boxes;
mod planning;
mod prepared;
mod seen;
mod settling;
mod spans;

pub use columns::PartColumns;
pub use filling::{fill_solid_part, fill_solid_slots};
pub use laws::{parity_agrees_from_below, parts_need_their_columns, solid_cells_grow_one_by_one};
pub use notes::note_column;
pub use part_boxes::{PartBox, column_parts};
pub use planning::solid_plan;
pub use prepared::Shape;
