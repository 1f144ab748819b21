//! The memory that a build works in.
#![tactic(auto)]

mod buffers;
mod elements;
mod planning;
mod queues;
mod rooms;

pub use buffers::{Fixed, Reserved};
pub use elements::{Parcel, VertexBlock};
pub use planning::{MemPlan, PlanFault, plan};
pub use queues::{QueueEntry, Queues};
pub use rooms::Room;
