//! The memory of a build, taken at its start.

ghost use Rattle.std.specs.Prelude.{IfOk};
ghost use Rattle.room_plan.specs.Planning.{IsValid};
ghost use Rattle.room_plan.specs.Rooms.{HasRoomOf};

use crate::buffers::{Fixed, Reserved};
use crate::elements::{Parcel, VertexBlock};
use crate::planning::MemPlan;
use crate::queues::QueueEntry;
use std::alloc::{AllocError, Global};

/// How many bytes a block has.
const BLOCK_SIZE: usize = 4096;

/// How many queue entries each level has.
const ENTRIES: usize = 8;

const NO_VERTICES: VertexBlock = VertexBlock {
    number: 0,
    count: 0,
    numbers: [0; 189],
};

const NO_PARCEL: Parcel = Parcel {
    corners: [0; 9],
    face: 0,
    part: 0,
};

const NO_ENTRY: QueueEntry = QueueEntry { word: 0, state: 0 };

/// All buffers of a build. What they hold at first has no meaning.
#[derive(Drop)]
pub struct Room {
    pub block_a: Fixed<u8>,
    pub block_b: Fixed<u8>,
    pub window: Reserved<VertexBlock>,
    pub pool: Reserved<Parcel>,
    pub queues: Fixed<QueueEntry>,
    pub slots: Fixed<u32>,
}

impl Room {
    /// The buffers of a plan, each asked for once and with just its length.
    ///
    /// # Errors
    ///
    /// `AllocError`: memory for one of them was refused.
    pub fn make(alloc: Global, plan: &MemPlan) -> Result<Room, AllocError>
        requires { IsValid plan.now }
        ensures { IfOk result (HasRoomOf plan.now) }
    {
        Ok(Room {
            block_a: Fixed::filled(alloc, 0, BLOCK_SIZE)?,
            block_b: Fixed::filled(alloc, 0, BLOCK_SIZE)?,
            window: Reserved::blank(alloc, NO_VERTICES, plan.window as usize)?,
            pool: Reserved::blank(alloc, NO_PARCEL, plan.pool as usize)?,
            queues: Fixed::filled(alloc, NO_ENTRY, ENTRIES * plan.depth as usize)?,
            slots: Fixed::filled(alloc, 0, plan.slots as usize)?,
        })
    }
}
