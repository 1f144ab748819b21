//! What a search for the nearest cell answers.

ghost use Rattle.std.specs.Prelude.{◌≡◌};
ghost use Rattle.near_query.specs.declared.cells.NearFault.TheVariants.{Walk, Memory};

use node_check::WalkFault;
use std::alloc::AllocError;
use thiserror::Error;

/// The filled cell nearest to a point: the square of the distance from the point to the cell's closed
/// cube, 0 where the point is in it, and the cell's Morton code.
#[derive(Clone, Copy, Debug, PartialEq, Eq)]
pub struct NearCell {
    pub distance: u128,
    pub code: u64,
}

/// Why the nearest cell is not answered.
#[derive(Clone, Copy, Debug, Drop, Error, PartialEq, Eq)]
pub enum NearFault {
    /// The file was not read on.
    #[error("file not read")]
    Walk(WalkFault),
    /// There is no memory for the nodes that wait to be read.
    #[error("out of memory")]
    Memory,
}

impl From<WalkFault> for NearFault {
    ghost from_gives = { λ fault e. e ≡ Walk fault };

    fn from(fault: WalkFault) -> NearFault {
        NearFault::Walk(fault)
    }
}

impl From<AllocError> for NearFault {
    ghost from_gives = { λ _ e. e ≡ Memory };

    fn from(_fault: AllocError) -> NearFault {
        NearFault::Memory
    }
}
