//! Why a build stopped.

use dev_traits::Failed;
use ply_reader::{PlyFault, PlyKind};
use thiserror::Error;

/// Why a build stopped.
#[derive(Clone, Copy, Debug, Drop, Error, PartialEq, Eq)]
pub enum BuildFault {
    /// The text is refused, at a place that is counted in bytes from its start.
    #[error("the text is refused")]
    Input { kind: PlyKind, place: u64 },
    /// The source refused a read.
    #[error("a read of the text failed")]
    ReadFault,
    /// The scratch refused a call.
    #[error("the scratch failed")]
    ScratchFault,
    /// The sink refused a put.
    #[error("a write failed")]
    WriteFault,
}

/// Why cells were not put out.
#[derive(Clone, Copy, Debug, PartialEq, Eq)]
pub enum NodesFault {
    /// The scratch refused a call.
    Scratch,
    /// The sink refused a put.
    Sink,
}

/// Why a mesh was not put on scratch.
#[derive(Clone, Copy, Debug, PartialEq, Eq)]
pub enum SpillFault {
    /// The text is refused, or the source refused a read.
    Text(PlyFault),
    /// The scratch refused a call.
    Scratch,
}

impl From<PlyFault> for SpillFault {
    ghost use Rattle.std.specs.Prelude.{◌≡◌};
    ghost use Rattle.build_core.specs.declared.faults.SpillFault.TheVariants.{Text};

    ghost from_gives = { λ fault e. e ≡ Text fault };

    fn from(fault: PlyFault) -> SpillFault {
        SpillFault::Text(fault)
    }
}

impl From<Failed> for SpillFault {
    ghost use Rattle.std.specs.Prelude.{◌≡◌};
    ghost use Rattle.build_core.specs.declared.faults.SpillFault.TheVariants.{Scratch};

    ghost from_gives = { λ _ e. e ≡ Scratch };

    fn from(_error: Failed) -> SpillFault {
        SpillFault::Scratch
    }
}

impl From<SpillFault> for BuildFault {
    ghost use Rattle.std.specs.Prelude.{◌≡◌};
    ghost use Rattle.build_core.specs.Building.{spill_fault};

    ghost from_gives = { λ stop e. e ≡ spill_fault stop };

    fn from(stop: SpillFault) -> BuildFault {
        match stop {
            SpillFault::Text(PlyFault::Refused { kind, place }) => BuildFault::Input {
                kind,
                place,
            },
            SpillFault::Text(PlyFault::ReadFault) => BuildFault::ReadFault,
            SpillFault::Scratch => BuildFault::ScratchFault,
        }
    }
}

impl From<NodesFault> for BuildFault {
    ghost use Rattle.std.specs.Prelude.{◌≡◌};
    ghost use Rattle.build_core.specs.Building.{nodes_fault};

    ghost from_gives = { λ stop e. e ≡ nodes_fault stop };

    fn from(stop: NodesFault) -> BuildFault {
        match stop {
            NodesFault::Scratch => BuildFault::ScratchFault,
            NodesFault::Sink => BuildFault::WriteFault,
        }
    }
}
