//! Why an answer that is put out ends before its end.

ghost use Rattle.std.specs.Prelude.{◌≡◌};
ghost use Rattle.node_check.specs.declared.stops.AnswerStop.TheVariants.{Walk};

use crate::walking::WalkFault;
use thiserror::Error;

/// Why an answer that is put out ends before its end.
#[derive(Clone, Copy, Debug, Drop, Error, PartialEq, Eq)]
pub enum AnswerStop {
    /// The output did not take it.
    #[error("not written")]
    WriteFault,
    /// The file was not read on.
    #[error("not read")]
    Walk(WalkFault),
}

impl From<WalkFault> for AnswerStop {
    ghost from_gives = { λ fault e. e ≡ Walk fault };

    fn from(fault: WalkFault) -> AnswerStop {
        AnswerStop::Walk(fault)
    }
}
