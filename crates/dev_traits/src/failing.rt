//! The calls that a device in memory is set to refuse.

ghost use Rattle.std.specs.Prelude.{◌≡◌};
ghost use Rattle.dev_traits.specs.Failing.{planned, taken_of};

/// A call that is refused, counted from 1, and how many bytes of its piece are taken first.
#[derive(Clone, Copy, Debug, PartialEq, Eq)]
pub struct PartFail {
    /// Which call, counted from 1. Of two entries for a call the first counts.
    pub call: u64,
    /// How many bytes of its piece are taken, where it has one.
    pub taken: u64,
}

/// The first entry for a call.
pub fn planned(fails: &[PartFail], call: u64) -> Option<PartFail>
    ensures { result ≡ planned fails.now call }
{
    fails.iter().copied().find(|fail| fail.call == call)
}

/// How many bytes a call takes, of those for which there is room.
pub fn taken(planned: Option<PartFail>, fits: usize) -> usize
    ensures { result ≡ taken_of planned fits }
{
    match planned {
        Some(fail) => fail.taken.min(fits as u64) as usize,
        None => fits,
    }
}
