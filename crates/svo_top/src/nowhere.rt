//! A sink that forgets what it is given.

ghost use Rattle.std.specs.Prelude.{None};

use dev_traits::{ByteSink, Failed};

/// Takes every byte and keeps none. It never fails.
#[derive(Drop)]
pub struct Nowhere;

impl ByteSink for Nowhere {
    ghost written = { λ _. None };

    ghost faults = { λ _. 0 };

    fn put(&mut self, _piece: &[u8]) -> Result<(), Failed> {
        Ok(())
    }
}
