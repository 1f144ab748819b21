//! What a store of node files is.

ghost use Rattle.std.specs.Prelude.{◌≡◌, ℕ, Option, List, length, IsSome};
ghost use Rattle.dev_traits.specs.Faults.{HasCause};
ghost use Rattle.dev_traits.specs.Files.{NamedFile, current_bytes, IsHeld, HasFile, Selects, HasBytes, ReadsBytes, IsFileLength};

use crate::device::Failed;

/// Where node files are read from: files with names, which no call changes.
pub trait NodeStore {
    /// The files, where the store tells them.
    ghost files: { Self → Option (List NamedFile) };

    /// The name of the current file, if one is current. Only `select` changes it.
    ghost current: { Self → Option (List ℕ) };

    /// The faults so far. The count never falls; at 2^64 - 1, the last value of a counter of 64 bits,
    /// it may stay while faults go on.
    ghost faults: { Self → ℕ };

    /// Whether a file has the name.
    fn holds(&mut self, name: &str) -> Result<bool, Failed>
        ensures held { IsHeld (files self.old) name.now result }
        ensures files { files self.new ≡ files self.old }
        ensures current { current self.new ≡ current self.old }
        ensures cause { HasCause (faults self.old) (faults self.new) result };

    /// Makes the named file the current one. A refused call leaves none current. A name that no file
    /// has is asked for only where the files are not told, and is then a fault.
    fn select(&mut self, name: &str) -> Result<(), Failed>
        requires { HasFile (files self.old) name.now }
        ensures selects { Selects (current self.new) name.now result }
        ensures files { files self.new ≡ files self.old }
        ensures cause { HasCause (faults self.old) (faults self.new) result };

    /// How many bytes the current file has.
    fn length(&mut self) -> Result<u64, Failed>
        requires { IsSome (current self.old) }
        ensures length { IsFileLength (current_bytes (files self.old) (current self.old)) result }
        ensures files { files self.new ≡ files self.old }
        ensures current { current self.new ≡ current self.old }
        ensures cause { HasCause (faults self.old) (faults self.new) result };

    /// Fills `into` with the current file's bytes from a place on. A piece that is not there is asked
    /// for only where the files are not told, and is then a fault.
    fn read_at(&mut self, at: u64, into: &mut [u8]) -> Result<(), Failed>
        requires file { IsSome (current self.old) }
        requires piece { HasBytes (current_bytes (files self.old) (current self.old)) at (length into.old) }
        ensures bytes { ReadsBytes (current_bytes (files self.old) (current self.old)) at into.new result }
        ensures files { files self.new ≡ files self.old }
        ensures current { current self.new ≡ current self.old }
        ensures cause { HasCause (faults self.old) (faults self.new) result };
}
