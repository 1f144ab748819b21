//! What a source and a sink of bytes are.
//!
//! A device may tell contracts its contents, or not: a clause on contents holds where they are told.
//! It counts its faults, and a call is refused only where that count rose.

ghost use Rattle.std.specs.Prelude.{◌≡◌, ℕ, Option, List, ◌<◌, length};
ghost use Rattle.dev_traits.specs.Faults.{HasCause};
ghost use Rattle.dev_traits.specs.Contents.{TakesFront, GivesAtMost, PutsPiece};

/// A device refused a call.
#[derive(Clone, Copy, Debug, PartialEq, Eq)]
pub struct Failed;

/// Where bytes come from.
pub trait ByteSource {
    /// The bytes still to come, where the source tells them.
    ghost rest: { Self → Option (List ℕ) };

    /// The faults so far. The count never falls; at 2^64 - 1, the last value of a counter of 64 bits,
    /// it may stay while faults go on.
    ghost faults: { Self → ℕ };

    /// The name of the loan that the bytes are read through, 0 where none is. It stays, so that the
    /// lender knows its source again afterwards.
    ghost lender: { Self → ℕ } = { λ _. 0 };

    /// Reads the next bytes into the front of `into`, and answers how many: at most its length, and
    /// 0 only where no byte is left. A refused call leaves the bytes to come as they were.
    fn read(&mut self, into: &mut [u8]) -> Result<usize, Failed>
        requires { 0 < length into.old }
        ensures bound { GivesAtMost (length into.old) result }
        ensures bytes { TakesFront (rest self.old) (rest self.new) into.new result }
        ensures lender { lender self.new ≡ lender self.old }
        ensures cause { HasCause (faults self.old) (faults self.new) result };
}

/// Where bytes go to.
pub trait ByteSink {
    /// The bytes written, where the sink tells them.
    ghost written: { Self → Option (List ℕ) };

    /// The faults so far. The count never falls; at 2^64 - 1, the last value of a counter of 64 bits,
    /// it may stay while faults go on.
    ghost faults: { Self → ℕ };

    /// Writes the whole piece at the end. A refused call has written some front of it.
    fn put(&mut self, piece: &[u8]) -> Result<(), Failed>
        ensures bytes { PutsPiece (written self.old) (written self.new) piece.now result }
        ensures cause { HasCause (faults self.old) (faults self.new) result };
}
