//! What a scratch is: streams of bytes that grow at their ends and are read back at any place.

ghost use Rattle.std.specs.Prelude.{◌≡◌, ◌<◌, ℕ, Option, None, Some, List, length, OnOk, IfSome};
ghost use Rattle.dev_traits.specs.Faults.{HasCause};
ghost use Rattle.dev_traits.specs.Streams.{Asked, asked_of, StartsEmpty, AppendsPiece, HasPiece, ReadsPiece, IsStreamLength};

use crate::device::Failed;

/// Where data is kept for a while that memory does not hold: streams of bytes, numbered from 0.
pub trait Scratch {
    /// The bytes of each stream, where the scratch tells them.
    ghost told: { Self → Option (List (List ℕ)) };

    /// How many streams are started. Only `start` changes it.
    ghost started: { Self → ℕ };

    /// What `start` was called with, whatever it answered; none before that call.
    ghost asked: { Self → Option Asked };

    /// The faults so far. The count never falls; at 2^64 - 1, the last value of a counter of 64 bits,
    /// it may stay while faults go on.
    ghost faults: { Self → ℕ };

    /// Starts so many empty streams at a place, once. Of streams that could not be started nothing
    /// is said.
    fn start(&mut self, place: &str, streams: u32) -> Result<(), Failed>
        requires { asked self.old ≡ None }
        ensures asked { asked self.new ≡ Some (asked_of place.now streams) }
        ensures started { OnOk result (started self.new ≡ streams) }
        ensures empty { StartsEmpty (told self.old) (told self.new) streams result }
        ensures cause { HasCause (faults self.old) (faults self.new) result };

    /// Adds the piece at the stream's end. A refused call has added some front of it.
    fn append(&mut self, stream: u32, piece: &[u8]) -> Result<(), Failed>
        requires { stream < started self.old }
        ensures bytes { AppendsPiece (told self.old) (told self.new) stream piece.now result }
        ensures started { started self.new ≡ started self.old }
        ensures asked { asked self.new ≡ asked self.old }
        ensures cause { HasCause (faults self.old) (faults self.new) result };

    /// Fills `into` with the stream's bytes from a place on. A piece that is not there is asked for
    /// only where the streams are not told, and is then a fault.
    fn read_at(&mut self, stream: u32, at: u64, into: &mut [u8]) -> Result<(), Failed>
        requires stream { stream < started self.old }
        requires piece { HasPiece (told self.old) stream at (length into.old) }
        ensures bytes { ReadsPiece (told self.old) stream at into.new result }
        ensures told { told self.new ≡ told self.old }
        ensures started { started self.new ≡ started self.old }
        ensures asked { asked self.new ≡ asked self.old }
        ensures cause { HasCause (faults self.old) (faults self.new) result };

    /// How many bytes a stream has.
    fn length(&mut self, stream: u32) -> Result<u64, Failed>
        requires { stream < started self.old }
        ensures length { IsStreamLength (told self.old) stream result }
        ensures told { told self.new ≡ told self.old }
        ensures started { started self.new ≡ started self.old }
        ensures asked { asked self.new ≡ asked self.old }
        ensures cause { HasCause (faults self.old) (faults self.new) result };

    /// Where the streams are told, they are as many as are started.
    ghost all_told: { (s : Self) → IfSome (told s) (λ streams. length streams ≡ started s) };
}
