//! Parcels read back from a stream.

ghost use Rattle.std.specs.Prelude.{◌≡◌, ◌≢◌, ◌+◌, ◌-◌, ◌*◌, ◌^◌, ◌≤◌, ◌<◌, ℕ, [], length, take, drop, IfOk, OnOk, OnErr, IfSome};
ghost use Rattle.dev_traits.specs.Faults.{HasCause};
ghost use Rattle.dev_traits.specs.Streams.{stream_of};
ghost use Rattle.tri_partition.specs.PartStreams.{HasStream, part_stream, faced_of, parcel_from};

use crate::pieces::{PIECE_SIZE, read_parcel};
use dev_traits::{Failed, Scratch};
use room_plan::Parcel;
use std::marker::Model;

/// Reads the parcels of one stream, in the order in which they stand in it, through a lent block. Bytes
/// behind the last whole parcel are left. The parcels have the number of the part whose stream it is,
/// which is one less than the stream's.
#[derive(Drop)]
pub struct PartReader<'a> {
    part: u32,
    block: &'a mut [u8],
    // Where the next parcel stands in the stream.
    place: u64,
    // The bytes of the block from `from` to `to` were read and not yet given.
    from: usize,
    to: usize,
}

impl<'a> Model for PartReader<'a> {
    ghost use Rattle.std.specs.Prelude.{◌≡◌, ◌≤◌, ◌<◌, ◌+◌, ◌-◌, ◌*◌, ◌^◌, ℕ, length, slice_range};
    ghost use Rattle.tri_partition.specs.Reading.{ReaderView};

    ghost Value = { ReaderView };

    ghost view = { λ r. record { part = r.part; place = r.place; held = slice_range r.block.now r.from r.to } };

    ghost invariant = { λ r. (40 ≤ length r.block.now) × (r.from ≤ r.to) × (r.to ≤ length r.block.now) × (r.place + (r.to - r.from) < 2 ^ 64) × ((whole : ℕ) × (r.from + 40 * whole ≡ r.to)) };
}

impl<'a> PartReader<'a> {
    ghost use Rattle.tri_partition.specs.Reading.{ReaderView, StillHolds, GivesNext, GoesOn};

    /// A reader at the start of the part's stream. Of the block the reader uses as many whole pieces
    /// of 40 bytes as it has; a larger one takes fewer reads.
    pub fn new(part: u32, block: &'a mut [u8]) -> PartReader<'a>
        requires { 40 ≤ length block.old }
        ensures { result ≡ record { part = part; place = 0; held = [] } }
    {
        PartReader::of_part(part, 0, block)
    }

    /// A reader of a stream from a place on, in bytes. Its first parcel begins there, and what stands
    /// before is not read. It uses the block as a reader at the start does.
    ///
    /// Stream 0 has no parcels, and no call may ask a reader of it for any.
    pub fn at(stream: u32, from: u64, block: &'a mut [u8]) -> PartReader<'a>
        requires { 40 ≤ length block.old }
        ensures { 0 < stream → result ≡ record { part = stream - 1; place = from; held = [] } }
    {
        PartReader::of_part(stream.wrapping_sub(1), from, block)
    }

    /// A reader of the part's stream from a place on.
    fn of_part(part: u32, from: u64, block: &'a mut [u8]) -> PartReader<'a>
        requires { 40 ≤ length block.old }
        ensures { result ≡ record { part = part; place = from; held = [] } }
    {
        PartReader {
            part,
            block,
            place: from,
            from: 0,
            to: 0,
        }
    }

    /// Where the next parcel stands in the stream, in bytes: where the reader began, and 40 bytes
    /// further for each parcel that it gave. A parcel that would end behind the last place of 64 bits is
    /// not given.
    pub fn place(&self) -> u64
        ensures value { result ≡ self.now.place }
    {
        self.place
    }

    /// How many bytes the part's stream has.
    ///
    /// # Errors
    ///
    /// `Failed`: the scratch refused the call.
    pub fn stream_length<S: Scratch>(&self, scratch: &mut S) -> Result<u64, Failed>
        requires stream { HasStream (S.started scratch.old) self.now.part }
        ensures length { IfSome (S.told scratch.old) (λ streams. IfOk result (λ n. n ≡ length (part_stream streams self.now.part))) }
        ensures told { S.told scratch.new ≡ S.told scratch.old }
        ensures started { S.started scratch.new ≡ S.started scratch.old }
        ensures asked { S.asked scratch.new ≡ S.asked scratch.old }
        ensures cause { HasCause (S.faults scratch.old) (S.faults scratch.new) result }
    {
        scratch.length(self.part + 1)
    }

    /// The next parcel of the part's stream, or `None` exactly where fewer than 40 bytes of the
    /// stream are left. What was read ahead must still stand in the stream, as it does where all
    /// calls are given one scratch. Where none is at hand, the stream's length is asked for, and as
    /// many parcels are read as there are and the block has room for.
    ///
    /// # Errors
    ///
    /// `Failed`: the scratch refused a call. The reader stays as it was.
    pub fn next<S: Scratch>(&mut self, scratch: &mut S) -> Result<Option<Parcel>, Failed>
        requires stream { HasStream (S.started scratch.old) self.old.part }
        requires holds { IfSome (S.told scratch.old) (λ streams. StillHolds (part_stream streams self.old.part) self.old) }
        ensures gives { IfSome (S.told scratch.old) (λ streams. GivesNext (part_stream streams self.old.part) self.old self.new result) }
        ensures goes { GoesOn self.old self.new result }
        ensures place { self.new.place < 2 ^ 64 }
        ensures told { S.told scratch.new ≡ S.told scratch.old }
        ensures started { S.started scratch.new ≡ S.started scratch.old }
        ensures asked { S.asked scratch.new ≡ S.asked scratch.old }
        ensures cause { HasCause (S.faults scratch.old) (S.faults scratch.new) result }
    {
        let end = self.needed_length(scratch)?;
        self.next_before(end, scratch)
    }

    /// The next parcel, as `next` gives it, of a stream that has `end` bytes. Its length is not asked
    /// for, so that one call of `stream_length` serves while the stream stays as it is. Where a parcel
    /// is at hand, `end` is not looked at.
    ///
    /// # Errors
    ///
    /// `Failed`: the scratch refused a call. The reader stays as it was.
    pub fn next_before<S: Scratch>(
        &mut self,
        end: u64,
        scratch: &mut S,
    ) -> Result<Option<Parcel>, Failed>
        requires stream { HasStream (S.started scratch.old) self.old.part }
        requires holds { IfSome (S.told scratch.old) (λ streams. StillHolds (part_stream streams self.old.part) self.old) }
        requires end { IfSome (S.told scratch.old) (λ streams. self.old.held ≡ [] → end ≡ length (part_stream streams self.old.part)) }
        ensures gives { IfSome (S.told scratch.old) (λ streams. GivesNext (part_stream streams self.old.part) self.old self.new result) }
        ensures goes { GoesOn self.old self.new result }
        ensures place { self.new.place < 2 ^ 64 }
        ensures told { S.told scratch.new ≡ S.told scratch.old }
        ensures started { S.started scratch.new ≡ S.started scratch.old }
        ensures asked { S.asked scratch.new ≡ S.asked scratch.old }
        ensures cause { HasCause (S.faults scratch.old) (S.faults scratch.new) result }
    {
        self.fetch(end, scratch)?;
        if self.from == self.to {
            return Ok(None);
        }
        let parcel = self.front();
        self.pass();
        Ok(Some(parcel))
    }

    /// The length of the part's stream, where it takes a read to give the next parcel.
    fn needed_length<S: Scratch>(&self, scratch: &mut S) -> Result<u64, Failed>
        requires stream { HasStream (S.started scratch.old) self.now.part }
        ensures length { IfSome (S.told scratch.old) (λ streams. IfOk result (λ n. self.now.held ≡ [] → n ≡ length (part_stream streams self.now.part))) }
        ensures bounded { self.now.place < 2 ^ 64 }
        ensures told { S.told scratch.new ≡ S.told scratch.old }
        ensures started { S.started scratch.new ≡ S.started scratch.old }
        ensures asked { S.asked scratch.new ≡ S.asked scratch.old }
        ensures cause { HasCause (S.faults scratch.old) (S.faults scratch.new) result }
    {
        if self.from < self.to {
            return Ok(0);
        }
        self.stream_length(scratch)
    }

    /// Reads on where no parcel is at hand, of a stream that has `end` bytes. None is then only where
    /// the stream has no whole one left.
    fn fetch<S: Scratch>(&mut self, end: u64, scratch: &mut S) -> Result<(), Failed>
        requires stream { HasStream (S.started scratch.old) self.old.part }
        requires holds { IfSome (S.told scratch.old) (λ streams. StillHolds (part_stream streams self.old.part) self.old) }
        requires end { IfSome (S.told scratch.old) (λ streams. self.old.held ≡ [] → end ≡ length (part_stream streams self.old.part)) }
        ensures holds { IfSome (S.told scratch.old) (λ streams. StillHolds (part_stream streams self.old.part) self.new) }
        ensures none { IfSome (S.told scratch.old) (λ streams. OnOk result (self.new.held ≡ [] → length (part_stream streams self.old.part) < self.old.place + 40)) }
        ensures part { self.new.part ≡ self.old.part }
        ensures place { self.new.place ≡ self.old.place }
        ensures bounded { self.new.place < 2 ^ 64 }
        ensures kept { self.old.held ≢ [] → self.new ≡ self.old }
        ensures refused { OnErr result (self.new ≡ self.old) }
        ensures told { S.told scratch.new ≡ S.told scratch.old }
        ensures started { S.started scratch.new ≡ S.started scratch.old }
        ensures asked { S.asked scratch.new ≡ S.asked scratch.old }
        ensures cause { HasCause (S.faults scratch.old) (S.faults scratch.new) result }
    {
        if self.from < self.to {
            return Ok(());
        }
        let size = read_pieces(scratch, self.part + 1, self.place, end, self.block)?;
        self.from = 0;
        self.to = size;
        Ok(())
    }

    /// The parcel at hand.
    fn front(&self) -> Parcel
        requires { self.now.held ≢ [] }
        ensures faced { faced_of result ≡ parcel_from (take 40 self.now.held) }
        ensures part { result.part ≡ self.now.part }
    {
        read_parcel(&self.block[self.from..self.from + PIECE_SIZE], self.part)
    }

    /// Passes the parcel at hand.
    fn pass(&mut self)
        requires { self.old.held ≢ [] }
        ensures whole { 40 ≤ length self.old.held }
        ensures after { self.new ≡ record { part = self.old.part; place = self.old.place + 40; held = drop 40 self.old.held } }
        ensures place { self.new.place < 2 ^ 64 }
    {
        self.from += PIECE_SIZE;
        self.place += PIECE_SIZE as u64;
    }
}

/// Reads as many pieces of 40 bytes as a stream of `end` bytes has from a place on and the block has
/// room for, and answers how many bytes they have.
fn read_pieces<S: Scratch>(
    scratch: &mut S,
    stream: u32,
    place: u64,
    end: u64,
    block: &mut [u8],
) -> Result<usize, Failed>
    requires stream { stream < S.started scratch.old }
    requires end { IfSome (S.told scratch.old) (λ streams. end ≡ length (stream_of streams stream)) }
    requires room { 40 ≤ length block.old }
    ensures read { IfSome (S.told scratch.old) (λ streams. IfOk result (λ size. take size block.new ≡ take size (drop place (stream_of streams stream)))) }
    ensures none { IfSome (S.told scratch.old) (λ streams. IfOk result (λ size. size ≡ 0 → length (stream_of streams stream) < place + 40)) }
    ensures size { IfOk result (λ size. (size ≤ length block.old) × (place + size < 2 ^ 64) × ((count : ℕ) × (size ≡ 40 * count))) }
    ensures block { length block.new ≡ length block.old }
    ensures told { S.told scratch.new ≡ S.told scratch.old }
    ensures started { S.started scratch.new ≡ S.started scratch.old }
    ensures asked { S.asked scratch.new ≡ S.asked scratch.old }
    ensures cause { HasCause (S.faults scratch.old) (S.faults scratch.new) result }
{
    let left = end.saturating_sub(place);
    let size = left.min(block.len() as u64) as usize / PIECE_SIZE * PIECE_SIZE;
    if size == 0 {
        return Ok(0);
    }
    scratch.read_at(stream, place, &mut block[..size])?;
    Ok(size)
}
