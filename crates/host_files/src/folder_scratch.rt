//! A scratch over a folder.

ghost use Rattle.std.specs.Prelude.{◌≡◌, ◌↔◌, None, Ok, false, length, replicate, IsOk};
ghost use Rattle.host_files.specs.MadeStreams.{is_made};

use crate::faults::answered;
use crate::made_streams::{KEPT_APART, MadeStreams};
use crate::stream_files::{
    Place, append_to, kept_place, length_of, make_folder, make_streams, make_with, path_of,
    read_from, read_from_none,
};
use dev_traits::{Asking, Failed, Scratch};
use std::io;
use std::rt::Files;

/// A folder with a file for each stream that was appended to, named by the stream's number. A stream's
/// first append makes its file, so that streams cost what they hold; until then the stream is empty,
/// whatever file of its name an earlier run left, and the host is asked nothing. The folder stays as a
/// run left it, and serves again.
#[derive(Drop)]
pub struct FolderScratch<'a, R> {
    files: &'a R,
    place: Place,
    made: MadeStreams,
    started: u32,
    asked: Option<Asking>,
    faults: u64,
}

impl<'a, R> FolderScratch<'a, R> {
    /// A scratch with no stream started, which has counted no fault.
    pub fn new(files: &'a R) -> FolderScratch<'a, R>
        ensures made { result.made ≡ replicate 4097 false }
        ensures started { result.started ≡ 0 }
        ensures asked { result.asked ≡ None }
        ensures faults { result.faults ≡ 0 }
    {
        FolderScratch {
            files,
            place: Place::new(),
            made: MadeStreams::none(),
            started: 0,
            asked: None,
            faults: 0,
        }
    }

    /// How many faults of the host there were; it stays at 2^64 - 1.
    pub fn fault_count(&self) -> u64
        ensures { result ≡ self.now.faults }
    {
        self.faults
    }
}

impl<'a, R: Files> FolderScratch<'a, R> {
    /// Adds a piece to a stream, whose first piece makes its file.
    fn grow(&self, stream: u32, piece: &[u8]) -> io::Result<()> {
        let path = path_of(&self.place, stream);
        if self.made.holds(stream) {
            append_to(self.files, &path, piece)
        } else {
            make_with(self.files, &path, piece)
        }
    }

    /// Fills `into` with a stream's bytes from a place on. One whose file was not made has none.
    fn fill(&self, stream: u32, at: u64, into: &mut [u8]) -> io::Result<()>
        ensures size { length into.new ≡ length into.old }
        ensures empty { is_made self.now.made stream ≡ false → IsOk result ↔ (length into.old ≡ 0) }
    {
        if !self.made.holds(stream) {
            return read_from_none(into);
        }
        read_from(self.files, &path_of(&self.place, stream), at, into)
    }

    /// How many bytes a stream has: none where its file was not made.
    fn size(&self, stream: u32) -> io::Result<u64>
        ensures { is_made self.now.made stream ≡ false → result ≡ Ok 0 }
    {
        if !self.made.holds(stream) {
            return Ok(0);
        }
        length_of(self.files, &path_of(&self.place, stream))
    }
}

/// The folder of a place of up to 200 bytes, with an empty file for each stream that is not kept
/// apart from others.
fn started<R: Files>(files: &R, place: &str, streams: u32) -> io::Result<Place> {
    let place = kept_place(place)?;
    make_folder(files, &place)?;
    make_streams(files, &place, KEPT_APART as u32..streams)?;
    Ok(place)
}

impl<'a, R: Files> Scratch for FolderScratch<'a, R> {
    ghost told = { λ _. None };

    ghost started = { λ s. s.started };

    ghost asked = { λ s. s.asked };

    ghost faults = { λ s. s.faults };

    ghost all_told = { λ _. tt };

    fn start(&mut self, place: &str, streams: u32) -> Result<(), Failed> {
        self.asked = Some(Asking::new(place, streams));
        let outcome = started(self.files, place, streams);
        self.place = answered(&mut self.faults, outcome)?;
        self.started = streams;
        Ok(())
    }

    fn append(&mut self, stream: u32, piece: &[u8]) -> Result<(), Failed> {
        let outcome = self.grow(stream, piece);
        answered(&mut self.faults, outcome)?;
        self.made.insert(stream);
        Ok(())
    }

    fn read_at(&mut self, stream: u32, at: u64, into: &mut [u8]) -> Result<(), Failed> {
        let outcome = self.fill(stream, at, into);
        answered(&mut self.faults, outcome)
    }

    fn length(&mut self, stream: u32) -> Result<u64, Failed> {
        let outcome = self.size(stream);
        answered(&mut self.faults, outcome)
    }
}
