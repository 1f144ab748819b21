//! A scratch in memory that remembers what it started, so that its streams can be looked at behind a run.

ghost use Rattle.std.specs.Prelude.{◌≡◌, ◌<◌, None, Some, length, OnOk, IfOk};
ghost use Rattle.dev_traits.specs.Faults.{HasCause};
ghost use Rattle.dev_traits.specs.Streams.{asked_of, StartsEmpty, AppendsPiece, HasPiece, ReadsPiece, IsStreamLength};

use dev_traits::{Failed, MemScratch, PartFail, Scratch};
use std::alloc::{AllocError, Global};
use std::marker::Model;

/// A scratch in memory, with the number of streams that are started and the place that was asked for.
#[derive(Drop)]
pub struct WatchedScratch {
    scratch: MemScratch,
    started: u32,
    alloc: Global,
    place: Option<String>,
}

impl Model for WatchedScratch {
    ghost use Rattle.std.specs.Prelude.{◌≡◌, length};
    ghost use Rattle.dev_traits.specs.ScratchView.{ScratchView};

    ghost Value = { ScratchView };

    ghost view = { λ s. s.scratch };

    ghost invariant = { λ s. s.started ≡ length s.scratch.streams };
}

impl WatchedScratch {
    /// A scratch with so many streams to start, and room for so many bytes in each, which refuses the
    /// calls of a list.
    pub fn new(
        alloc: Global,
        streams: u32,
        room: usize,
        fails: &[PartFail],
    ) -> Result<WatchedScratch, AllocError>
        ensures { IfOk result (λ s. s.asked ≡ None) }
    {
        Ok(WatchedScratch {
            scratch: MemScratch::new(alloc, streams, room, fails)?,
            started: 0,
            alloc,
            place: None,
        })
    }

    /// What a stream holds, where it is started.
    pub fn stream(&self, stream: u32) -> Option<&[u8]> {
        if stream < self.started {
            Some(self.scratch.stream(stream))
        } else {
            None
        }
    }

    /// The place that was asked for, where there was memory to keep it.
    pub fn place(&self) -> Option<&str> {
        match &self.place {
            Some(place) => Some(place.as_str()),
            None => None,
        }
    }

    /// How many calls were refused.
    pub fn fault_count(&self) -> u64 {
        self.scratch.fault_count()
    }

    /// How many calls there were.
    pub fn calls(&self) -> u64 {
        self.scratch.calls()
    }
}

impl Scratch for WatchedScratch {
    ghost use Rattle.std.specs.Prelude.{refl};

    ghost told = { λ s. Some s.streams };

    ghost started = { λ s. length s.streams };

    ghost asked = { λ s. s.asked };

    ghost faults = { λ s. s.faults };

    ghost all_told = { λ _. refl };

    fn start(&mut self, place: &str, streams: u32) -> Result<(), Failed> {
        self.place = String::from_str(self.alloc, place).ok();
        self.scratch.start(place, streams)?;
        self.started = streams;
        Ok(())
    }

    fn append(&mut self, stream: u32, piece: &[u8]) -> Result<(), Failed> {
        self.scratch.append(stream, piece)
    }

    fn read_at(&mut self, stream: u32, at: u64, into: &mut [u8]) -> Result<(), Failed> {
        self.scratch.read_at(stream, at, into)
    }

    fn length(&mut self, stream: u32) -> Result<u64, Failed> {
        self.scratch.length(stream)
    }
}
