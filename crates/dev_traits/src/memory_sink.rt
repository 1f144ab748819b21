//! A sink over room in memory.

ghost use Rattle.std.specs.Prelude.{◌≡◌, Some, [], IfOk};
ghost use Rattle.dev_traits.specs.Contents.{PutsPiece};
ghost use Rattle.dev_traits.specs.Faults.{HasCause};

use crate::device::{ByteSink, Failed};
use crate::failing::{PartFail, planned, taken};
use std::alloc::{AllocError, Global};
use std::marker::Model;

/// A sink with a set room, which refuses the calls of a list.
#[derive(Drop)]
pub struct MemSink {
    bytes: Vec<u8>,
    room: usize,
    fails: Vec<PartFail>,
    calls: u64,
    faults: u64,
}

impl Model for MemSink {
    ghost use Rattle.std.specs.Prelude.{◌≤◌};
    ghost use Rattle.std.specs.Vec.{vec_len, vec_capacity};
    ghost use Rattle.dev_traits.specs.SinkView.{SinkView};

    ghost Value = { SinkView };

    ghost view = { λ s. record { bytes = s.bytes.items; room = s.room; fails = s.fails.items; calls = s.calls; faults = s.faults } };

    ghost invariant = { λ s. (vec_len s.bytes ≤ s.room) × (s.room ≤ vec_capacity s.bytes) };
}

impl MemSink {
    ghost use Rattle.dev_traits.specs.SinkView.{SinkView};

    /// An empty sink with room for so many bytes, which are taken now. A refused call takes the first
    /// bytes of its piece, as many as its entry in `fails` says and as fit. A piece that does not fit
    /// is taken as far as it does, and its call is refused.
    pub fn new(alloc: Global, room: usize, fails: &[PartFail]) -> Result<MemSink, AllocError>
        ensures { IfOk result (λ s. s ≡ record { bytes = []; room = room; fails = fails.now; calls = 0; faults = 0 }) }
    {
        Ok(MemSink {
            bytes: Vec::with_capacity(alloc, room)?,
            room,
            fails: Vec::from_slice(alloc, fails)?,
            calls: 0,
            faults: 0,
        })
    }

    /// What was written.
    pub fn bytes(&self) -> &[u8]
        ensures { result.now ≡ self.now.bytes }
    {
        self.bytes.as_slice()
    }

    /// How many calls were refused; it stays at 2^64 - 1.
    pub fn fault_count(&self) -> u64
        ensures { result ≡ self.now.faults }
    {
        self.faults
    }

    /// How often `put` was called; it stays at 2^64 - 1.
    pub fn calls(&self) -> u64
        ensures { result ≡ self.now.calls }
    {
        self.calls
    }
}

impl ByteSink for MemSink {
    ghost use Rattle.dev_traits.specs.SinkView.{PutsAsSet};

    ghost written = { λ s. Some s.bytes };

    ghost faults = { λ s. s.faults };

    fn put(&mut self, piece: &[u8]) -> Result<(), Failed>
        ensures bytes { PutsPiece (Some self.old.bytes) (Some self.new.bytes) piece.now result }
        ensures cause { HasCause self.old.faults self.new.faults result }
        ensures exact { PutsAsSet self.old self.new piece.now result }
    {
        self.calls = self.calls.saturating_add(1);
        let planned = planned(self.fails.as_slice(), self.calls);
        let fits = piece.len().min(self.room - self.bytes.len());
        let taken = taken(planned, fits);
        self.bytes.extend_from_slice(&piece[..taken]).unwrap();
        if planned.is_none() && fits == piece.len() {
            return Ok(());
        }
        self.faults = self.faults.saturating_add(1);
        Err(Failed)
    }
}
