//! A source over bytes in memory.

ghost use Rattle.std.specs.Prelude.{◌≡◌, ◌≤◌, ◌<◌, Some, length, IfOk};
ghost use Rattle.dev_traits.specs.Contents.{TakesFront, GivesAtMost};
ghost use Rattle.dev_traits.specs.Faults.{HasCause};

use crate::device::{ByteSource, Failed};
use std::alloc::{AllocError, Global};
use std::marker::Model;

/// A source that gives its bytes in pieces of a set size, and refuses the calls of a list.
#[derive(Drop)]
pub struct MemSource {
    bytes: Vec<u8>,
    at: usize,
    piece: usize,
    fails: Vec<u64>,
    calls: u64,
    faults: u64,
}

impl Model for MemSource {
    ghost use Rattle.std.specs.Prelude.{◌≤◌, drop};
    ghost use Rattle.std.specs.Vec.{vec_len};
    ghost use Rattle.dev_traits.specs.SourceView.{SourceView};

    ghost Value = { SourceView };

    ghost view = { λ s. record { rest = drop s.at s.bytes.items; piece = s.piece; fails = s.fails.items; calls = s.calls; faults = s.faults } };

    ghost invariant = { λ s. (s.at ≤ vec_len s.bytes) × (1 ≤ s.piece) };
}

impl MemSource {
    ghost use Rattle.dev_traits.specs.SourceView.{SourceView};

    /// A source of these bytes. A read gives at most `piece` of them. Calls of `read` are counted
    /// from 1, and those whose numbers stand in `fails` are refused.
    pub fn new(
        alloc: Global,
        bytes: &[u8],
        piece: usize,
        fails: &[u64],
    ) -> Result<MemSource, AllocError>
        requires { 1 ≤ piece }
        ensures { IfOk result (λ s. s ≡ record { rest = bytes.now; piece = piece; fails = fails.now; calls = 0; faults = 0 }) }
    {
        Ok(MemSource {
            bytes: Vec::from_slice(alloc, bytes)?,
            at: 0,
            piece,
            fails: Vec::from_slice(alloc, fails)?,
            calls: 0,
            faults: 0,
        })
    }

    /// How many calls were refused; it stays at 2^64 - 1.
    pub fn fault_count(&self) -> u64
        ensures { result ≡ self.now.faults }
    {
        self.faults
    }

    /// How often `read` was called; it stays at 2^64 - 1.
    pub fn calls(&self) -> u64
        ensures { result ≡ self.now.calls }
    {
        self.calls
    }
}

impl ByteSource for MemSource {
    ghost use Rattle.dev_traits.specs.SourceView.{ReadsAsSet};

    ghost rest = { λ s. Some s.rest };

    ghost faults = { λ s. s.faults };

    fn read(&mut self, into: &mut [u8]) -> Result<usize, Failed>
        requires { 0 < length into.old }
        ensures bound { GivesAtMost (length into.old) result }
        ensures bytes { TakesFront (Some self.old.rest) (Some self.new.rest) into.new result }
        ensures cause { HasCause self.old.faults self.new.faults result }
        ensures exact { ReadsAsSet self.old self.new (length into.old) result }
    {
        self.calls = self.calls.saturating_add(1);
        if self.fails.contains(&self.calls) {
            self.faults = self.faults.saturating_add(1);
            return Err(Failed);
        }
        let left = self.bytes.len() - self.at;
        let count = self.piece.min(into.len()).min(left);
        let end = self.at + count;
        into[..count].copy_from_slice(&self.bytes[self.at..end]);
        self.at = end;
        Ok(count)
    }
}
