//! A scratch over room in memory.

ghost use Rattle.std.specs.Prelude.{◌≡◌, ◌+◌, ◌<◌, ◌≤◌, ◌↔◌, None, Some, [], length, IfOk, OnOk, IsTrue};
ghost use Rattle.dev_traits.specs.Faults.{HasCause};
ghost use Rattle.dev_traits.specs.Streams.{asked_of, stream_of, StartsEmpty, AppendsPiece, HasPiece, ReadsPiece, IsStreamLength};

use crate::asking::Asking;
use crate::device::Failed;
use crate::failing::{PartFail, planned, taken};
use crate::stream_device::Scratch;
use std::alloc::{AllocError, Global};
use std::marker::Model;

/// A scratch with a set number of streams and a set room for each, which refuses the calls of a list.
#[derive(Drop)]
pub struct MemScratch {
    lists: Vec<Vec<u8>>,
    started: usize,
    asked: Option<Asking>,
    room: usize,
    fails: Vec<PartFail>,
    calls: u64,
    faults: u64,
}

impl Model for MemScratch {
    ghost use Rattle.std.specs.Prelude.{◌≡◌, None, map, take, length};
    ghost use Rattle.std.specs.Vec.{vec_capacity};
    ghost use Rattle.dev_traits.specs.ScratchRooms.{AreRooms};
    ghost use Rattle.dev_traits.specs.ScratchView.{ScratchView};

    ghost Value = { ScratchView };

    ghost view = { λ s. record { streams = take s.started (map (λ v. v.items) s.lists.items); asked = s.asked; made = length s.lists.items; room = s.room; fails = s.fails.items; calls = s.calls; faults = s.faults } };

    ghost invariant = { λ s. (s.asked ≡ None → s.started ≡ 0) × AreRooms s.lists.items (λ list. list.items) vec_capacity s.started s.room };
}

impl MemScratch {
    ghost use Rattle.dev_traits.specs.ScratchView.{ScratchView, GrowsAsSet};

    /// A scratch with so many streams to start, and room for so many bytes in each, which are taken
    /// now. Its calls are counted from 1; those with an entry in `fails` are refused. A refused
    /// append takes the first bytes of its piece, as many as its entry says and as fit. A piece that
    /// does not fit is taken as far as it does, and its call is refused.
    pub fn new(
        alloc: Global,
        streams: u32,
        room: usize,
        fails: &[PartFail],
    ) -> Result<MemScratch, AllocError>
        ensures { IfOk result (λ s. s ≡ record { streams = []; asked = None; made = streams; room = room; fails = fails.now; calls = 0; faults = 0 }) }
    {
        let mut lists = Vec::with_capacity(alloc, streams as usize)?;
        for _made in 0..streams {
            lists.push(Vec::with_capacity(alloc, room)?)?;
        }
        Ok(MemScratch {
            lists,
            started: 0,
            asked: None,
            room,
            fails: Vec::from_slice(alloc, fails)?,
            calls: 0,
            faults: 0,
        })
    }

    /// What a stream holds.
    pub fn stream(&self, stream: u32) -> &[u8]
        requires { stream < length self.now.streams }
        ensures { result.now ≡ stream_of self.now.streams stream }
    {
        self.lists[stream as usize].as_slice()
    }

    /// Adds the bytes of a piece that a call with this entry takes, and answers whether there was
    /// room for all of it.
    fn grow(&mut self, stream: u32, piece: &[u8], entry: Option<PartFail>) -> bool
        requires { stream < length self.old.streams }
        ensures grows { GrowsAsSet self.old self.new stream piece.now entry }
        ensures whole { IsTrue result ↔ (length (stream_of self.old.streams stream) + length piece.now ≤ self.old.room) }
        ensures count { length self.new.streams ≡ length self.old.streams }
    {
        let list = &mut self.lists[stream as usize];
        let fits = piece.len().min(self.room - list.len());
        let taken = taken(entry, fits);
        list.extend_from_slice(&piece[..taken]).unwrap();
        fits == piece.len()
    }

    /// How many calls were refused; it stays at 2^64 - 1.
    pub fn fault_count(&self) -> u64
        ensures { result ≡ self.now.faults }
    {
        self.faults
    }

    /// How many calls of the trait there were; it stays at 2^64 - 1.
    pub fn calls(&self) -> u64
        ensures { result ≡ self.now.calls }
    {
        self.calls
    }
}

impl Scratch for MemScratch {
    ghost use Rattle.std.specs.Prelude.{refl};
    ghost use Rattle.dev_traits.specs.ScratchView.{StartsAsSet, AppendsAsSet, LooksAsSet};

    ghost told = { λ s. Some s.streams };

    ghost started = { λ s. length s.streams };

    ghost asked = { λ s. s.asked };

    ghost faults = { λ s. s.faults };

    ghost all_told = { λ _. refl };

    fn start(&mut self, place: &str, streams: u32) -> Result<(), Failed>
        requires { self.old.asked ≡ None }
        ensures asked { self.new.asked ≡ Some (asked_of place.now streams) }
        ensures started { OnOk result (length self.new.streams ≡ streams) }
        ensures empty { StartsEmpty (Some self.old.streams) (Some self.new.streams) streams result }
        ensures cause { HasCause self.old.faults self.new.faults result }
        ensures exact { StartsAsSet self.old self.new place.now streams result }
    {
        self.calls = self.calls.saturating_add(1);
        let entry = planned(self.fails.as_slice(), self.calls);
        self.asked = Some(Asking::new(place, streams));
        let streams = streams as usize;
        if entry.is_some() || self.lists.len() < streams {
            self.faults = self.faults.saturating_add(1);
            return Err(Failed);
        }
        self.started = streams;
        Ok(())
    }

    fn append(&mut self, stream: u32, piece: &[u8]) -> Result<(), Failed>
        requires { stream < length self.old.streams }
        ensures bytes { AppendsPiece (Some self.old.streams) (Some self.new.streams) stream piece.now result }
        ensures started { length self.new.streams ≡ length self.old.streams }
        ensures asked { self.new.asked ≡ self.old.asked }
        ensures cause { HasCause self.old.faults self.new.faults result }
        ensures exact { AppendsAsSet self.old self.new stream piece.now result }
    {
        self.calls = self.calls.saturating_add(1);
        let entry = planned(self.fails.as_slice(), self.calls);
        if self.grow(stream, piece, entry) && entry.is_none() {
            return Ok(());
        }
        self.faults = self.faults.saturating_add(1);
        Err(Failed)
    }

    fn read_at(&mut self, stream: u32, at: u64, into: &mut [u8]) -> Result<(), Failed>
        requires stream { stream < length self.old.streams }
        requires piece { HasPiece (Some self.old.streams) stream at (length into.old) }
        ensures bytes { ReadsPiece (Some self.old.streams) stream at into.new result }
        ensures told { Some self.new.streams ≡ Some self.old.streams }
        ensures started { length self.new.streams ≡ length self.old.streams }
        ensures asked { self.new.asked ≡ self.old.asked }
        ensures cause { HasCause self.old.faults self.new.faults result }
        ensures exact { LooksAsSet self.old self.new result }
    {
        self.calls = self.calls.saturating_add(1);
        if planned(self.fails.as_slice(), self.calls).is_some() {
            self.faults = self.faults.saturating_add(1);
            return Err(Failed);
        }
        let at = at as usize;
        let list = &self.lists[stream as usize];
        into.copy_from_slice(&list[at..at + into.len()]);
        Ok(())
    }

    fn length(&mut self, stream: u32) -> Result<u64, Failed>
        requires { stream < length self.old.streams }
        ensures length { IsStreamLength (Some self.old.streams) stream result }
        ensures told { Some self.new.streams ≡ Some self.old.streams }
        ensures started { length self.new.streams ≡ length self.old.streams }
        ensures asked { self.new.asked ≡ self.old.asked }
        ensures cause { HasCause self.old.faults self.new.faults result }
        ensures exact { LooksAsSet self.old self.new result }
    {
        self.calls = self.calls.saturating_add(1);
        if planned(self.fails.as_slice(), self.calls).is_some() {
            self.faults = self.faults.saturating_add(1);
            return Err(Failed);
        }
        Ok(self.lists[stream as usize].len() as u64)
    }
}
