//! A store of files in memory.

ghost use Rattle.std.specs.Prelude.{◌≡◌, ◌++◌, ◌∷◌, None, Some, [], length, IfOk, MatchResult, IsNone, IsSome};
ghost use Rattle.dev_traits.specs.Faults.{HasCause};
ghost use Rattle.dev_traits.specs.Files.{file_named, current_bytes, IsHeld, HasFile, Selects, HasBytes, ReadsBytes, IsFileLength};

use crate::device::Failed;
use crate::file_device::NodeStore;
use crate::stored_files::{StoredFile, place_of};
use std::alloc::{AllocError, Global};
use std::marker::Model;

/// A store of files in memory, which refuses the calls of a list.
#[derive(Drop)]
pub struct MemStore {
    alloc: Global,
    files: Vec<StoredFile>,
    current: Option<usize>,
    fails: Vec<u64>,
    calls: u64,
    faults: u64,
}

impl Model for MemStore {
    ghost use Rattle.std.specs.Prelude.{map, IfSome};
    ghost use Rattle.dev_traits.specs.StoreView.{StoreView};
    ghost use Rattle.dev_traits.specs.StoredFiles.{named, name_at, IsPlaced};

    ghost Value = { StoreView };

    ghost view = { λ s. record { files = map named s.files.items; current = name_at s.files.items s.current; fails = s.fails.items; calls = s.calls; faults = s.faults } };

    ghost invariant = { λ s. IfSome s.current (IsPlaced s.files.items) };
}

impl MemStore {
    /// A store without a file. Its calls are counted from 1, and those whose numbers stand in `fails`
    /// are refused.
    pub fn new(alloc: Global, fails: &[u64]) -> Result<MemStore, AllocError>
        ensures { IfOk result (λ s. s ≡ record { files = []; current = None; fails = fails.now; calls = 0; faults = 0 }) }
    {
        Ok(MemStore {
            alloc,
            files: Vec::new(alloc),
            current: None,
            fails: Vec::from_slice(alloc, fails)?,
            calls: 0,
            faults: 0,
        })
    }

    /// Adds a file. For want of memory all is as before.
    pub fn add(&mut self, name: &str, bytes: &[u8]) -> Result<(), AllocError>
        requires { IsNone (file_named self.old.files name.now) }
        ensures { MatchResult result
            (λ _. self.new ≡ record { files = self.old.files ++ record { name = name.now; bytes = bytes.now } ∷ []; current = self.old.current; fails = self.old.fails; calls = self.old.calls; faults = self.old.faults })
            (λ _. self.new ≡ self.old) }
    {
        let name = String::from_str(self.alloc, name)?;
        let bytes = Vec::from_slice(self.alloc, bytes)?;
        self.files.push(StoredFile { name, bytes })?;
        Ok(())
    }

    /// How many calls were refused; it stays at 2^64 - 1.
    pub fn fault_count(&self) -> u64
        ensures { result ≡ self.now.faults }
    {
        self.faults
    }

    /// How many calls of the trait there were; it stays at 2^64 - 1.
    pub fn calls(&self) -> u64
        ensures { result ≡ self.now.calls }
    {
        self.calls
    }
}

impl NodeStore for MemStore {
    ghost use Rattle.dev_traits.specs.StoreView.{AsksAsSet};

    ghost files = { λ s. Some s.files };

    ghost current = { λ s. s.current };

    ghost faults = { λ s. s.faults };

    fn holds(&mut self, name: &str) -> Result<bool, Failed>
        ensures held { IsHeld (Some self.old.files) name.now result }
        ensures files { Some self.new.files ≡ Some self.old.files }
        ensures current { self.new.current ≡ self.old.current }
        ensures cause { HasCause self.old.faults self.new.faults result }
        ensures exact { AsksAsSet self.old self.new result }
    {
        self.calls = self.calls.saturating_add(1);
        if self.fails.contains(&self.calls) {
            self.faults = self.faults.saturating_add(1);
            return Err(Failed);
        }
        Ok(place_of(self.files.as_slice(), name).is_some())
    }

    fn select(&mut self, name: &str) -> Result<(), Failed>
        requires { HasFile (Some self.old.files) name.now }
        ensures selects { Selects self.new.current name.now result }
        ensures files { Some self.new.files ≡ Some self.old.files }
        ensures cause { HasCause self.old.faults self.new.faults result }
        ensures exact { AsksAsSet self.old self.new result }
    {
        self.calls = self.calls.saturating_add(1);
        if self.fails.contains(&self.calls) {
            self.current = None;
            self.faults = self.faults.saturating_add(1);
            return Err(Failed);
        }
        self.current = place_of(self.files.as_slice(), name);
        Ok(())
    }

    fn length(&mut self) -> Result<u64, Failed>
        requires { IsSome self.old.current }
        ensures length { IsFileLength (current_bytes (Some self.old.files) self.old.current) result }
        ensures files { Some self.new.files ≡ Some self.old.files }
        ensures current { self.new.current ≡ self.old.current }
        ensures cause { HasCause self.old.faults self.new.faults result }
        ensures exact { AsksAsSet self.old self.new result }
    {
        self.calls = self.calls.saturating_add(1);
        if self.fails.contains(&self.calls) {
            self.faults = self.faults.saturating_add(1);
            return Err(Failed);
        }
        let current = self.current.unwrap();
        Ok(self.files[current].bytes.len() as u64)
    }

    fn read_at(&mut self, at: u64, into: &mut [u8]) -> Result<(), Failed>
        requires file { IsSome self.old.current }
        requires piece { HasBytes (current_bytes (Some self.old.files) self.old.current) at (length into.old) }
        ensures bytes { ReadsBytes (current_bytes (Some self.old.files) self.old.current) at into.new result }
        ensures files { Some self.new.files ≡ Some self.old.files }
        ensures current { self.new.current ≡ self.old.current }
        ensures cause { HasCause self.old.faults self.new.faults result }
        ensures exact { AsksAsSet self.old self.new result }
    {
        self.calls = self.calls.saturating_add(1);
        if self.fails.contains(&self.calls) {
            self.faults = self.faults.saturating_add(1);
            return Err(Failed);
        }
        let at = at as usize;
        let current = self.current.unwrap();
        let bytes = &self.files[current].bytes;
        into.copy_from_slice(&bytes[at..at + into.len()]);
        Ok(())
    }
}
