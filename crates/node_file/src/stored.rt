//! A node file in a store.

ghost use Rattle.std.specs.Prelude.{◌≡◌, ℕ, ◌+◌, ◌-◌, ◌*◌, ◌^◌, ◌<◌, ◌≤◌, List, length, take, drop, slice_index, IfSome, IfOk, OnOk, OnErr, IsSome};
ghost use Rattle.std.specs.Int.{w64, from_le_bytes};
ghost use Rattle.std.specs.Option.{ForSome};
ghost use Rattle.svo_base.specs.GridShape.{IsGrid};
ghost use Rattle.dev_traits.specs.Faults.{HasCause};
ghost use Rattle.dev_traits.specs.Files.{current_bytes, HasBytes, ReadsBytes};

use crate::framing::number_at;
use crate::loading::{Frame, LoadFault};
use crate::records::{Records, Totals};
use dev_traits::{Failed, NodeStore};
use std::sync::ledger::Ledger;
use svo_base::{Grid, Steps};

/// How many bytes stand before the words.
const HEADER_SIZE: u64 = 48;

/// How many bytes a word has.
const WORD_SIZE: usize = 8;

/// How many words a block has.
const BLOCK_WORDS: u64 = 512;

/// A framed node file of a store, whose words are read through a block of 4096 bytes: a word that lies
/// in the block is not read again.
#[derive(Drop)]
pub struct Nodes<'a, N: NodeStore> {
    store: &'a mut N,
    frame: Frame,
    looked: u64,
    block: [u8; 4096],
    // The block holds so many words, from this number on.
    first: u64,
    held: u64,
    ghost limits: { IsGrid frame.grid },
    ghost format: { (1 ≤ frame.format) × (frame.format ≤ 2) },
    ghost some: { 1 ≤ frame.totals.records },
    ghost few: { 80 + 8 * frame.totals.records < 2 ^ 64 },
    ghost current: { IsSome (N.current store.now) },
    ghost long: { ForSome (current_bytes (N.files store.now) (N.current store.now)) (λ bytes. 80 + 8 * frame.totals.records ≤ length bytes) },
    ghost inside: { (first + held ≤ frame.totals.records) × (held ≤ 512) },
    ghost kept: { ForSome (current_bytes (N.files store.now) (N.current store.now)) (λ bytes. take (8 * held) block ≡ take (8 * held) (drop (48 + 8 * first) bytes)) },
}

/// A store whose file could not be loaded, and why. The store is given back, so that its caller knows
/// what it is: a load fails only where the store counted a fault.
#[derive(Drop)]
pub struct Unloaded<'a, N: NodeStore> {
    pub store: &'a mut N,
    pub fault: LoadFault,
}

impl<'a, N: NodeStore> Nodes<'a, N> {
    ghost use Rattle.dev_traits.specs.Files.{file_named};
    ghost use Rattle.node_file.specs.Loading.{IsLoaded, FailsOnlyByFault};
    ghost use Rattle.node_file.specs.Viewing.{file_of, fault_of};
    ghost use Rattle.std.specs.Result.{IfErr};

    /// The node file of this name.
    ///
    /// # Errors
    ///
    /// As [`Frame::read`].
    pub fn load(store: &'a mut N, name: &str) -> Result<Nodes<'a, N>, Unloaded<'a, N>>
        ensures loaded { IfSome (N.files store.old) (λ files. IsLoaded file_of (file_named files name.now) (fault_of result)) }
        ensures lent { IfErr result (λ unloaded. unloaded.store.ghost_name ≡ store.entry.ghost_name) }
        ensures kept { IfErr result (λ unloaded. N.files unloaded.store.now ≡ N.files store.old) }
        ensures cause { IfErr result (λ unloaded. FailsOnlyByFault (N.faults store.old) (N.faults unloaded.store.now) (fault_of result)) }
        ensures store { IfOk result (λ nodes. nodes.store.ghost_name ≡ store.entry.ghost_name) }
        ensures files { IfOk result (λ nodes. N.files nodes.store.now ≡ N.files store.old) }
        ensures later { IfOk result (λ nodes. N.faults store.old ≤ N.faults nodes.store.now) }
        ensures looked { IfOk result (λ nodes. nodes.looked ≡ 0) }
    {
        match Frame::read(store, name) {
            Err(fault) => Err(Unloaded { store, fault }),
            Ok(frame) => Ok(Nodes::new(store, frame)),
        }
    }

    /// The words of the store's current file, which has this frame.
    pub fn new(store: &'a mut N, frame: Frame) -> Nodes<'a, N>
        requires limits { IsGrid frame.grid }
        requires format { (1 ≤ frame.format) × (frame.format ≤ 2) }
        requires some { 1 ≤ frame.totals.records }
        requires few { 80 + 8 * frame.totals.records < 2 ^ 64 }
        requires current { IsSome (N.current store.old) }
        requires long { ForSome (current_bytes (N.files store.old) (N.current store.old)) (λ bytes. 80 + 8 * frame.totals.records ≤ length bytes) }
        ensures store { result.store.ghost_name ≡ store.entry.ghost_name }
        ensures now { result.store.now ≡ store.old }
        ensures frame { result.frame ≡ frame }
        ensures looked { result.looked ≡ 0 }
    {
        Nodes {
            store,
            frame,
            looked: 0,
            block: [0; 4096],
            first: 0,
            held: 0,
        }
    }

    /// Fills `into` with the bytes of the words from a number on, in one read of the store. This is no
    /// call of `word`.
    ///
    /// # Errors
    ///
    /// `Failed`: the store refused the read.
    pub fn block(&mut self, from: u64, into: &mut [u8]) -> Result<(), Failed>
        requires whole { (count : ℕ) × (length into.old ≡ 8 * count) × (1 ≤ count) × (from + count ≤ (file_of self.old).totals.records) }
        ensures words { OnOk result (IfSome (file_of self.old).words (λ words. (k : ℕ) → 8 * k < length into.new → slice_index words (from + k) ≡ from_le_bytes w64 (take 8 (drop (8 * k) into.new)))) }
        ensures room { length into.new ≡ length into.old }
        ensures file { file_of self.new ≡ file_of self.old }
        ensures store { self.new.store.ghost_name ≡ self.old.store.ghost_name }
        ensures looked { self.new.looked ≡ self.old.looked }
        ensures cause { HasCause (N.faults self.old.store.now) (N.faults self.new.store.now) result }
    {
        read_words(self.store, from, into)?;
        Ok(())
    }

    /// Has the word of a number in the block.
    fn fetch(&mut self, number: u64) -> Result<(), Failed>
        requires { number < self.old.frame.totals.records }
        ensures held { OnOk result ((self.new.first ≤ number) × (number < self.new.first + self.new.held)) }
        ensures file { file_of self.new ≡ file_of self.old }
        ensures store { self.new.store.ghost_name ≡ self.old.store.ghost_name }
        ensures looked { self.new.looked ≡ self.old.looked }
        ensures cause { HasCause (N.faults self.old.store.now) (N.faults self.new.store.now) result }
    {
        if self.first <= number && number - self.first < self.held {
            return Ok(());
        }
        let first = number - number % BLOCK_WORDS;
        let held = (self.frame.totals.records - first).min(BLOCK_WORDS);
        self.held = 0;
        read_block(self.store, first, held, &mut self.block)?;
        self.first = first;
        self.held = held;
        Ok(())
    }

    /// A word that the block holds.
    fn held_word(&self, number: u64) -> u64
        requires { (self.now.first ≤ number) × (number < self.now.first + self.now.held) }
        ensures { IfSome (file_of self.now).words (λ words. result ≡ slice_index words number) }
    {
        number_at(&self.block, WORD_SIZE * (number - self.first) as usize)
    }
}

impl<'a, N: NodeStore> Records for Nodes<'a, N> {
    ghost use Rattle.node_file.specs.Viewing.{file_of};

    ghost file = { λ s. file_of s };

    ghost faults = { λ s. N.faults s.store.now };

    ghost looked = { λ s. s.looked };

    ghost lender = { λ s. s.store.ghost_name };

    fn grid(&self) -> Grid {
        self.frame.grid
    }

    fn totals(&self) -> Totals {
        self.frame.totals
    }

    fn format(&self) -> u32 {
        self.frame.format
    }

    fn word<L: Ledger>(&mut self, number: u64, reads: &mut Steps<L>) -> Result<u64, Failed> {
        reads.tick();
        self.looked = self.looked.saturating_add(1);
        self.fetch(number)?;
        Ok(self.held_word(number))
    }
}

/// Fills `into` with the bytes of the words from a number on.
fn read_words<N: NodeStore>(store: &mut N, from: u64, into: &mut [u8]) -> Result<(), Failed>
    requires file { IsSome (N.current store.old) }
    requires few { 48 + 8 * from < 2 ^ 64 }
    requires piece { HasBytes (current_bytes (N.files store.old) (N.current store.old)) (48 + 8 * from) (length into.old) }
    ensures bytes { ReadsBytes (current_bytes (N.files store.old) (N.current store.old)) (48 + 8 * from) into.new result }
    ensures room { length into.new ≡ length into.old }
    ensures files { N.files store.new ≡ N.files store.old }
    ensures current { N.current store.new ≡ N.current store.old }
    ensures cause { HasCause (N.faults store.old) (N.faults store.new) result }
{
    store.read_at(HEADER_SIZE + WORD_SIZE as u64 * from, into)?;
    Ok(())
}

/// Fills the front of a block with the bytes of so many words.
fn read_block<N: NodeStore>(
    store: &mut N,
    from: u64,
    count: u64,
    block: &mut [u8; 4096],
) -> Result<(), Failed>
    requires file { IsSome (N.current store.old) }
    requires few { 48 + 8 * from < 2 ^ 64 }
    requires count { count ≤ 512 }
    requires piece { HasBytes (current_bytes (N.files store.old) (N.current store.old)) (48 + 8 * from) (8 * count) }
    ensures bytes { OnOk result (IfSome (current_bytes (N.files store.old) (N.current store.old)) (λ bytes. take (8 * count) block.new ≡ take (8 * count) (drop (48 + 8 * from) bytes))) }
    ensures files { N.files store.new ≡ N.files store.old }
    ensures current { N.current store.new ≡ N.current store.old }
    ensures cause { HasCause (N.faults store.old) (N.faults store.new) result }
{
    read_words(store, from, &mut block[..WORD_SIZE * count as usize])?;
    Ok(())
}
