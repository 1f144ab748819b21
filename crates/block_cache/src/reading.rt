//! Words through kept blocks.

ghost use Rattle.std.specs.Prelude.{◌≡◌, ◌+◌, ◌-◌, ◌*◌, ◌/◌, ◌<◌, ◌⊎◌, [], ◌∷◌, false, min, length, take, IfSome, OnOk, OnErr};
ghost use Rattle.dev_traits.specs.Faults.{HasCause, counted};
ghost use Rattle.node_file.specs.Told.{GivesWord};
ghost use Rattle.node_file.specs.Viewing.{file_of};
ghost use Rattle.block_cache.specs.Kept.{AreOfFile, AreKept, BringsBlock, KeepsBlock, is_kept};

use crate::kept_blocks::{BLOCK_WORDS, Block, BlockCache, WORD_SIZE};
use dev_traits::{Failed, NodeStore};
use node_file::{Nodes, Records, Totals};
use std::alloc::Global;
use std::sync::ledger::Ledger;
use svo_base::{Grid, Steps};

/// The words of a node file, read by blocks of 512. The blocks last used are kept in a cache that is
/// lent: their words are given without the store.
#[derive(Drop)]
pub struct Blocks<'a, 'b, N: NodeStore> {
    nodes: Nodes<'a, N>,
    cache: &'b mut BlockCache,
    looked: u64,
    ghost right: { AreOfFile (file_of nodes) cache.now.entries },
}

impl<'a, 'b, N: NodeStore> Blocks<'a, 'b, N> {
    ghost use Rattle.block_cache.specs.Viewing.{kept_of, keep_of};

    /// The words of these nodes, with no block kept so far: what the cache kept before is let go.
    pub fn new(nodes: Nodes<'a, N>, cache: &'b mut BlockCache) -> Blocks<'a, 'b, N>
        ensures store { result.nodes.store.ghost_name ≡ nodes.entry.store.ghost_name }
        ensures now { result.nodes.store.now ≡ nodes.entry.store.now }
        ensures file { file_of result.nodes ≡ file_of nodes.entry }
        ensures kept { kept_of result ≡ [] }
        ensures keep { keep_of result ≡ cache.old.cap }
        ensures looked { result.looked ≡ 0 }
    {
        cache.clear();
        Blocks {
            nodes,
            cache,
            looked: 0,
        }
    }

    /// Room for the block that has the word of a number. None where there is no memory.
    fn room(&self, number: u64) -> Option<Vec<u8>>
        requires { number < (file_of self.now.nodes).totals.records }
        ensures { IfSome result (λ room. length room.items ≡ 8 * min 512 ((file_of self.now.nodes).totals.records - 512 * (number / 512))) }
    {
        let first = number - number % BLOCK_WORDS;
        let count = (self.nodes.totals().records - first).min(BLOCK_WORDS);
        zeros(self.cache.allocator(), WORD_SIZE * count as usize)
    }

    /// Reads the block that has the word of a number into its room, keeps it, and gives the word.
    fn fetch(&mut self, number: u64, room: Vec<u8>) -> Result<u64, Failed>
        requires number { number < (file_of self.old.nodes).totals.records }
        requires size { length room.items ≡ 8 * min 512 ((file_of self.old.nodes).totals.records - 512 * (number / 512)) }
        requires missing { is_kept (number / 512) (kept_of self.old) ≡ false }
        requires valid { AreKept (keep_of self.old) (kept_of self.old) }
        ensures word { GivesWord (file_of self.old.nodes).words number result }
        ensures file { file_of self.new.nodes ≡ file_of self.old.nodes }
        ensures kept { OnOk result ((kept_of self.new ≡ take (keep_of self.old) (number / 512 ∷ kept_of self.old)) ⊎ (kept_of self.new ≡ kept_of self.old)) }
        ensures refused { OnErr result (kept_of self.new ≡ kept_of self.old) }
        ensures keep { keep_of self.new ≡ keep_of self.old }
        ensures valid { AreKept (keep_of self.new) (kept_of self.new) }
        ensures looked { self.new.looked ≡ self.old.looked }
        ensures store { self.new.nodes.store.ghost_name ≡ self.old.nodes.store.ghost_name }
        ensures cause { HasCause (N.faults self.old.nodes.store.now) (N.faults self.new.nodes.store.now) result }
    {
        let mut room = room;
        self.nodes
            .block(number - number % BLOCK_WORDS, room.as_mut_slice())?;
        let block = Block::new(room);
        let word = block.word(number % BLOCK_WORDS);
        self.cache.keep(number / BLOCK_WORDS, block);
        Ok(word)
    }

    /// Reads a word whose block is not kept.
    fn read<L: Ledger>(&mut self, number: u64, reads: &mut Steps<L>) -> Result<u64, Failed>
        requires number { number < (file_of self.old.nodes).totals.records }
        requires missing { is_kept (number / 512) (kept_of self.old) ≡ false }
        requires valid { AreKept (keep_of self.old) (kept_of self.old) }
        ensures word { GivesWord (file_of self.old.nodes).words number result }
        ensures file { file_of self.new.nodes ≡ file_of self.old.nodes }
        ensures reads { reads.new ≡ reads.old + 1 }
        ensures brings { BringsBlock (keep_of self.old) (number / 512) (kept_of self.old) (kept_of self.new) result }
        ensures keep { keep_of self.new ≡ keep_of self.old }
        ensures valid { AreKept (keep_of self.new) (kept_of self.new) }
        ensures looked { self.new.looked ≡ self.old.looked }
        ensures store { self.new.nodes.store.ghost_name ≡ self.old.nodes.store.ghost_name }
        ensures cause { HasCause (N.faults self.old.nodes.store.now) (N.faults self.new.nodes.store.now) result }
    {
        match self.room(number) {
            None => self.nodes.word(number, reads),
            Some(room) => {
                reads.tick();
                self.fetch(number, room)
            }
        }
    }
}

/// So many bytes of zero. None where there is no memory.
fn zeros(alloc: Global, size: usize) -> Option<Vec<u8>>
    ensures { IfSome result (λ room. length room.items ≡ size) }
{
    let mut bytes = Vec::with_capacity(alloc, size).ok()?;
    bytes.resize(size, 0).ok()?;
    Some(bytes)
}

impl<'a, 'b, N: NodeStore> Records for Blocks<'a, 'b, N> {
    ghost use Rattle.block_cache.specs.Viewing.{kept_of, keep_of};

    ghost file = { λ s. file_of s.nodes };

    ghost faults = { λ s. N.faults s.nodes.store.now };

    ghost looked = { λ s. s.looked };

    ghost lender = { λ s. s.nodes.store.ghost_name };

    fn grid(&self) -> Grid {
        self.nodes.grid()
    }

    fn totals(&self) -> Totals {
        self.nodes.totals()
    }

    fn format(&self) -> u32 {
        self.nodes.format()
    }

    /// As [`Records::word`]. A word of a kept block comes without the store. Another's block is read
    /// once, and kept; where there is no memory for it, its words are read as [`Nodes`] reads them.
    fn word<L: Ledger>(&mut self, number: u64, reads: &mut Steps<L>) -> Result<u64, Failed>
        requires { number < (file_of self.old.nodes).totals.records }
        ensures word { GivesWord (file_of self.old.nodes).words number result }
        ensures same { file_of self.new.nodes ≡ file_of self.old.nodes }
        ensures reads { reads.new ≡ reads.old + 1 }
        ensures looked { self.new.looked ≡ counted self.old.looked }
        ensures lender { self.new.nodes.store.ghost_name ≡ self.old.nodes.store.ghost_name }
        ensures cause { HasCause (N.faults self.old.nodes.store.now) (N.faults self.new.nodes.store.now) result }
        ensures keeps { KeepsBlock (keep_of self.old) (number / 512) (kept_of self.old) (kept_of self.new) self.old.nodes.store.now self.new.nodes.store.now result }
        ensures keep { keep_of self.new ≡ keep_of self.old }
        ensures kept { AreKept (keep_of self.new) (kept_of self.new) }
    {
        self.looked = self.looked.saturating_add(1);
        match self.cache.word(number) {
            Some(word) => {
                reads.tick();
                Ok(word)
            }
            None => self.read(number, reads),
        }
    }
}
