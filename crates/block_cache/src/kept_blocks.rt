//! Blocks that are kept, the last used first.

ghost use Rattle.std.specs.Prelude.{◌≡◌, ◌+◌, ◌*◌, ◌/◌, ◌%◌, ◌<◌, ◌≤◌, ◌⊎◌, [], nat_eq, length, option_map, IfOk, IfSome};
ghost use Rattle.std.specs.Int.{w64, from_le_bytes};
ghost use Rattle.std.specs.Map.{lookup, keys_of};
ghost use Rattle.lru.specs.LruCache.{lru_cache, promoted, put_entries};
ghost use Rattle.block_cache.specs.Kept.{word_at, front_of, AreKept};

use lru::LruCache;
use std::alloc::{AllocError, Global};
use std::marker::Model;
use std::num::NonZeroUsize;

/// How many words a block has; the last of a file may have fewer.
pub const BLOCK_WORDS: u64 = 512;

/// How many bytes a word has.
pub const WORD_SIZE: usize = 8;

/// The bytes of words in a row.
#[derive(Drop)]
pub struct Block {
    bytes: Vec<u8>,
}

impl Model for Block {
    ghost use Rattle.std.specs.Prelude.{List, ℕ};

    ghost Value = { List ℕ };

    ghost view = { λ b. b.bytes.items };
}

impl Block {
    /// The block of these bytes.
    pub fn new(bytes: Vec<u8>) -> Block
        ensures { result ≡ bytes.items }
    {
        Block { bytes }
    }

    /// The word at a place, counted from the block's first.
    pub fn word(&self, at: u64) -> u64
        requires place { at < 512 }
        requires there { 8 * at + 8 ≤ length self.now }
        ensures { result ≡ word_at self.now at }
    {
        let from = WORD_SIZE * at as usize;
        u64::from_le_bytes(self.bytes[from..from + WORD_SIZE].try_into().unwrap())
    }
}

/// Room for blocks of a node file. It is made once, and lent to [`Blocks`](crate::Blocks).
#[derive(Drop)]
pub struct BlockCache {
    alloc: Global,
    blocks: LruCache<u64, Block>,
}

impl Model for BlockCache {
    ghost use Rattle.std.specs.Prelude.{List, ℕ, nat_eq};
    ghost use Rattle.lru.specs.LruCache.{LruCache as Entries, IsValid};

    ghost Value = { Entries ℕ (List ℕ) };

    ghost view = { λ c. c.blocks };

    ghost invariant = { λ c. IsValid nat_eq c.blocks };
}

impl BlockCache {
    /// A cache that keeps at most `keep` blocks. Their own memory is asked for as they come.
    ///
    /// # Errors
    ///
    /// `AllocError`: there is no memory for the table of the blocks' numbers.
    pub fn make(alloc: Global, keep: usize) -> Result<BlockCache, AllocError>
        requires { (1 ≤ keep) × (keep ≤ 65536) }
        ensures { IfOk result (λ cache. cache ≡ lru_cache [] keep) }
    {
        let blocks = LruCache::new(alloc, NonZeroUsize::new(keep).unwrap())?;
        blocks.len();
        Ok(BlockCache { alloc, blocks })
    }

    /// Lets all blocks go.
    pub fn clear(&mut self)
        ensures { self.new ≡ lru_cache [] self.old.cap }
    {
        self.blocks.clear();
        self.blocks.len();
    }

    /// The allocator of the blocks.
    pub fn allocator(&self) -> Global {
        self.alloc
    }

    /// The word of a number, where the block last used has it. This needs no look-up.
    fn front_word(&self, number: u64) -> Option<u64>
        requires { IfSome (front_of (number / 512) self.now.entries) (λ bytes. 8 * (number % 512) + 8 ≤ length bytes) }
        ensures { result ≡ option_map (λ bytes. word_at bytes (number % 512)) (front_of (number / 512) self.now.entries) }
    {
        match self.blocks.peek_mru() {
            Some((block, bytes)) if *block == number / BLOCK_WORDS => {
                Some(bytes.word(number % BLOCK_WORDS))
            }
            _ => None,
        }
    }

    /// The word of a number, where its block is kept. The block is then the one last used.
    pub fn word(&mut self, number: u64) -> Option<u64>
        requires { IfSome (lookup (nat_eq (number / 512)) self.old.entries) (λ bytes. 8 * (number % 512) + 8 ≤ length bytes) }
        ensures word { result ≡ option_map (λ bytes. word_at bytes (number % 512)) (lookup (nat_eq (number / 512)) self.old.entries) }
        ensures entries { self.new ≡ lru_cache (promoted (nat_eq (number / 512)) self.old.entries) self.old.cap }
        ensures kept { AreKept self.new.cap (keys_of self.new.entries) }
    {
        if let Some(word) = self.front_word(number) {
            self.blocks.len();
            return Some(word);
        }
        self.found_word(number)
    }

    /// The same by a look-up.
    fn found_word(&mut self, number: u64) -> Option<u64>
        requires { IfSome (lookup (nat_eq (number / 512)) self.old.entries) (λ bytes. 8 * (number % 512) + 8 ≤ length bytes) }
        ensures word { result ≡ option_map (λ bytes. word_at bytes (number % 512)) (lookup (nat_eq (number / 512)) self.old.entries) }
        ensures entries { self.new ≡ lru_cache (promoted (nat_eq (number / 512)) self.old.entries) self.old.cap }
        ensures kept { AreKept self.new.cap (keys_of self.new.entries) }
    {
        let word = match self.blocks.get(&(number / BLOCK_WORDS)) {
            Some(bytes) => Some(bytes.word(number % BLOCK_WORDS)),
            None => None,
        };
        self.blocks.len();
        word
    }

    /// Keeps a block as the one last used. The one used longest ago leaves where there would be too many.
    /// Where there is no memory for its number, it is not kept.
    pub fn keep(&mut self, block: u64, bytes: Block)
        ensures entries { (self.new ≡ lru_cache (put_entries nat_eq self.old block bytes) self.old.cap) ⊎ (self.new ≡ self.old) }
        ensures kept { AreKept self.new.cap (keys_of self.new.entries) }
    {
        if self.blocks.put(block, bytes).is_err() {
            return;
        }
        self.blocks.len();
    }
}
