//! One of the two files of a pair.

ghost use Rattle.std.specs.Prelude.{ℕ, List, Option, ◌≡◌, ◌+◌, ◌-◌, ◌*◌, ◌^◌, ◌<◌, ◌≤◌, true, false, Some, length, take, drop, IfSome, OnOk, OnErr, IsSome};
ghost use Rattle.std.specs.Int.{w64, from_le_bytes};
ghost use Rattle.dev_traits.specs.Faults.{HasCause};
ghost use Rattle.dev_traits.specs.Files.{NamedFile, current_bytes, HasBytes};
ghost use Rattle.node_file.specs.Told.{GivesWord};
ghost use Rattle.node_merge.specs.PairFrames.{IsFrameIn};
ghost use Rattle.node_merge.specs.Paired.{half_view, IsHalf, GivesIn};

use dev_traits::{Failed, NodeStore};
use node_file::Frame;

/// How many bytes stand before the words.
const HEADER_SIZE: u64 = 48;

/// How many bytes a word has.
const WORD_SIZE: u64 = 8;

/// How many words a block has.
const BLOCK_WORDS: u64 = 512;

/// A framed file of a store, and a block of its words.
#[derive(Drop)]
pub struct Half<'a> {
    pub name: &'a str,
    pub frame: Frame,
    /// Whether the file is known to be the store's current one.
    pub current: bool,
    pub block: [u8; 4096],
    // The block holds so many words, from this number on.
    pub first: u64,
    pub held: u64,
}

/// A file whose block holds no word yet.
pub fn half_of<'a>(name: &'a str, frame: Frame) -> Half<'a>
    ensures half { (told : Option (List NamedFile)) → (current : Option (List ℕ)) → IsFrameIn told name.now frame → IsHalf told current result }
    ensures frame { result.frame ≡ frame }
    ensures name { result.name.now ≡ name.now }
{
    Half {
        name,
        frame,
        current: false,
        block: [0; 4096],
        first: 0,
        held: 0,
    }
}

/// The word of a number, of which the block is read where it does not hold it. The file is made the
/// current one where it is not known to be.
pub fn half_word<N: NodeStore>(
    store: &mut N,
    half: &mut Half<'_>,
    number: u64,
) -> Result<u64, Failed>
    requires number { number < half.old.frame.totals.records }
    requires half { IsHalf (N.files store.old) (N.current store.old) half.old }
    ensures half { IsHalf (N.files store.new) (N.current store.new) half.new }
    ensures word { GivesWord (half_view (N.files store.old) half.old).words number result }
    ensures view { half_view (N.files store.new) half.new ≡ half_view (N.files store.old) half.old }
    ensures name { half.new.name.now ≡ half.old.name.now }
    ensures files { N.files store.new ≡ N.files store.old }
    ensures cause { HasCause (N.faults store.old) (N.faults store.new) result }
{
    fetch(store, half, number)?;
    Ok(held_word(half, number))
}

/// Has the word of a number in the block.
fn fetch<N: NodeStore>(store: &mut N, half: &mut Half<'_>, number: u64) -> Result<(), Failed>
    requires number { number < half.old.frame.totals.records }
    requires half { IsHalf (N.files store.old) (N.current store.old) half.old }
    ensures half { IsHalf (N.files store.new) (N.current store.new) half.new }
    ensures held { OnOk result ((half.new.first ≤ number) × (number < half.new.first + half.new.held)) }
    ensures view { half_view (N.files store.new) half.new ≡ half_view (N.files store.old) half.old }
    ensures name { half.new.name.now ≡ half.old.name.now }
    ensures files { N.files store.new ≡ N.files store.old }
    ensures cause { HasCause (N.faults store.old) (N.faults store.new) result }
{
    if half.first <= number && number - half.first < half.held {
        return Ok(());
    }
    make_current(store, half)?;
    fill(store, half, number)
}

/// Makes the file the store's current one.
fn make_current<N: NodeStore>(store: &mut N, half: &mut Half<'_>) -> Result<(), Failed>
    requires half { IsHalf (N.files store.old) (N.current store.old) half.old }
    ensures half { IsHalf (N.files store.new) (N.current store.new) half.new }
    ensures current { OnOk result (half.new.current ≡ true) }
    ensures frame { half.new.frame ≡ half.old.frame }
    ensures name { half.new.name.now ≡ half.old.name.now }
    ensures files { N.files store.new ≡ N.files store.old }
    ensures cause { HasCause (N.faults store.old) (N.faults store.new) result }
{
    if half.current {
        return Ok(());
    }
    let name = half.name;
    store.select(name)?;
    half.current = true;
    Ok(())
}

/// Reads the block that has the word of a number.
fn fill<N: NodeStore>(store: &mut N, half: &mut Half<'_>, number: u64) -> Result<(), Failed>
    requires number { number < half.old.frame.totals.records }
    requires current { half.old.current ≡ true }
    requires half { IsHalf (N.files store.old) (N.current store.old) half.old }
    ensures half { IsHalf (N.files store.new) (N.current store.new) half.new }
    ensures held { OnOk result ((half.new.first ≤ number) × (number < half.new.first + half.new.held)) }
    ensures frame { half.new.frame ≡ half.old.frame }
    ensures name { half.new.name.now ≡ half.old.name.now }
    ensures files { N.files store.new ≡ N.files store.old }
    ensures cause { HasCause (N.faults store.old) (N.faults store.new) result }
{
    let first = number - number % BLOCK_WORDS;
    let held = (half.frame.totals.records - first).min(BLOCK_WORDS);
    half.held = 0;
    read_block(store, first, held, &mut half.block)?;
    half.first = first;
    half.held = held;
    Ok(())
}

/// Fills the front of a block with the bytes of so many words of the current file.
fn read_block<N: NodeStore>(
    store: &mut N,
    from: u64,
    count: u64,
    block: &mut [u8; 4096],
) -> Result<(), Failed>
    requires file { IsSome (N.current store.old) }
    requires few { 48 + 8 * from < 2 ^ 64 }
    requires count { count ≤ 512 }
    requires piece { HasBytes (current_bytes (N.files store.old) (N.current store.old)) (48 + 8 * from) (8 * count) }
    ensures bytes { OnOk result (IfSome (current_bytes (N.files store.old) (N.current store.old)) (λ bytes. take (8 * count) block.new ≡ take (8 * count) (drop (48 + 8 * from) bytes))) }
    ensures files { N.files store.new ≡ N.files store.old }
    ensures current { N.current store.new ≡ N.current store.old }
    ensures cause { HasCause (N.faults store.old) (N.faults store.new) result }
{
    let size = (WORD_SIZE * count) as usize;
    store.read_at(HEADER_SIZE + WORD_SIZE * from, &mut block[..size])?;
    Ok(())
}

/// A word that the block holds.
fn held_word(half: &Half<'_>, number: u64) -> u64
    requires there { (half.now.first ≤ number) × (number < half.now.first + half.now.held) }
    requires held { half.now.held ≤ 512 }
    ensures word { (told : Option (List NamedFile)) → (current : Option (List ℕ)) → IsHalf told current half.now → GivesIn told half.now number result }
{
    let at = (WORD_SIZE * (number - half.first)) as usize;
    word_at(&half.block, at)
}

/// The word in the eight bytes from a place on.
fn word_at(bytes: &[u8; 4096], at: usize) -> u64
    requires { at + 8 ≤ 4096 }
    ensures { result ≡ from_le_bytes w64 (take 8 (drop at bytes.now)) }
{
    u64::from_le_bytes(bytes[at..at + 8].try_into().unwrap())
}
