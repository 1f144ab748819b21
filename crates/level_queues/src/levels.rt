//! The queues of the levels.

ghost use Rattle.std.specs.Prelude.{◌≡◌, ◌+◌, ◌-◌, ◌*◌, ◌/◌, ◌%◌, ◌^◌, ◌<◌, ◌≤◌, ℕ, suc, length, slice_index_or};
ghost use Rattle.svo_base.specs.declared.grids.TheConstants.{MAX_DEPTH};

use crate::codes::{ancestor, turning_height};
use crate::entries::write_entries;
use dev_traits::{ByteSink, Failed};
use node_file::{NodeWriter, Totals};
use room_plan::{QueueEntry, Queues};
use std::sync::ledger::Ledger;
use svo_base::{MAX_LEVELS, Steps};

/// The nonempty nodes of an octree whose parents are not complete yet, in a queue of up to eight for
/// each level below the root.
///
/// Cells come in ascending order of their codes. A push closes the levels whose nodes the new code
/// leaves: each closed queue's words are given to the writer, and one parent is placed a level higher.
/// The order of words is that of Baert, Lagae and Dutré (2013): children before their parent, siblings
/// together. After a fault the queues are only dropped.
#[derive(Drop)]
pub struct LevelQueues<'a> {
    depth: u32,
    // The queue of height h, which is the number of levels from its nodes down to the cells, has eight
    // entries from place 8 * h on, of which the first `counts[h]` wait.
    queues: Queues<'a>,
    counts: [usize; MAX_LEVELS],
    last: u64,
    cells: u64,
    words: u64,
    ghost least: { 0 < depth },
    ghost most: { depth ≤ MAX_DEPTH },
    ghost room: { length queues.entries ≡ 8 * depth },
    ghost wide: { length counts ≡ MAX_DEPTH },
    ghost rows: { (k : ℕ) → slice_index_or counts k 0 ≤ 8 },
    ghost inside: { last < 8 ^ depth },
    ghost few: { cells ≤ last + 1 },
}

impl<'a> LevelQueues<'a> {
    ghost use Rattle.std.specs.Prelude.{[], ◌∷◌, ◌++◌, ◌≢◌, List, slice_set, IfOk, OnOk};
    ghost use Rattle.dev_traits.specs.Faults.{HasCause};
    ghost use Rattle.node_file.specs.Writing.{given, waiting};
    ghost use Rattle.level_queues.specs.GivenWords.{with_words, words_in};
    ghost use Rattle.octree_specs.specs.Cells.{Cell};
    ghost use Rattle.octree_specs.specs.Formats.{file_words};
    ghost use Rattle.octree_specs.specs.Octree.{Leaf};
    ghost use Rattle.level_queues.specs.Queued.{queue_of, bits_of, written_of};
    ghost use Rattle.level_queues.specs.Fronts.{Ascend, GrewByWords, GrewToward};
    ghost use Rattle.level_queues.specs.Pushed.{IsQueuedAt, IsQueued, lowest_of, GoesOn};

    /// Empty queues for an octree of this depth, over entries whose contents do not matter.
    pub fn new(depth: u32, queues: Queues<'a>) -> LevelQueues<'a>
        requires least { 0 < depth }
        requires most { depth ≤ MAX_DEPTH }
        requires room { length queues.entries ≡ 8 * depth }
        ensures queued { IsQueued [] result [] }
        ensures depth { result.depth ≡ depth }
        ensures placed { result.queues.placed ≡ queues.entry.placed }
    {
        LevelQueues {
            depth,
            queues,
            counts: [0; MAX_LEVELS],
            last: 0,
            cells: 0,
            words: 0,
        }
    }

    /// Puts a filled cell with its face behind those before. The words of each level that it leaves
    /// are given to the writer, and the numbers of moves by `moves` and by `placed` are at most the
    /// depth. It is refused only where the writer's sink counted a fault. At every answer the sink grew
    /// by a front of what waited and of the words that come next in the file, whatever cells follow
    /// this one.
    ///
    /// Cells come in ascending order, nothing failed before, and the writer was given no other word
    /// than these queues gave it.
    pub fn push<O: ByteSink, L: Ledger>(
        &mut self,
        code: u64,
        face: u32,
        writer: &mut NodeWriter<'_, O>,
        moves: &mut Steps<L>,
    ) -> Result<(), Failed>
        requires inside { code < 8 ^ self.old.depth }
        requires after { 0 < self.old.cells → self.old.last < code }
        requires face { face ≤ 2 ^ 32 - 2 }
        requires queued { (cells : List Cell) × (words : List ℕ) × IsQueued cells self.old words }
        requires records { writer.old.records ≡ self.old.words }
        ensures queued { OnOk result ((cells : List Cell) → (words : List ℕ) → IsQueued cells self.old words
            → GoesOn words (given writer.old) (given writer.new) (IsQueued (cells ++ record { code = code; face = face } ∷ []) self.new)) }
        ensures records { OnOk result (writer.new.records ≡ self.new.words) }
        ensures sink { writer.new.sink.ghost_name ≡ writer.old.sink.ghost_name }
        ensures depth { self.new.depth ≡ self.old.depth }
        ensures last { OnOk result (self.new.last ≡ code) }
        ensures cells { OnOk result (self.new.cells ≡ self.old.cells + 1) }
        ensures placed { self.new.queues.placed ≤ self.old.queues.placed + self.old.depth }
        ensures moves { moves.new ≤ moves.old + self.old.depth }
        ensures front { (cells : List Cell) → (words : List ℕ) → IsQueued cells self.old words
            → (later : List Cell) → Ascend self.old.depth (cells ++ record { code = code; face = face } ∷ later)
            → GrewToward words (file_words 2 self.old.depth (cells ++ record { code = code; face = face } ∷ later)) (O.written writer.old.sink.now) (O.written writer.new.sink.now) (waiting writer.old) }
        ensures cause { HasCause (O.faults writer.old.sink.now) (O.faults writer.new.sink.now) result }
    {
        let target = self.target(code);
        self.close_below(target, writer, moves)?;
        self.put_cell(code, face, moves);
        Ok(())
    }

    /// Gives the words that still wait and the root's word, and answers how many words there are in
    /// all, and how many cells were pushed: the words added since `new` are those of the file of
    /// format 2 of the pushed cells. It is refused only where the writer's sink counted a fault. At
    /// every answer the sink grew by a front of what waited and of the words that come next in that
    /// file.
    ///
    /// The conditions are those of `push`. Afterwards the queues are only dropped.
    pub fn finish<O: ByteSink, L: Ledger>(
        &mut self,
        writer: &mut NodeWriter<'_, O>,
        moves: &mut Steps<L>,
    ) -> Result<Totals, Failed>
        requires queued { (cells : List Cell) × (words : List ℕ) × IsQueued cells self.old words }
        requires records { writer.old.records ≡ self.old.words }
        ensures words { OnOk result ((cells : List Cell) → (words : List ℕ) → IsQueued cells self.old words
            → GoesOn words (given writer.old) (given writer.new) (λ all. all ≡ file_words 2 self.old.depth cells)) }
        ensures totals { IfOk result (λ totals. (cells : List Cell) → (words : List ℕ) → IsQueued cells self.old words
            → totals ≡ record { records = length (file_words 2 self.old.depth cells); cells = length cells }) }
        ensures records { IfOk result (λ totals. writer.new.records ≡ totals.records) }
        ensures sink { writer.new.sink.ghost_name ≡ writer.old.sink.ghost_name }
        ensures placed { self.new.queues.placed ≤ self.old.queues.placed + self.old.depth }
        ensures moves { moves.new ≤ moves.old + self.old.depth }
        ensures front { (cells : List Cell) → (words : List ℕ) → IsQueued cells self.old words
            → GrewToward words (file_words 2 self.old.depth cells) (O.written writer.old.sink.now) (O.written writer.new.sink.now) (waiting writer.old) }
        ensures cause { HasCause (O.faults writer.old.sink.now) (O.faults writer.new.sink.now) result }
    {
        let top = self.depth - 1;
        self.close_below(top, writer, moves)?;
        let root = self.write_row(top, writer)?;
        writer.add(root)?;
        Ok(Totals {
            records: self.words + 1,
            cells: self.cells,
        })
    }

    /// The height below which nothing waits between two pushes.
    fn lowest(&self) -> u32
        ensures { result ≡ lowest_of self.now }
    {
        if self.cells == 0 { self.depth - 1 } else { 0 }
    }

    /// The height below which all is closed before this code is put.
    fn target(&self, code: u64) -> u32
        requires inside { code < 8 ^ self.now.depth }
        ensures within { result < self.now.depth }
        ensures reached { lowest_of self.now ≤ result }
        ensures same { code / 8 ^ (result + 1) ≡ self.now.last / 8 ^ (result + 1) }
        ensures apart { 0 < self.now.cells → 0 < result → code / 8 ^ result ≢ self.now.last / 8 ^ result }
    {
        if self.cells == 0 {
            return self.depth - 1;
        }
        turning_height(self.last, code, self.depth)
    }

    /// Closes all heights below this one.
    fn close_below<O: ByteSink, L: Ledger>(
        &mut self,
        target: u32,
        writer: &mut NodeWriter<'_, O>,
        moves: &mut Steps<L>,
    ) -> Result<(), Failed>
        requires target { target < self.old.depth }
        requires reached { lowest_of self.old ≤ target }
        requires queued { (leaves : List Leaf) × (words : List ℕ) × IsQueuedAt leaves (lowest_of self.old) self.old words }
        requires records { writer.old.records ≡ self.old.words }
        ensures queued { OnOk result ((leaves : List Leaf) → (words : List ℕ) → IsQueuedAt leaves (lowest_of self.old) self.old words
            → GoesOn words (given writer.old) (given writer.new) (IsQueuedAt leaves target self.new)) }
        ensures records { OnOk result (writer.new.records ≡ self.new.words) }
        ensures sink { writer.new.sink.ghost_name ≡ writer.old.sink.ghost_name }
        ensures depth { self.new.depth ≡ self.old.depth }
        ensures last { self.new.last ≡ self.old.last }
        ensures cells { self.new.cells ≡ self.old.cells }
        ensures placed { self.new.queues.placed + lowest_of self.old ≤ self.old.queues.placed + target }
        ensures moves { moves.new + lowest_of self.old ≤ moves.old + target }
        ensures front { (leaves : List Leaf) → (words : List ℕ) → IsQueuedAt leaves (lowest_of self.old) self.old words
            → GrewToward words (written_of leaves (self.old.depth - suc target) target (self.old.last / 8 ^ suc target)) (O.written writer.old.sink.now) (O.written writer.new.sink.now) (waiting writer.old) }
        ensures cause { HasCause (O.faults writer.old.sink.now) (O.faults writer.new.sink.now) result }
    {
        for height in self.lowest()..target {
            self.close(height, writer, moves)?;
        }
        Ok(())
    }

    /// Gives the words of a height's queue, and places their parent in the next.
    fn close<O: ByteSink, L: Ledger>(
        &mut self,
        height: u32,
        writer: &mut NodeWriter<'_, O>,
        moves: &mut Steps<L>,
    ) -> Result<(), Failed>
        requires height { height + 1 < self.old.depth }
        requires queued { (leaves : List Leaf) × (words : List ℕ) × IsQueuedAt leaves height self.old words }
        requires records { writer.old.records ≡ self.old.words }
        ensures queued { OnOk result ((leaves : List Leaf) → (words : List ℕ) → IsQueuedAt leaves height self.old words
            → GoesOn words (given writer.old) (given writer.new) (IsQueuedAt leaves (height + 1) self.new)) }
        ensures records { OnOk result (writer.new.records ≡ self.new.words) }
        ensures sink { writer.new.sink.ghost_name ≡ writer.old.sink.ghost_name }
        ensures depth { self.new.depth ≡ self.old.depth }
        ensures last { self.new.last ≡ self.old.last }
        ensures cells { self.new.cells ≡ self.old.cells }
        ensures placed { self.new.queues.placed ≤ self.old.queues.placed + 1 }
        ensures moves { moves.new ≤ moves.old + 1 }
        ensures front { GrewByWords (O.written writer.old.sink.now) (O.written writer.new.sink.now) (waiting writer.old) (words_in (queue_of self.old.queues.entries self.old.counts height)) }
        ensures cause { HasCause (O.faults writer.old.sink.now) (O.faults writer.new.sink.now) result }
    {
        let word = self.write_row(height, writer)?;
        let state = ancestor(self.last, height + 1);
        self.put(height + 1, QueueEntry { word, state }, moves);
        Ok(())
    }

    /// Gives the words of a height's queue, which is empty then, and answers their parent's word.
    fn write_row<O: ByteSink>(
        &mut self,
        height: u32,
        writer: &mut NodeWriter<'_, O>,
    ) -> Result<u64, Failed>
        requires height { height < self.old.depth }
        requires few { self.old.words ≤ 2 ^ 40 }
        requires records { writer.old.records ≡ self.old.words }
        ensures word { IfOk result (λ word. word ≡ bits_of (queue_of self.old.queues.entries self.old.counts height) + 256 * self.old.words) }
        ensures given { OnOk result (given writer.new ≡ with_words (given writer.old) (words_in (queue_of self.old.queues.entries self.old.counts height))) }
        ensures words { OnOk result (self.new.words ≡ self.old.words + slice_index_or self.old.counts height 0) }
        ensures counts { OnOk result (self.new.counts ≡ slice_set self.old.counts height 0) }
        ensures records { OnOk result (writer.new.records ≡ self.new.words) }
        ensures sink { writer.new.sink.ghost_name ≡ writer.old.sink.ghost_name }
        ensures queues { self.new.queues ≡ self.old.queues }
        ensures depth { self.new.depth ≡ self.old.depth }
        ensures last { self.new.last ≡ self.old.last }
        ensures cells { self.new.cells ≡ self.old.cells }
        ensures front { GrewByWords (O.written writer.old.sink.now) (O.written writer.new.sink.now) (waiting writer.old) (words_in (queue_of self.old.queues.entries self.old.counts height)) }
        ensures cause { HasCause (O.faults writer.old.sink.now) (O.faults writer.new.sink.now) result }
    {
        let row = height as usize;
        let count = self.counts[row];
        let bits = write_entries(&self.queues, 8 * row, count, writer)?;
        let word = bits + 256 * self.words;
        self.words += count as u64;
        self.counts[row] = 0;
        Ok(word)
    }

    /// Places the entry of a cell in the lowest queue.
    fn put_cell<L: Ledger>(&mut self, code: u64, face: u32, moves: &mut Steps<L>)
        requires inside { code < 8 ^ self.old.depth }
        requires after { 0 < self.old.cells → self.old.last < code }
        requires room { slice_index_or self.old.counts 0 0 < 8 }
        ensures entries { self.new.queues.entries ≡ slice_set self.old.queues.entries (8 * 0 + slice_index_or self.old.counts 0 0) (record { word = 1 + 256 * face; state = code }) }
        ensures placed { self.new.queues.placed ≤ self.old.queues.placed + 1 }
        ensures counts { self.new.counts ≡ slice_set self.old.counts 0 (slice_index_or self.old.counts 0 0 + 1) }
        ensures depth { self.new.depth ≡ self.old.depth }
        ensures last { self.new.last ≡ code }
        ensures cells { self.new.cells ≡ self.old.cells + 1 }
        ensures words { self.new.words ≡ self.old.words }
        ensures moves { moves.new ≡ moves.old + 1 }
    {
        let word = 1 + 256 * u64::from(face);
        self.put(0, QueueEntry { word, state: code }, moves);
        self.last = code;
        self.cells += 1;
    }

    /// Places an entry behind those of a height's queue.
    fn put<L: Ledger>(&mut self, height: u32, entry: QueueEntry, moves: &mut Steps<L>)
        requires height { height < self.old.depth }
        requires room { slice_index_or self.old.counts height 0 < 8 }
        ensures entries { self.new.queues.entries ≡ slice_set self.old.queues.entries (8 * height + slice_index_or self.old.counts height 0) entry }
        ensures placed { self.new.queues.placed ≤ self.old.queues.placed + 1 }
        ensures counts { self.new.counts ≡ slice_set self.old.counts height (slice_index_or self.old.counts height 0 + 1) }
        ensures depth { self.new.depth ≡ self.old.depth }
        ensures last { self.new.last ≡ self.old.last }
        ensures cells { self.new.cells ≡ self.old.cells }
        ensures words { self.new.words ≡ self.old.words }
        ensures moves { moves.new ≡ moves.old + 1 }
    {
        let row = height as usize;
        let count = self.counts[row];
        self.queues.place(8 * row + count, entry, moves);
        self.counts[row] = count + 1;
    }
}
