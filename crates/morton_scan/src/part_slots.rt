//! Lent slots of a part that are filled, searched and cleared at the cost of the cells that are filled.

ghost use Rattle.std.specs.Prelude.{◌≡◌, ℕ, Bool, ◌+◌, ◌-◌, ◌*◌, ◌^◌, ◌<◌, ◌≤◌, length, slice_index, MatchOption};
ghost use Rattle.dev_traits.specs.Faults.{HasCause};
ghost use Rattle.octree_specs.specs.Parts.{passing, PassWhereMet};
ghost use Rattle.tri_partition.specs.PartStreams.{HasStream};
ghost use Rattle.morton_scan.specs.FilledParts.{AddsTriangles, TakesParcels};
ghost use Rattle.morton_scan.specs.NextCells.{HasNoCellFrom, IsNextCell};
ghost use Rattle.morton_scan.specs.Putting.{ArePut, MeetsInPart, first_of_part};

use crate::cells::{FilledCell, next_touched_code};
use crate::filling::fill_touched;
use crate::parts::fill_parcels;
use bit_grid::{TouchedBlocks, clear_slots, clear_touched};
use dev_traits::{Failed, Scratch};
use std::marker::Model;
use std::sync::ledger::Ledger;
use svo_base::{Grid, Steps, Triangle};

/// The lent slots of one part after another. Which blocks of slots were touched is remembered, so that
/// to fill a part, to list its cells and to clear its slots again costs what is filled, and not what
/// there is room for.
#[derive(Drop)]
pub struct PartSlots<'a> {
    slots: &'a mut [u32],
    blocks: TouchedBlocks,
}

impl<'a> Model for PartSlots<'a> {
    ghost use Rattle.std.specs.Prelude.{List, ℕ};
    ghost use Rattle.bit_grid.specs.Touched.{AreTouched};

    ghost Value = { List ℕ };

    ghost view = { λ s. s.slots.now };

    ghost invariant = { λ s. AreTouched s.slots.now s.blocks };
}

impl<'a> PartSlots<'a> {
    /// All slots are cleared, once.
    pub fn new(slots: &'a mut [u32]) -> PartSlots<'a>
        ensures empty { (place : ℕ) → slice_index result place ≡ 0 }
        ensures length { length result ≡ length slots.old }
    {
        clear_slots(slots);
        let blocks = TouchedBlocks::none(slots.len());
        PartSlots { slots, blocks }
    }

    /// How many slots there are.
    pub fn len(&self) -> usize
        ensures { result ≡ length self.now }
    {
        self.slots.len()
    }

    /// Puts a face into the slots of all cells of a part that its triangle meets; all other slots
    /// stay. See `fill_triangle`.
    pub fn fill_triangle<L: Ledger>(
        &mut self,
        grid: &Grid,
        split: u32,
        part: u32,
        triangle: &Triangle,
        face: u32,
        tests: &mut Steps<L>,
    )
        requires split { split ≤ grid.now.depth }
        requires part { part < 8 ^ split }
        requires slots { 8 ^ (grid.now.depth - split) ≤ length self.old }
        requires face { face + 1 < 2 ^ 32 }
        ensures slots { ArePut (MeetsInPart grid.now split part triangle.now) (first_of_part grid.now split part) face self.old self.new }
        ensures length { length self.new ≡ length self.old }
        ensures tests { (test : ℕ → ℕ → Bool) → PassWhereMet grid.now triangle.now test → tests.new ≤ tests.old + 1 + 8 * passing test (grid.now.depth - split) part }
    {
        let slots = &mut *self.slots;
        let blocks = &mut self.blocks;
        fill_touched(grid, split, part, triangle, face, slots, blocks, tests);
    }

    /// Adds the parcels of a part's stream. Slots that were cleared are then those that `fill_part`
    /// leaves.
    ///
    /// # Errors
    ///
    /// `Failed`: the scratch refused a call. The first parcels of the stream were added.
    pub fn fill_part<S: Scratch, L: Ledger>(
        &mut self,
        grid: &Grid,
        split: u32,
        part: u32,
        block: &mut [u8],
        scratch: &mut S,
        tests: &mut Steps<L>,
    ) -> Result<(), Failed>
        requires split { split ≤ grid.now.depth }
        requires part { part < 8 ^ split }
        requires block { 40 ≤ length block.old }
        requires slots { 8 ^ (grid.now.depth - split) ≤ length self.old }
        requires stream { HasStream (S.started scratch.old) part }
        ensures filled { TakesParcels grid.now split part (S.told scratch.old) tests.old tests.new result (AddsTriangles grid.now split part self.old self.new) }
        ensures length { length self.new ≡ length self.old }
        ensures told { S.told scratch.new ≡ S.told scratch.old }
        ensures started { S.started scratch.new ≡ S.started scratch.old }
        ensures asked { S.asked scratch.new ≡ S.asked scratch.old }
        ensures cause { HasCause (S.faults scratch.old) (S.faults scratch.new) result }
    {
        let slots = &mut *self.slots;
        let blocks = &mut self.blocks;
        fill_parcels(grid, split, part, block, slots, blocks, scratch, tests)
    }

    /// The filled cell of a part with the least code from `from` on, if there is one. See `next_code`.
    pub fn next_code(&self, part: u32, codes: u64, from: u64) -> Option<FilledCell>
        requires slots { codes ≤ length self.now }
        requires codes { (part + 1) * codes ≤ 2 ^ 60 }
        ensures { MatchOption result (HasNoCellFrom self.now (part * codes) codes from) (λ cell. IsNextCell self.now (part * codes) codes from cell.code cell.face) }
    {
        next_touched_code(self.slots, &self.blocks, part, codes, from)
    }

    /// Clears all slots. Only those of blocks that were touched are written.
    pub fn clear(&mut self)
        ensures empty { (place : ℕ) → slice_index self.new place ≡ 0 }
        ensures length { length self.new ≡ length self.old }
    {
        let slots = &mut *self.slots;
        let blocks = &mut self.blocks;
        clear_touched(slots, blocks);
    }
}
