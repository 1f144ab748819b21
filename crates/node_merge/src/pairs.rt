//! Two node files of one store.

ghost use Rattle.std.specs.Prelude.{◌≡◌, ◌+◌, ◌-◌, ◌*◌, ◌^◌, ◌<◌, ◌≤◌, ◌⊎◌, true, false};
ghost use Rattle.dev_traits.specs.Faults.{HasCause, counted};
ghost use Rattle.node_file.specs.FileView.{IsFileView};
ghost use Rattle.node_file.specs.Told.{GivesWord};
ghost use Rattle.node_merge.specs.Paired.{half_view, IsHalf};

use crate::halves::{Half, half_of, half_word};
use crate::pair_loading::{Frames, PairFault, read_frames};
use dev_traits::{Failed, NodeStore};
use node_file::{Frame, Records, Totals};
use std::sync::ledger::Ledger;
use svo_base::{Grid, Steps};

/// Which file of a pair.
#[derive(Clone, Copy, Debug, PartialEq, Eq)]
pub enum Turn {
    First,
    Second,
}

/// Two framed node files of one store, each with a block of its words. The store has one current file,
/// and changes it only where a word of the other file is read that its block does not hold.
#[derive(Drop)]
pub struct Pair<'a, N: NodeStore> {
    store: &'a mut N,
    first: Half<'a>,
    second: Half<'a>,
    ghost first_is: { IsHalf (N.files store.now) (N.current store.now) first },
    ghost second_is: { IsHalf (N.files store.now) (N.current store.now) second },
}

/// A store whose two files could not be loaded, and why. The store is given back, so that its caller
/// knows what it is: a load fails only where the store counted a fault.
#[derive(Drop)]
pub struct UnloadedPair<'a, N: NodeStore> {
    pub store: &'a mut N,
    pub fault: PairFault,
}

impl<'a, N: NodeStore> Pair<'a, N> {
    ghost use Rattle.std.specs.Prelude.{IfOk, IfErr, IfSome, IsTrue, ◌↔◌};
    ghost use Rattle.dev_traits.specs.Files.{file_named};
    ghost use Rattle.node_merge.specs.PairFrames.{FindsFrames, IsFrameIn, FailsOnlyByRise};
    ghost use Rattle.node_merge.specs.Sides.{turn_view, frames_of};
    ghost use Rattle.node_merge.specs.declared.pairs.Turn.TheVariants.{First, Second};

    /// The two node files of these names.
    ///
    /// # Errors
    ///
    /// As [`read_frames`].
    pub fn load(
        store: &'a mut N,
        first: &'a str,
        second: &'a str,
    ) -> Result<Pair<'a, N>, UnloadedPair<'a, N>>
        ensures found { IfSome (N.files store.old) (λ files. FindsFrames (file_named files first.now) (file_named files second.now) (frames_of result)) }
        ensures lent { IfErr result (λ unloaded. unloaded.store.ghost_name ≡ store.entry.ghost_name) }
        ensures kept { IfErr result (λ unloaded. N.files unloaded.store.now ≡ N.files store.old) }
        ensures cause { IfErr result (λ unloaded. FailsOnlyByRise (N.faults store.old) (N.faults unloaded.store.now) (frames_of result)) }
        ensures store { IfOk result (λ pair. pair.store.ghost_name ≡ store.entry.ghost_name) }
        ensures files { IfOk result (λ pair. N.files pair.store.now ≡ N.files store.old) }
        ensures later { IfOk result (λ pair. N.faults store.old ≤ N.faults pair.store.now) }
        ensures names { IfOk result (λ pair. (pair.first.name.now ≡ first.now) × (pair.second.name.now ≡ second.now)) }
    {
        match read_frames(store, first, second) {
            Err(fault) => Err(UnloadedPair { store, fault }),
            Ok(frames) => Ok(Pair::new(store, first, second, frames)),
        }
    }

    /// The words of two files of a store, which have these frames.
    pub fn new(store: &'a mut N, first: &'a str, second: &'a str, frames: Frames) -> Pair<'a, N>
        requires first { IsFrameIn (N.files store.old) first.now frames.first }
        requires second { IsFrameIn (N.files store.old) second.now frames.second }
        ensures store { result.store.ghost_name ≡ store.entry.ghost_name }
        ensures now { result.store.now ≡ store.old }
        ensures frames { (result.first.frame ≡ frames.first) × (result.second.frame ≡ frames.second) }
        ensures names { (result.first.name.now ≡ first.now) × (result.second.name.now ≡ second.now) }
    {
        Pair {
            store,
            first: half_of(first, frames.first),
            second: half_of(second, frames.second),
        }
    }

    /// Whether both files have one grid.
    pub fn has_one_grid(&self) -> bool
        ensures grids { IsTrue result ↔ ((turn_view Second self.now).grid ≡ (turn_view First self.now).grid) }
    {
        self.second.frame.grid == self.first.frame.grid
    }

    /// What the bytes around a file's words say.
    pub fn frame(&self, turn: Turn) -> &Frame
        ensures frame { (result.now.format ≡ (turn_view turn self.now).format) × (result.now.grid ≡ (turn_view turn self.now).grid) × (result.now.totals ≡ (turn_view turn self.now).totals) }
        ensures framed { IsFileView (turn_view turn self.now) }
    {
        match turn {
            Turn::First => &self.first.frame,
            Turn::Second => &self.second.frame,
        }
    }

    /// Reads the word of a number of one of the files.
    pub fn word_of(&mut self, turn: Turn, number: u64) -> Result<u64, Failed>
        requires number { number < (turn_view turn self.old).totals.records }
        ensures word { GivesWord (turn_view turn self.old).words number result }
        ensures first { turn_view First self.new ≡ turn_view First self.old }
        ensures second { turn_view Second self.new ≡ turn_view Second self.old }
        ensures store { self.new.store.ghost_name ≡ self.old.store.ghost_name }
        ensures files { N.files self.new.store.now ≡ N.files self.old.store.now }
        ensures cause { HasCause (N.faults self.old.store.now) (N.faults self.new.store.now) result }
    {
        match turn {
            Turn::First => self.first_word(number),
            Turn::Second => self.second_word(number),
        }
    }

    fn first_word(&mut self, number: u64) -> Result<u64, Failed>
        requires number { number < (turn_view First self.old).totals.records }
        ensures word { GivesWord (turn_view First self.old).words number result }
        ensures first { turn_view First self.new ≡ turn_view First self.old }
        ensures second { turn_view Second self.new ≡ turn_view Second self.old }
        ensures store { self.new.store.ghost_name ≡ self.old.store.ghost_name }
        ensures files { N.files self.new.store.now ≡ N.files self.old.store.now }
        ensures cause { HasCause (N.faults self.old.store.now) (N.faults self.new.store.now) result }
    {
        self.second.current = false;
        half_word(self.store, &mut self.first, number)
    }

    fn second_word(&mut self, number: u64) -> Result<u64, Failed>
        requires number { number < (turn_view Second self.old).totals.records }
        ensures word { GivesWord (turn_view Second self.old).words number result }
        ensures first { turn_view First self.new ≡ turn_view First self.old }
        ensures second { turn_view Second self.new ≡ turn_view Second self.old }
        ensures store { self.new.store.ghost_name ≡ self.old.store.ghost_name }
        ensures files { N.files self.new.store.now ≡ N.files self.old.store.now }
        ensures cause { HasCause (N.faults self.old.store.now) (N.faults self.new.store.now) result }
    {
        self.first.current = false;
        half_word(self.store, &mut self.second, number)
    }
}
