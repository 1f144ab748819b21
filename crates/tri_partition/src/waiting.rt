//! Parcels on their way to the parts under one node of a grid.

ghost use Rattle.std.specs.Prelude.{◌≡◌, ◌+◌, ◌^◌, ◌<◌, ◌≤◌, [], ◌∷◌, length, OnOk};
ghost use Rattle.octree_specs.specs.NodeCube.{code_of};
ghost use Rattle.dev_traits.specs.Faults.{HasCause};
ghost use Rattle.tri_partition.specs.Partitioning.{parcel_of};

use crate::part_ranges::{PartRange, part_at};
use crate::pool::{put, spill};
use dev_traits::{Failed, Scratch};
use room_plan::Parcel;
use std::marker::Model;
use svo_base::Triangle;

/// Parcels that wait in a lent pool, on their way to the parts so many levels below a node. So many
/// parts are numbered before these, and the parcels of a part go to the stream behind its number. Where
/// the pool is full, its parcels are sorted by part and appended, those of one part together.
#[derive(Drop)]
pub struct WaitingParcels<'a> {
    levels: u32,
    before: u32,
    pool: &'a mut [Parcel],
    // So many parcels of the pool wait.
    used: usize,
}

impl<'a> Model for WaitingParcels<'a> {
    ghost use Rattle.std.specs.Prelude.{◌≤◌, ◌<◌, ◌+◌, ◌^◌, All, length, take};
    ghost use Rattle.tri_partition.specs.Partitioning.{WaitingView};

    ghost Value = { WaitingView };

    ghost view = { λ w. record { levels = w.levels; before = w.before; waiting = take w.used w.pool.now } };

    ghost invariant = { λ w. (w.levels ≤ 4) × (w.before ≤ 8 ^ 4) × (0 < length w.pool.now) × (w.used ≤ length w.pool.now) × All (λ parcel. parcel.part < w.before + 8 ^ w.levels) (take w.used w.pool.now) };
}

impl<'a> WaitingParcels<'a> {
    ghost use Rattle.tri_partition.specs.Partitioning.{WaitingView, Spills};
    ghost use Rattle.tri_partition.specs.PartRanges.{row_parcels, layer_parcels, box_parcels};

    /// A pool in which no parcel waits.
    pub fn none(levels: u32, before: u32, pool: &'a mut [Parcel]) -> WaitingParcels<'a>
        requires levels { levels ≤ 4 }
        requires before { before ≤ 8 ^ 4 }
        requires pool { 0 < length pool.old }
        ensures { result ≡ record { levels = levels; before = before; waiting = [] } }
    {
        WaitingParcels {
            levels,
            before,
            pool,
            used: 0,
        }
    }

    /// Adds a parcel for each part of a box.
    pub fn add_box<S: Scratch>(
        &mut self,
        parcel: &Parcel,
        xs: &PartRange,
        ys: &PartRange,
        zs: &PartRange,
        scratch: &mut S,
    ) -> Result<(), Failed>
        requires streams { self.old.before + 8 ^ self.old.levels < S.started scratch.old }
        requires xs { xs.now.to ≤ 2 ^ self.old.levels }
        requires ys { ys.now.to ≤ 2 ^ self.old.levels }
        requires zs { zs.now.to ≤ 2 ^ self.old.levels }
        ensures added { OnOk result (Spills (S.told scratch.old) (S.told scratch.new) self.old.waiting (box_parcels self.old.levels self.old.before parcel.now xs.now ys.now zs.now) self.new.waiting) }
        ensures levels { self.new.levels ≡ self.old.levels }
        ensures before { self.new.before ≡ self.old.before }
        ensures started { S.started scratch.new ≡ S.started scratch.old }
        ensures asked { S.asked scratch.new ≡ S.asked scratch.old }
        ensures cause { HasCause (S.faults scratch.old) (S.faults scratch.new) result }
    {
        for z in zs.from..zs.to {
            self.add_layer(parcel, xs, ys, z, scratch)?;
        }
        Ok(())
    }

    /// Adds a parcel for each part of a layer.
    fn add_layer<S: Scratch>(
        &mut self,
        parcel: &Parcel,
        xs: &PartRange,
        ys: &PartRange,
        z: u32,
        scratch: &mut S,
    ) -> Result<(), Failed>
        requires streams { self.old.before + 8 ^ self.old.levels < S.started scratch.old }
        requires xs { xs.now.to ≤ 2 ^ self.old.levels }
        requires ys { ys.now.to ≤ 2 ^ self.old.levels }
        requires z { z < 2 ^ self.old.levels }
        ensures added { OnOk result (Spills (S.told scratch.old) (S.told scratch.new) self.old.waiting (layer_parcels self.old.levels self.old.before parcel.now xs.now ys.now z) self.new.waiting) }
        ensures levels { self.new.levels ≡ self.old.levels }
        ensures before { self.new.before ≡ self.old.before }
        ensures started { S.started scratch.new ≡ S.started scratch.old }
        ensures asked { S.asked scratch.new ≡ S.asked scratch.old }
        ensures cause { HasCause (S.faults scratch.old) (S.faults scratch.new) result }
    {
        for y in ys.from..ys.to {
            self.add_row(parcel, xs, y, z, scratch)?;
        }
        Ok(())
    }

    /// Adds a parcel for each part of a row.
    fn add_row<S: Scratch>(
        &mut self,
        parcel: &Parcel,
        xs: &PartRange,
        y: u32,
        z: u32,
        scratch: &mut S,
    ) -> Result<(), Failed>
        requires streams { self.old.before + 8 ^ self.old.levels < S.started scratch.old }
        requires xs { xs.now.to ≤ 2 ^ self.old.levels }
        requires y { y < 2 ^ self.old.levels }
        requires z { z < 2 ^ self.old.levels }
        ensures added { OnOk result (Spills (S.told scratch.old) (S.told scratch.new) self.old.waiting (row_parcels self.old.levels self.old.before parcel.now xs.now z y) self.new.waiting) }
        ensures levels { self.new.levels ≡ self.old.levels }
        ensures before { self.new.before ≡ self.old.before }
        ensures started { S.started scratch.new ≡ S.started scratch.old }
        ensures asked { S.asked scratch.new ≡ S.asked scratch.old }
        ensures cause { HasCause (S.faults scratch.old) (S.faults scratch.new) result }
    {
        for x in xs.from..xs.to {
            let part = self.part_at(x, y, z);
            self.put(&parcel_to(parcel, part), scratch)?;
        }
        Ok(())
    }

    /// The number of the part with these coordinates under the node.
    fn part_at(&self, x: u32, y: u32, z: u32) -> u32
        requires x { x < 2 ^ self.now.levels }
        requires y { y < 2 ^ self.now.levels }
        requires z { z < 2 ^ self.now.levels }
        ensures code { result ≡ self.now.before + code_of self.now.levels x y z }
        ensures below { result < self.now.before + 8 ^ self.now.levels }
    {
        self.before + part_at(self.levels, x, y, z)
    }

    /// Has a parcel wait.
    fn put<S: Scratch>(&mut self, parcel: &Parcel, scratch: &mut S) -> Result<(), Failed>
        requires streams { self.old.before + 8 ^ self.old.levels < S.started scratch.old }
        requires part { parcel.now.part < self.old.before + 8 ^ self.old.levels }
        ensures added { OnOk result (Spills (S.told scratch.old) (S.told scratch.new) self.old.waiting (parcel.now ∷ []) self.new.waiting) }
        ensures levels { self.new.levels ≡ self.old.levels }
        ensures before { self.new.before ≡ self.old.before }
        ensures started { S.started scratch.new ≡ S.started scratch.old }
        ensures asked { S.asked scratch.new ≡ S.asked scratch.old }
        ensures cause { HasCause (S.faults scratch.old) (S.faults scratch.new) result }
    {
        let used = self.used;
        self.used = put(self.pool, used, parcel, scratch)?;
        Ok(())
    }

    /// Appends the parcels that wait.
    pub fn flush<S: Scratch>(&mut self, scratch: &mut S) -> Result<(), Failed>
        requires { self.old.before + 8 ^ self.old.levels < S.started scratch.old }
        ensures flushed { OnOk result (Spills (S.told scratch.old) (S.told scratch.new) self.old.waiting [] []) }
        ensures none { OnOk result (self.new.waiting ≡ []) }
        ensures levels { self.new.levels ≡ self.old.levels }
        ensures before { self.new.before ≡ self.old.before }
        ensures started { S.started scratch.new ≡ S.started scratch.old }
        ensures asked { S.asked scratch.new ≡ S.asked scratch.old }
        ensures cause { HasCause (S.faults scratch.old) (S.faults scratch.new) result }
    {
        let used = self.used;
        spill(self.pool, used, scratch)?;
        self.used = 0;
        Ok(())
    }
}

/// A triangle as a parcel, of the first part so far.
#[tactic(auto, unfolding(crate::specs::Partitioning::parcel_of))]
pub fn parcel_of(triangle: &Triangle, face: u32) -> Parcel
    ensures { result ≡ parcel_of (record { triangle = triangle.now; face = face }) 0 }
{
    let Triangle { a, b, c } = triangle;
    Parcel {
        corners: [a.x, a.y, a.z, b.x, b.y, b.z, c.x, c.y, c.z],
        face,
        part: 0,
    }
}

/// The parcel, on its way to another part.
fn parcel_to(parcel: &Parcel, part: u32) -> Parcel
    ensures { result ≡ record { corners = parcel.now.corners; face = parcel.now.face; part = part } }
{
    Parcel { part, ..*parcel }
}
