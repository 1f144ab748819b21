//! A partition: triangles on their way to the parts of a grid.

ghost use Rattle.std.specs.Prelude.{◌≡◌, ◌^◌, ◌<◌, ◌≤◌, [], length, OnOk};
ghost use Rattle.dev_traits.specs.Faults.{HasCause};

use crate::part_ranges::reached_parts;
use crate::second::SecondPartition;
use crate::waiting::{WaitingParcels, parcel_of};
use dev_traits::{Failed, Scratch};
use room_plan::Parcel;
use std::marker::Model;
use svo_base::{Bounds, Grid, Triangle};

/// Assigns triangles to the parts of a grid: the nodes of one level, the split. The parcels of part
/// `r` go to stream `1 + r` of a scratch, 40 bytes each, through a lent pool in which they wait. Where
/// the pool is full, its parcels are sorted by part and appended, those of one part together.
///
/// After a fault the partition is only dropped.
#[derive(Drop)]
pub struct Partition<'a> {
    grid: Grid,
    split: u32,
    parcels: WaitingParcels<'a>,
}

impl<'a> Model for Partition<'a> {
    ghost use Rattle.std.specs.Prelude.{◌≡◌, ◌≤◌};
    ghost use Rattle.tri_partition.specs.Partitioning.{PartitionView};

    ghost Value = { PartitionView };

    ghost view = { λ p. record { grid = p.grid; split = p.split; waiting = p.parcels.waiting } };

    ghost invariant = { λ p. (p.split ≤ 4) × (p.split ≤ p.grid.depth) × (p.parcels.levels ≡ p.split) × (p.parcels.before ≡ 0) };
}

impl<'a> Partition<'a> {
    ghost use Rattle.tri_partition.specs.Partitioning.{PartitionView, SecondView, Spills, parcels_of};

    /// A partition with no triangles. The split is at most 4 and at most the grid's depth, and the pool
    /// has room for a parcel at least.
    pub fn new(grid: Grid, split: u32, pool: &'a mut [Parcel]) -> Partition<'a>
        requires split { split ≤ 4 }
        requires depth { split ≤ grid.depth }
        requires pool { 0 < length pool.old }
        ensures { result ≡ record { grid = grid; split = split; waiting = [] } }
    {
        Partition {
            grid,
            split,
            parcels: WaitingParcels::none(split, 0, pool),
        }
    }

    /// A partition with no triangles for the parts of a level below 4 that lie under one node of level
    /// 4, the one with the number `first`. The split is from 5 to 8 and at most the grid's depth, and
    /// the pool has room for a parcel at least.
    pub fn second(grid: Grid, split: u32, first: u32, pool: &'a mut [Parcel]) -> SecondPartition<'a>
        requires deep { 5 ≤ split }
        requires split { split ≤ 8 }
        requires depth { split ≤ grid.depth }
        requires first { first < 8 ^ 4 }
        requires pool { 0 < length pool.old }
        ensures { result ≡ record { grid = grid; split = split; first = first; waiting = [] } }
    {
        SecondPartition::new(grid, split, first, pool)
    }

    /// Assigns a triangle to each part whose closed cube shares a point with the triangle's bounding
    /// box. Where the box ends on the plane between two parts, it reaches both. A pool that is full is
    /// emptied in between. The streams of all parts must be started.
    ///
    /// # Errors
    ///
    /// `Failed`: the scratch refused an append.
    pub fn add<S: Scratch>(
        &mut self,
        triangle: &Triangle,
        face: u32,
        scratch: &mut S,
    ) -> Result<(), Failed>
        requires { 8 ^ self.old.split < S.started scratch.old }
        ensures added { OnOk result (Spills (S.told scratch.old) (S.told scratch.new) self.old.waiting (parcels_of self.old.grid self.old.split (record { triangle = triangle.now; face = face })) self.new.waiting) }
        ensures grid { self.new.grid ≡ self.old.grid }
        ensures split { self.new.split ≡ self.old.split }
        ensures started { S.started scratch.new ≡ S.started scratch.old }
        ensures asked { S.asked scratch.new ≡ S.asked scratch.old }
        ensures cause { HasCause (S.faults scratch.old) (S.faults scratch.new) result }
    {
        let bounds = Bounds::of_triangle(triangle);
        let xs = reached_parts(&bounds.x, &self.grid, self.split, 0);
        let ys = reached_parts(&bounds.y, &self.grid, self.split, 1);
        let zs = reached_parts(&bounds.z, &self.grid, self.split, 2);
        let parcel = parcel_of(triangle, face);
        self.parcels.add_box(&parcel, &xs, &ys, &zs, scratch)
    }

    /// Appends the parcels that wait. Then each part's stream has grown, since the partition was made,
    /// by the parcels of the part, each as often as it was added, in some order.
    ///
    /// # Errors
    ///
    /// `Failed`: the scratch refused an append.
    pub fn flush<S: Scratch>(&mut self, scratch: &mut S) -> Result<(), Failed>
        requires { 8 ^ self.old.split < S.started scratch.old }
        ensures flushed { OnOk result (Spills (S.told scratch.old) (S.told scratch.new) self.old.waiting [] []) }
        ensures none { OnOk result (self.new.waiting ≡ []) }
        ensures grid { self.new.grid ≡ self.old.grid }
        ensures split { self.new.split ≡ self.old.split }
        ensures started { S.started scratch.new ≡ S.started scratch.old }
        ensures asked { S.asked scratch.new ≡ S.asked scratch.old }
        ensures cause { HasCause (S.faults scratch.old) (S.faults scratch.new) result }
    {
        self.parcels.flush(scratch)
    }
}
