//! A second partition: the triangles of a part of level 4 on their way to the parts below it.

ghost use Rattle.std.specs.Prelude.{◌≡◌, ◌+◌, ◌-◌, ◌^◌, ◌<◌, ◌≤◌, [], length, OnOk};
ghost use Rattle.dev_traits.specs.Faults.{HasCause};

use crate::part_ranges::reached_under;
use crate::waiting::{WaitingParcels, parcel_of};
use dev_traits::{Failed, Scratch};
use morton_code::decode;
use room_plan::Parcel;
use std::marker::Model;
use svo_base::{Bounds, Grid, Triangle};

/// The level whose parts have a stream each from the start.
const FIRST_LEVEL: u32 = 4;

/// How many parts that level has.
const FIRST_PARTS: u32 = 1 << (3 * FIRST_LEVEL);

/// Assigns triangles to the parts of a level, the split, that lie under one node of level 4. The
/// parcels of the part with `q` others of them before it go to stream `4097 + q` of a scratch, behind
/// those of the parts of level 4. All else is as in a partition of the whole grid.
///
/// After a fault the partition is only dropped.
#[derive(Drop)]
pub struct SecondPartition<'a> {
    grid: Grid,
    split: u32,
    first: u32,
    parcels: WaitingParcels<'a>,
}

impl<'a> Model for SecondPartition<'a> {
    ghost use Rattle.std.specs.Prelude.{◌≡◌, ◌≤◌, ◌<◌, ◌-◌, ◌^◌};
    ghost use Rattle.tri_partition.specs.Partitioning.{SecondView};

    ghost Value = { SecondView };

    ghost view = { λ p. record { grid = p.grid; split = p.split; first = p.first; waiting = p.parcels.waiting } };

    ghost invariant = { λ p. (4 ≤ p.split) × (p.split ≤ 8) × (p.split ≤ p.grid.depth) × (p.first < 8 ^ 4) × (p.parcels.levels ≡ p.split - 4) × (p.parcels.before ≡ 8 ^ 4) };
}

impl<'a> SecondPartition<'a> {
    ghost use Rattle.tri_partition.specs.Partitioning.{SecondView, Spills, parcels_under};

    /// A partition with no triangles.
    pub(crate) fn new(
        grid: Grid,
        split: u32,
        first: u32,
        pool: &'a mut [Parcel],
    ) -> SecondPartition<'a>
        requires deep { 5 ≤ split }
        requires split { split ≤ 8 }
        requires depth { split ≤ grid.depth }
        requires first { first < 8 ^ 4 }
        requires pool { 0 < length pool.old }
        ensures { result ≡ record { grid = grid; split = split; first = first; waiting = [] } }
    {
        SecondPartition {
            grid,
            split,
            first,
            parcels: WaitingParcels::none(split - FIRST_LEVEL, FIRST_PARTS, pool),
        }
    }

    /// Assigns a triangle to each part under the node whose closed cube shares a point with the
    /// triangle's bounding box. The streams of these parts must be started.
    ///
    /// # Errors
    ///
    /// `Failed`: the scratch refused an append.
    pub fn add<S: Scratch>(
        &mut self,
        triangle: &Triangle,
        face: u32,
        scratch: &mut S,
    ) -> Result<(), Failed>
        requires { 8 ^ 4 + 8 ^ (self.old.split - 4) < S.started scratch.old }
        ensures added { OnOk result (Spills (S.told scratch.old) (S.told scratch.new) self.old.waiting (parcels_under self.old.grid self.old.split self.old.first (record { triangle = triangle.now; face = face })) self.new.waiting) }
        ensures grid { self.new.grid ≡ self.old.grid }
        ensures split { self.new.split ≡ self.old.split }
        ensures first { self.new.first ≡ self.old.first }
        ensures started { S.started scratch.new ≡ S.started scratch.old }
        ensures asked { S.asked scratch.new ≡ S.asked scratch.old }
        ensures cause { HasCause (S.faults scratch.old) (S.faults scratch.new) result }
    {
        let bounds = Bounds::of_triangle(triangle);
        let (x, y, z) = decode(u64::from(self.first));
        let xs = reached_under(&bounds.x, &self.grid, self.split, 0, x);
        let ys = reached_under(&bounds.y, &self.grid, self.split, 1, y);
        let zs = reached_under(&bounds.z, &self.grid, self.split, 2, z);
        let parcel = parcel_of(triangle, face);
        self.parcels.add_box(&parcel, &xs, &ys, &zs, scratch)
    }

    /// Appends the parcels that wait. Then each part's stream has grown, since the partition was made,
    /// by the parcels of the part, each as often as it was added, in some order.
    ///
    /// # Errors
    ///
    /// `Failed`: the scratch refused an append.
    pub fn flush<S: Scratch>(&mut self, scratch: &mut S) -> Result<(), Failed>
        requires { 8 ^ 4 + 8 ^ (self.old.split - 4) < S.started scratch.old }
        ensures flushed { OnOk result (Spills (S.told scratch.old) (S.told scratch.new) self.old.waiting [] []) }
        ensures none { OnOk result (self.new.waiting ≡ []) }
        ensures grid { self.new.grid ≡ self.old.grid }
        ensures split { self.new.split ≡ self.old.split }
        ensures first { self.new.first ≡ self.old.first }
        ensures started { S.started scratch.new ≡ S.started scratch.old }
        ensures asked { S.asked scratch.new ≡ S.asked scratch.old }
        ensures cause { HasCause (S.faults scratch.old) (S.faults scratch.new) result }
    {
        self.parcels.flush(scratch)
    }
}
