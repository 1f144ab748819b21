//! A spool of points: first they are put, one after another, and then they are fetched by number.

ghost use Rattle.std.specs.Prelude.{◌≡◌, ℕ, ◌+◌, ◌-◌, ◌*◌, ◌^◌, ◌<◌, ◌≤◌, true, false, [], List, length, get_or, slice_index_or, IfOk, OnOk, IfSome};
ghost use Rattle.std.specs.List.{All};
ghost use Rattle.svo_base.specs.declared.shapes.Point.{Point};
ghost use Rattle.dev_traits.specs.Faults.{HasCause};
ghost use Rattle.dev_traits.specs.Streams.{stream_of, grown_known};
ghost use Rattle.octree_specs.specs.Parcels.{point_bytes, vertex_bytes};
ghost use Rattle.room_plan.specs.Coordinates.{point_at};

use crate::blocks::{BLOCK_POINTS, forget, load, point_of};
use crate::waiting::{append_waiting, make_room, write_point};
use dev_traits::{Failed, Scratch};
use room_plan::VertexBlock;
use std::marker::Model;
use svo_base::Point;

/// Points that stand in stream 0 of a scratch, 12 bytes each. They are put through a lent block, and
/// are read back by number in blocks of 63, of which a window keeps some: the block with number `b`
/// in slot `b` modulo the window's length.
///
/// After a fault the spool is only dropped.
#[derive(Drop)]
pub struct Spool<'a> {
    block: &'a mut [u8],
    window: &'a mut [VertexBlock],
    // So many bytes of the block wait to be appended.
    used: usize,
    // So many points were put.
    count: u64,
    closed: bool,
}

impl<'a> Model for Spool<'a> {
    ghost use Rattle.std.specs.Prelude.{◌≤◌, ◌<◌, ◌^◌, length, take};
    ghost use Rattle.vertex_spool.specs.Spooling.{SpoolView};

    ghost Value = { SpoolView };

    ghost view = { λ s. record { count = s.count; waiting = take s.used s.block.now; closed = s.closed; window = s.window.now } };

    ghost invariant = { λ s. (12 ≤ length s.block.now) × (s.used ≤ length s.block.now) × (0 < length s.window.now) × (s.count < 2 ^ 32) };
}

impl<'a> Spool<'a> {
    ghost use Rattle.vertex_spool.specs.Spooling.{SpoolView, with_waiting, HasPoints, IsPoint};
    ghost use Rattle.room_plan.specs.declared.elements.VertexBlock.{VertexBlock};
    ghost use Rattle.vertex_spool.specs.Window.{AreBlocksOf, point_in};

    /// A spool with no points. What the window held is forgotten.
    pub fn new(block: &'a mut [u8], window: &'a mut [VertexBlock]) -> Spool<'a>
        requires block { 12 ≤ length block.old }
        requires window { 0 < length window.old }
        ensures count { result.count ≡ 0 }
        ensures waiting { result.waiting ≡ [] }
        ensures unclosed { result.closed ≡ false }
        ensures none { (bytes : List ℕ) → AreBlocksOf bytes result.window }
    {
        forget(window);
        Spool {
            block,
            window,
            used: 0,
            count: 0,
            closed: false,
        }
    }

    /// Adds a point behind the others. Where the block has no room for it, the block's points are
    /// appended to the stream first.
    ///
    /// # Errors
    ///
    /// `Failed`: the scratch refused an append.
    pub fn put<S: Scratch>(&mut self, point: Point, scratch: &mut S) -> Result<(), Failed>
        requires unclosed { self.old.closed ≡ false }
        requires few { self.old.count < 2 ^ 32 - 1 }
        requires stream { 0 < S.started scratch.old }
        ensures put { OnOk result (with_waiting (S.told scratch.new) self.new.waiting ≡ grown_known (with_waiting (S.told scratch.old) self.old.waiting) 0 (point_bytes point)) }
        ensures count { OnOk result (self.new.count ≡ self.old.count + 1) }
        ensures unclosed { OnOk result (self.new.closed ≡ false) }
        ensures window { self.new.window ≡ self.old.window }
        ensures started { S.started scratch.new ≡ S.started scratch.old }
        ensures asked { S.asked scratch.new ≡ S.asked scratch.old }
        ensures cause { HasCause (S.faults scratch.old) (S.faults scratch.new) result }
    {
        let used = make_room(scratch, self.block, self.used)?;
        self.used = write_point(self.block, used, &point);
        self.count += 1;
        Ok(())
    }

    /// Appends the points that wait. Then stream 0 holds all points, and they may be fetched.
    ///
    /// # Errors
    ///
    /// `Failed`: the scratch refused an append.
    pub fn close<S: Scratch>(&mut self, scratch: &mut S) -> Result<(), Failed>
        requires stream { 0 < S.started scratch.old }
        ensures all { OnOk result (S.told scratch.new ≡ with_waiting (S.told scratch.old) self.old.waiting) }
        ensures none { OnOk result (self.new.waiting ≡ []) }
        ensures closed { OnOk result (self.new.closed ≡ true) }
        ensures count { self.new.count ≡ self.old.count }
        ensures window { self.new.window ≡ self.old.window }
        ensures started { S.started scratch.new ≡ S.started scratch.old }
        ensures asked { S.asked scratch.new ≡ S.asked scratch.old }
        ensures cause { HasCause (S.faults scratch.old) (S.faults scratch.new) result }
    {
        append_waiting(scratch, self.block, self.used)?;
        self.used = 0;
        self.closed = true;
        Ok(())
    }

    /// The point that was put at this index, counted from 0. The stream and the blocks that are kept
    /// must still be those of the points, as they are where all calls are given one scratch. The
    /// scratch is read once, or not at all where the point's block is in the window.
    ///
    /// # Errors
    ///
    /// `Failed`: the scratch refused the read.
    pub fn fetch<S: Scratch>(&mut self, index: u32, scratch: &mut S) -> Result<Point, Failed>
        requires closed { self.old.closed ≡ true }
        requires index { index < self.old.count }
        requires stream { 0 < S.started scratch.old }
        requires held { IfSome (S.told scratch.old) (λ streams. HasPoints (stream_of streams 0) self.old) }
        ensures point { IfSome (S.told scratch.old) (λ streams. (points : List Point) → All IsPoint points → stream_of streams 0 ≡ vertex_bytes points → IfOk result (λ point. (none : Point) → point ≡ get_or points index none)) }
        ensures read { IfSome (S.told scratch.old) (λ streams. IfOk result (λ point. point ≡ point_at (stream_of streams 0) (3 * index))) }
        ensures held { IfSome (S.told scratch.old) (λ streams. HasPoints (stream_of streams 0) self.new) }
        ensures closed { self.new.closed ≡ true }
        ensures count { self.new.count ≡ self.old.count }
        ensures told { S.told scratch.new ≡ S.told scratch.old }
        ensures started { S.started scratch.new ≡ S.started scratch.old }
        ensures asked { S.asked scratch.new ≡ S.asked scratch.old }
        ensures cause { HasCause (S.faults scratch.old) (S.faults scratch.new) result }
    {
        let count = self.count;
        let slot = load(scratch, self.window, count, index)?;
        Ok(self.kept_point(slot, index % BLOCK_POINTS))
    }

    /// A point of a block that is kept.
    fn kept_point(&self, slot: usize, place: u32) -> Point
        requires slot { slot < length self.now.window }
        requires place { place < 63 }
        ensures { (empty : VertexBlock) → result ≡ point_in (slice_index_or self.now.window slot empty) place }
    {
        let window = &*self.window;
        point_of(&window[slot], place)
    }
}
