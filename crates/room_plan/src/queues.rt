//! Lent entries for queues of nodes that wait for their parents.

ghost use Rattle.std.specs.Prelude.{◌≡◌, ◌+◌, ◌<◌, length};

use std::marker::Model;
use std::sync::ledger::Ledger;
use svo_base::Steps;

/// A node that waits for its parent: its word, and a number that whoever places it gives a meaning.
#[derive(Clone, Copy, Debug, PartialEq, Eq)]
pub struct QueueEntry {
    pub word: u64,
    pub state: u64,
}

/// Lent entries, of which each is only set by a counted call.
#[derive(Drop)]
pub struct Queues<'a> {
    entries: &'a mut [QueueEntry],
    placed: u64,
}

impl<'a> Model for Queues<'a> {
    ghost use Rattle.std.specs.Prelude.{length, ◌<◌, ◌^◌};
    ghost use Rattle.room_plan.specs.QueuesView.{QueuesView};

    ghost Value = { QueuesView };

    ghost view = { λ q. record { entries = q.entries.now; placed = q.placed } };

    ghost invariant = { λ q. length q.entries.now < 2 ^ 60 };
}

impl<'a> Queues<'a> {
    ghost use Rattle.std.specs.Prelude.{slice_index_or, slice_set, min, ◌-◌, ◌^◌};
    ghost use Rattle.room_plan.specs.QueuesView.{QueuesView};

    /// Queues over these entries, of which none was placed yet.
    pub fn new(entries: &'a mut [QueueEntry]) -> Queues<'a>
        ensures { result ≡ record { entries = entries.old; placed = 0 } }
    {
        Queues { entries, placed: 0 }
    }

    /// How many entries there are.
    pub fn len(&self) -> usize
        ensures { result ≡ length self.now.entries }
    {
        self.entries.len()
    }

    /// The entry at a place.
    pub fn get(&self, at: usize) -> QueueEntry
        requires { at < length self.now.entries }
        ensures { result ≡ slice_index_or self.now.entries at (record { word = 0; state = 0 }) }
    {
        let entries = &*self.entries;
        entries[at]
    }

    /// Sets the entry at a place, and counts one move. All others stay.
    pub fn place<L: Ledger>(&mut self, at: usize, entry: QueueEntry, moves: &mut Steps<L>)
        requires { at < length self.old.entries }
        ensures entry { self.new ≡ record { entries = slice_set self.old.entries at entry; placed = min (self.old.placed + 1) (2 ^ 64 - 1) } }
        ensures moves { moves.new ≡ moves.old + 1 }
    {
        let entries = &mut *self.entries;
        entries[at] = entry;
        self.placed = self.placed.saturating_add(1);
        moves.tick();
    }

    /// How often an entry was placed since `new`; it stays at 2^64 - 1.
    pub fn placed(&self) -> u64
        ensures { result ≡ self.now.placed }
    {
        self.placed
    }
}
