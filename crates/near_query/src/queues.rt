//! The nodes that wait to be read, the nearest first.

ghost use Rattle.std.specs.Prelude.{◌≡◌, ◌≤◌, [], ◌∷◌, All, IfSome, IfNone, OnOk};
ghost use Rattle.std.specs.List.Sorted.{IsPermutation};

use std::alloc::{AllocError, Global};
use std::cmp::Reverse;
use std::collections::BinaryHeap;
use std::marker::Model;

/// A node above the cells: the square of its distance, how many levels it stands above the cells, its
/// Morton code, and the number of its word. Nearer nodes come first, and of equal ones the lower, which
/// lead sooner to cells, and then the lesser codes.
#[derive(Clone, Copy, Debug, PartialEq, Eq, PartialOrd, Ord)]
pub struct Waiting {
    pub distance: u128,
    pub height: u32,
    pub code: u64,
    pub number: u64,
}

/// Nodes that wait. Contracts see them as a list in no known order.
#[derive(Drop)]
pub struct Queue {
    heap: BinaryHeap<Reverse<Waiting>, Global>,
}

impl Model for Queue {
    ghost use Rattle.std.specs.Prelude.{List, map};
    ghost use Rattle.std.specs.BinaryHeap.{IsHeap, heap_items};
    ghost use Rattle.near_query.specs.Queues.{waiting_cmp};
    ghost use Rattle.near_query.specs.declared.queues.Waiting.{Waiting};

    ghost Value = { List Waiting };

    ghost view = { λ q. map (λ r. r.0) (heap_items q.heap) };

    ghost invariant = { λ q. IsHeap (λ x y. waiting_cmp y.0 x.0) (heap_items q.heap) };
}

impl Queue {
    /// An empty queue. It takes memory with the first node.
    pub fn new(alloc: Global) -> Queue
        ensures { result ≡ [] }
    {
        let heap = BinaryHeap::new(alloc);
        Queue { heap }
    }

    /// Lets all nodes go, and keeps the room.
    pub fn clear(&mut self)
        ensures { self.new ≡ [] }
    {
        self.heap.clear();
    }

    /// Puts a node in, if there is memory.
    pub fn put(&mut self, node: Waiting) -> Result<(), AllocError>
        ensures { OnOk result (IsPermutation (node ∷ self.old) self.new) }
    {
        match self.heap.push(Reverse(node)) {
            Ok(()) => Ok(()),
            Err(_) => Err(AllocError),
        }
    }

    /// Takes the first node out.
    pub fn take(&mut self) -> Option<Waiting>
        ensures items { IfSome result (λ node. IsPermutation self.old (node ∷ self.new)) }
        ensures least { IfSome result (λ node. All (λ other. node.distance ≤ other.distance) self.new) }
        ensures none { IfNone result (self.old ≡ []) }
    {
        let Reverse(node) = self.heap.pop()?;
        Some(node)
    }
}
