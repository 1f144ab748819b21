//! Buffers that neither grow nor shrink.

ghost use Rattle.std.specs.Prelude.{◌≡◌, ◌≤◌, length, replicate, IfOk};
ghost use Rattle.std.specs.Borrow.{Lends, Array, sem};
ghost use Rattle.std.specs.Vec.{vec_len, vec_capacity};
ghost use Rattle.room_plan.specs.contracts.buffers.Fixed.{the_row};
ghost use Rattle.room_plan.specs.contracts.buffers.Reserved.{the_row as reserved_row};
ghost use Rattle.room_plan.specs.Buffers.{in_length_of};

use std::alloc::{AllocError, Global};
use std::marker::Model;

/// A vector whose length never changes. Contracts see it as the list of its items.
#[derive(Drop)]
pub struct Fixed<T> {
    items: Vec<T>,
}

impl<T> Model for Fixed<T> {
    ghost use Rattle.std.specs.Prelude.{List};

    ghost Value = { List T };

    ghost view = { λ f. f.items.items };
}

impl<T> Fixed<T> {
    /// So many copies of an item. All memory is asked for at once.
    pub fn filled(alloc: Global, item: T, length: usize) -> Result<Fixed<T>, AllocError>
    where
        T: Copy + Drop,
        ensures { IfOk result (λ f. f ≡ replicate length item) }
    {
        let mut items = Vec::with_capacity(alloc, length)?;
        items.resize(length, item)?;
        Ok(Fixed { items })
    }

    /// The number of items.
    pub fn len(&self) -> usize
        ensures { result ≡ length self.now }
    {
        self.items.len()
    }

    /// The items, for reading.
    pub fn as_slice(&self) -> &[T]
        ensures { result.now ≡ self.now }
    {
        self.items.as_slice()
    }

    /// The items, for reading and writing. When the loan is over the vector holds what was written,
    /// and is as long as before.
    pub fn as_mut_slice(&mut self) -> &mut [T]
        ensures* writes_back { sem 𝓛 (Lends (the_row T.row) (Array T.row 0) self.entry result (in_length_of self.old)) }
        ensures items { result.now ≡ self.old }
        ensures len { length result.now ≡ length self.old }
    {
        self.items.as_mut_slice()
    }
}

/// Room for so many items, of which a front is lent. All memory is asked for at once, and is written only
/// as far as it was lent. Contracts see how many items there is room for, and not what they are.
#[derive(Drop)]
pub struct Reserved<T> {
    items: Vec<T>,
    // What stands in a place that was not lent yet.
    blank: T,
    length: usize,
}

impl<T> Model for Reserved<T> {
    ghost use Rattle.std.specs.Prelude.{ℕ, ◌≤◌};
    ghost use Rattle.std.specs.Vec.{vec_len, vec_capacity};

    ghost Value = { ℕ };

    ghost view = { λ r. r.length };

    ghost invariant = { λ r. (vec_len r.items ≤ r.length) × (r.length ≤ vec_capacity r.items) };
}

impl<T: Copy + Drop> Reserved<T> {
    /// Room for so many items.
    pub fn blank(alloc: Global, blank: T, length: usize) -> Result<Reserved<T>, AllocError>
        ensures { IfOk result (λ r. r ≡ length) }
    {
        let items = Vec::with_capacity(alloc, length)?;
        Ok(Reserved {
            items,
            blank,
            length,
        })
    }

    /// How many items there is room for.
    pub fn len(&self) -> usize
        ensures { result ≡ self.now }
    {
        self.length
    }

    /// The first items, for reading and writing. What they are at first has no meaning.
    pub fn front_mut(&mut self, size: usize) -> &mut [T]
        requires { size ≤ self.old }
        ensures* lends { sem 𝓛 (Lends (reserved_row T.row) (Array T.row 0) self.entry result (λ _. self.old)) }
        ensures size { length result.now ≡ size }
    {
        resize_within(&mut self.items, size, self.blank);
        self.items.as_mut_slice()
    }
}

/// Has a vector hold just so many items, for which it has room.
fn resize_within<T: Copy + Drop>(items: &mut Vec<T>, size: usize, blank: T)
    requires { size ≤ vec_capacity items.old }
    ensures len { vec_len items.new ≡ size }
    ensures capacity { vec_capacity items.old ≤ vec_capacity items.new }
{
    items.resize(size, blank).unwrap();
}
