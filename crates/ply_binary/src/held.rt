//! Bytes that were read and not yet passed.

ghost use Rattle.std.specs.Prelude.{◌≡◌, min, ◌+◌, ◌-◌, ◌≤◌, ◌<◌, ◌⊎◌, ◌++◌, MatchBool, MatchOption, IfOk, ℕ, List, length, take, drop, not, true, false};
ghost use Rattle.std.specs.List.{prefix_len};
ghost use Rattle.std.specs.Io.KnownBytes.{IsAtEnd};
ghost use Rattle.dev_traits.specs.Contents.{TakesFront};
ghost use Rattle.dev_traits.specs.Faults.{HasCause};
ghost use Rattle.ply_text.specs.declared.run.Run.TheVariants.{Line as LineRun};
ghost use Rattle.ply_text.specs.Pieces.{belongs};

use dev_traits::{ByteSource, Failed};

/// How many bytes are held at most.
const BLOCK_SIZE: usize = 4096;

/// The most bytes before a line's end.
const LINE_SIZE: usize = 1024;

/// The most bytes of a value.
const VALUE_SIZE: usize = 8;

const LINE_FEED: u8 = 10;

/// A source, and the bytes that were read from it into a block and not yet passed. It owns the block, so
/// that whoever lent the source knows it again once the loan is over, however deep this lies.
#[derive(Drop)]
pub struct HeldInput<'a, I: ByteSource> {
    pub(crate) input: &'a mut I,
    block: [u8; BLOCK_SIZE],
    from: usize,
    to: usize,
    ghost ordered: { from ≤ to },
    ghost inside: { to ≤ length block },
    ghost roomy: { 2048 ≤ length block },
}

/// Reads into the block from `to` on.
fn read_behind<I: ByteSource>(input: &mut I, block: &mut [u8], to: usize) -> Result<usize, Failed>
    requires { to < length block.old }
    ensures kept { take to block.new ≡ take to block.old }
    ensures bound { IfOk result (λ count. to + count ≤ length block.new) }
    ensures bytes { TakesFront (I.rest input.old) (I.rest input.new) (drop to block.new) result }
    ensures cause { HasCause (I.faults input.old) (I.faults input.new) result }
{
    input.read(&mut block[to..])
}

/// How many bytes stand before the first LF.
#[tactic(auto, unfolding(ply_text::specs::Pieces::belongs))]
fn line_size(bytes: &[u8]) -> usize
    ensures { result ≡ prefix_len (belongs LineRun) bytes.now }
{
    bytes.iter().take_while(|byte| **byte != LINE_FEED).count()
}

impl<'a, I: ByteSource> HeldInput<'a, I> {
    ghost use Rattle.std.specs.Prelude.{[]};
    ghost use Rattle.ply_binary.specs.HeldStates.{held, Keeps, HoldsMore, Passes};

    /// Nothing is held yet.
    pub fn new(input: &'a mut I) -> HeldInput<'a, I>
        ensures input { result.input.ghost_name ≡ input.entry.ghost_name }
        ensures rest { result.input.now ≡ input.old }
        ensures held { held result ≡ [] }
    {
        HeldInput {
            input,
            block: [0; BLOCK_SIZE],
            from: 0,
            to: 0,
        }
    }

    /// How many bytes are held.
    pub(crate) fn len(&self) -> usize
        ensures { result ≡ length (held self.now) }
    {
        self.to - self.from
    }

    /// The held bytes.
    pub(crate) fn bytes(&self) -> &[u8]
        ensures { result.now ≡ held self.now }
    {
        &self.block[self.from..self.to]
    }

    /// Passes so many of the held bytes.
    pub(crate) fn pass(&mut self, count: usize)
        requires { count ≤ length (held self.old) }
        ensures { Passes count self.old self.new }
    {
        self.from += count;
    }

    /// Reads past what is held, which is nothing.
    pub(crate) fn read(&mut self, into: &mut [u8]) -> Result<usize, Failed>
        requires { 0 < length into.old }
        ensures bound { IfOk result (λ n. n ≤ length into.old) }
        ensures keeps { Keeps self.old self.new }
        ensures held { held self.new ≡ held self.old }
        ensures bytes { TakesFront (I.rest self.old.input.now) (I.rest self.new.input.now) into.new result }
        ensures cause { HasCause (I.faults self.old.input.now) (I.faults self.new.input.now) result }
    {
        self.input.read(into)
    }

    /// Gives the front of the held bytes, as many as there is room for.
    pub(crate) fn give(&mut self, into: &mut [u8]) -> usize
        requires { 0 < length into.old }
        ensures bound { result ≤ length into.old }
        ensures text { held self.old ≡ take result into.new ++ held self.new }
        ensures keeps { Keeps self.old self.new }
        ensures input { self.new.input.now ≡ self.old.input.now }
        ensures end { result ≡ 0 → held self.old ≡ [] }
    {
        let count = self.copy_front(into);
        self.pass(count);
        count
    }

    fn copy_front(&self, into: &mut [u8]) -> usize
        ensures bound { result ≤ length into.old }
        ensures count { result ≡ min (length (held self.now)) (length into.old) }
        ensures text { take result into.new ≡ take result (held self.now) }
    {
        let bytes = &self.block[self.from..self.to];
        let count = bytes.len().min(into.len());
        into[..count].copy_from_slice(&bytes[..count]);
        count
    }

    /// Moves the held bytes to the block's front, so that the next read has the most room.
    fn to_front(&mut self)
        ensures keeps { Keeps self.old self.new }
        ensures input { self.new.input.now ≡ self.old.input.now }
        ensures held { held self.new ≡ held self.old }
        ensures front { self.new.from ≡ 0 }
        ensures to { self.new.to ≡ self.old.to - self.old.from }
        ensures len { length self.new.block ≡ length self.old.block }
    {
        if self.from == 0 {
            return;
        }
        self.block.copy_within(self.from..self.to, 0);
        self.to -= self.from;
        self.from = 0;
    }

    /// Reads on. Whether a byte came: none does only at the end.
    fn more(&mut self) -> Result<bool, Failed>
        requires { length (held self.old) < 2048 }
        ensures holds { HoldsMore self.old self.new }
        ensures cause { HasCause (I.faults self.old.input.now) (I.faults self.new.input.now) result }
        ensures grown { IfOk result (λ grew. MatchBool grew (length (held self.old) < length (held self.new))
            ((held self.new ≡ held self.old) × IsAtEnd (I.rest self.new.input.now))) }
    {
        self.to_front();
        let to = self.to;
        match read_behind(self.input, &mut self.block, to) {
            Ok(count) => {
                self.to += count;
                Ok(count > 0)
            }
            Err(Failed) => Err(Failed),
        }
    }

    /// How many of the held bytes stand before the first LF.
    fn line_size(&self) -> usize
        ensures { result ≡ prefix_len (belongs LineRun) (held self.now) }
    {
        line_size(&self.block[self.from..self.to])
    }

    /// Holds the next line, or more than 1024 bytes of it. Its size, as far as it is held.
    pub(crate) fn hold_line(&mut self) -> Result<usize, Failed>
        ensures holds { HoldsMore self.old self.new }
        ensures cause { HasCause (I.faults self.old.input.now) (I.faults self.new.input.now) result }
        ensures line { IfOk result (λ size. (size ≡ prefix_len (belongs LineRun) (held self.new))
            × ((size < length (held self.new)) ⊎ ((1024 < size) ⊎ IsAtEnd (I.rest self.new.input.now)))) }
    {
        'reads: loop {
            let size = self.line_size();
            if size < self.to - self.from || size > LINE_SIZE {
                return Ok(size);
            }
            if !self.more()? {
                return Ok(size);
            }
        }
    }

    /// Holds the bytes of any value, or all bytes up to the end.
    pub(crate) fn hold_value(&mut self) -> Result<(), Failed>
        ensures holds { HoldsMore self.old self.new }
        ensures cause { HasCause (I.faults self.old.input.now) (I.faults self.new.input.now) result }
        ensures value { IfOk result (λ _. (8 ≤ length (held self.new)) ⊎ IsAtEnd (I.rest self.new.input.now)) }
    {
        'reads: while self.to - self.from < VALUE_SIZE {
            if !self.more()? {
                return Ok(());
            }
        }
        Ok(())
    }
}
