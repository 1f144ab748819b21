//! A source of ASCII text that goes with what its input told at the start.

ghost use Rattle.std.specs.Prelude.{◌≡◌, ◌≤◌, ℕ, List, Option, None, length};
ghost use Rattle.std.specs.Option.{option_map};
ghost use Rattle.ply_binary.specs.Since.{ReadsSince};

use crate::source::AsciiSource;
use dev_traits::{ByteSource, Failed};
use std::marker::{Brand, PhantomData};

/// What an input told when a source was made over it.
pub trait Start {
    /// The bytes to come, where the input told them.
    ghost told: { Option (List ℕ) };
}

impl Start for Brand {
    ghost told = { None };
}

/// A mesh text as ASCII, over an input of which it is known what it told at the start: so whoever lent
/// the input knows afterwards how much of it was read for the text that was given.
#[derive(Drop)]
pub struct AsciiReading<'a, I: ByteSource, S: Start> {
    source: AsciiSource<'a, I>,
    start: PhantomData<S>,
    ghost since: { ∥ ReadsSince S.told source ∥₁ },
}

impl<'a, I: ByteSource, S: Start> AsciiReading<'a, I, S> {
    ghost use Rattle.ply_binary.specs.HeaderTexts.{ascii};
    ghost use Rattle.ply_binary.specs.SourceStates.{source_rest, text_behind};

    /// A source that has given nothing yet.
    pub fn new(source: AsciiSource<'a, I>) -> AsciiReading<'a, I, S>
        requires start { S.told ≡ I.rest source.held.input.now }
        requires text { (bytes : List ℕ) → text_behind source bytes ≡ ascii bytes }
        ensures input { result.source.held.input ≡ source.entry.held.input }
        ensures rest { source_rest result.source ≡ option_map ascii S.told }
    {
        AsciiReading {
            source,
            start: PhantomData,
        }
    }
}

impl<I: ByteSource, S: Start> ByteSource for AsciiReading<'_, I, S> {
    ghost use Rattle.ply_binary.specs.SourceStates.{source_rest};

    ghost rest = { λ s. source_rest s.source };

    ghost faults = { λ s. I.faults s.source.held.input.now };

    ghost lender = { λ s. s.source.held.input.ghost_name };

    fn read(&mut self, into: &mut [u8]) -> Result<usize, Failed> {
        self.source.read(into)
    }
}
