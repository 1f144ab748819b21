//! A source that gives a mesh text as ASCII.

ghost use Rattle.std.specs.Prelude.{◌≡◌, ◌≢◌, ◌*◌, ◌+◌, ◌-◌, ◌^◌, ◌≤◌, ◌<◌, ◌++◌, ℕ, List, [], length, take, IfOk, MatchBool, MatchResult, Result, Ok, Err, Option, Some, true, false};
ghost use Rattle.std.specs.List.{prefix_len};
ghost use Rattle.std.specs.Option.{option_map};
ghost use Rattle.std.specs.Io.KnownBytes.{IsAtEnd};
ghost use Rattle.dev_traits.specs.Contents.{TakesFront, GivesAtMost};
ghost use Rattle.dev_traits.specs.Faults.{HasCause};
ghost use Rattle.ply_text.specs.declared.run.Run.TheVariants.{Line as LineRun};
ghost use Rattle.ply_text.specs.Pieces.{belongs};
ghost use Rattle.ply_reader.specs.Declarations.{Declared, declared};
ghost use Rattle.ply_binary.specs.BodyStates.{IsIn};
ghost use Rattle.ply_binary.specs.LineStates.{stage_behind, is_line};

use crate::body::Body;
use crate::held::HeldInput;
use crate::lines::{ShownLine, line_end, show_line, whole_size};
use crate::rewriting::{Done, Halt, rewrite};
use crate::values::TOKEN_ROOM;
use crate::waiting::Waiting;
use dev_traits::{ByteSource, Failed};
use ply_reader::{Header, PlyKind};

/// A byte at this place or behind it is not taken.
const PLACES: u64 = 1 << 62;

/// The most bytes before a line's end.
const LINE_SIZE: u64 = 1024;

/// What the bytes not yet looked at are.
#[derive(Clone, Copy, Debug, PartialEq, Eq)]
enum Stage {
    /// Lines of a header; whether its binary format line was given.
    Head(bool),
    /// Values of a body.
    Values,
    /// Text that stays as it is.
    Plain,
    /// Nothing that is given.
    Over,
}

/// A mesh text as ASCII PLY, over the source of a text in ASCII or binary little-endian PLY.
///
/// An ASCII text comes as it is. Of a binary one the format line says `ascii`, with spaces before its
/// end, so that no line moves; each value of the body is a token and LF. A coordinate that is a float
/// is `nan`, another float `0`. Where the file ends within a value, the text ends before it; where a
/// byte follows the last value, the text ends with `x`; after a negative count the text ends.
#[derive(Drop)]
pub struct AsciiSource<'a, I: ByteSource> {
    held: HeldInput<'a, I>,
    text: Waiting,
    stage: Stage,
    header: Header,
    place: u64,
    body: Body,
    ghost within: { place ≤ 2 ^ 62 },
    ghost inside: { IsIn (declared header) body },
}

/// What the bytes behind a header line are, by what the header said of the line.
fn stage_behind(found: bool, taken: Result<bool, PlyKind>) -> Stage
    ensures { result ≡ stage_behind found taken }
{
    match taken {
        Ok(true) => Stage::Values,
        Ok(false) => Stage::Head(found),
        Err(_) => Stage::Plain,
    }
}

/// Whether a line of that size, of so many held bytes, is one that may be taken.
fn is_line(held: usize, size: usize, place: u64) -> bool
    requires { place ≤ 2 ^ 62 }
    ensures { result ≡ is_line held size place }
{
    let room = PLACES - place;
    let size = size as u64;
    held > 0 && size.min(room) <= LINE_SIZE && (size < room || held as u64 <= room)
}

/// Whether no value of a body is left.
fn is_ended(halt: Halt) -> bool
    ensures { MatchBool result (halt ≡ Halt.Ended) (halt ≢ Halt.Ended) }
{
    matches!(halt, Halt::Ended)
}

impl<'a, I: ByteSource> AsciiSource<'a, I> {
    ghost use Rattle.std.specs.Prelude.{MatchOption, IfSome, drop, min};
    ghost use Rattle.ply_binary.specs.HeldStates.{held, Keeps, HoldsMore};
    ghost use Rattle.ply_binary.specs.HeaderTexts.{ascii, header_left, taken_line};
    ghost use Rattle.ply_binary.specs.BodyStates.{body_left, left_behind, Halts};
    ghost use Rattle.ply_binary.specs.LineStates.{IsShown, IsLong};
    ghost use Rattle.ply_binary.specs.SourceStates.{text_behind, source_rest, IsBehindHead, IsSeen, IsHeld, Moves};

    /// The text of an input of which nothing is held yet.
    #[tactic(auto, unfolding(crate::specs::HeaderTexts::ascii))]
    pub fn new(input: HeldInput<'a, I>) -> AsciiSource<'a, I>
        requires { held input ≡ [] }
        ensures input { result.held.input ≡ input.entry.input }
        ensures text { (bytes : List ℕ) → text_behind result bytes ≡ ascii bytes }
    {
        AsciiSource {
            held: input,
            text: Waiting::new(),
            stage: Stage::Head(false),
            header: Header::new(),
            place: 0,
            body: Body::new(),
        }
    }

    /// The line of that size at the front of the held bytes, as it is given, and how many bytes it
    /// takes. None where no line is, and at a format line that is not binary.
    fn next_shown(&self, found: bool, size: usize) -> Option<ShownLine>
        requires { size ≡ prefix_len (belongs LineRun) (held self.now.held) }
        ensures shown { (d : Declared) (more : List ℕ) → IsSeen size (held self.now.held) more
            → IsShown found d self.now.place (held self.now.held) more (min (size + 1) (length (held self.now.held))) result }
        ensures long { IfSome result (IsLong (min (size + 1) (length (held self.now.held)))) }
        ensures place { IfSome result (λ _. self.now.place + min (size + 1) (length (held self.now.held)) ≤ 2 ^ 62) }
    {
        let bytes = self.held.bytes();
        if !is_line(bytes.len(), size, self.place) {
            return None;
        }
        let whole = whole_size(size, bytes.len());
        show_line(found, &bytes[..whole], line_end(bytes, size))
    }

    /// Takes the line of that size, which then waits to be given.
    fn take_line(&mut self, found: bool, size: usize)
        requires stage { self.old.stage ≡ Stage.Head found }
        requires empty { self.old.text ≡ [] }
        requires size { size ≡ prefix_len (belongs LineRun) (held self.old.held) }
        ensures keeps { Keeps self.old.held self.new.held }
        ensures input { self.new.held.input.now ≡ self.old.held.input.now }
        ensures left { (more : List ℕ) → IsSeen size (held self.old.held) more → text_behind self.old more ≡ text_behind self.new more }
        ensures ready { self.new.text ≡ [] → IsBehindHead self.new.stage }
    {
        let Some(line) = self.next_shown(found, size) else {
            self.stage = Stage::Plain;
            return;
        };
        let whole = whole_size(size, self.held.len());
        let taken = self.header.take(&line.text.text()[..line.size]);
        self.stage = stage_behind(line.found, taken);
        self.text = line.text;
        self.body = Body::new();
        self.held.pass(whole);
        self.place += whole as u64;
    }

    /// Makes the next line of the header wait.
    fn next_line(&mut self, found: bool) -> Result<(), Failed>
        requires stage { self.old.stage ≡ Stage.Head found }
        requires empty { self.old.text ≡ [] }
        ensures moves { Moves self.old self.new [] }
        ensures cause { HasCause (I.faults self.old.held.input.now) (I.faults self.new.held.input.now) result }
        ensures ready { IfOk result (λ _. self.new.text ≡ [] → IsBehindHead self.new.stage) }
    {
        let size = self.held.hold_line()?;
        self.take_line(found, size);
        Ok(())
    }

    /// Makes text wait, where lines of the header are to come and none waits.
    fn prepare(&mut self) -> Result<(), Failed>
        ensures moves { Moves self.old self.new [] }
        ensures cause { HasCause (I.faults self.old.held.input.now) (I.faults self.new.held.input.now) result }
        ensures ready { IfOk result (λ _. self.new.text ≡ [] → IsBehindHead self.new.stage) }
    {
        if !self.text.text().is_empty() {
            return Ok(());
        }
        match self.stage {
            Stage::Head(found) => self.next_line(found),
            Stage::Values | Stage::Plain | Stage::Over => Ok(()),
        }
    }

    /// The held values, rewritten at the front of `into`.
    fn rewritten(&self, into: &mut [u8]) -> Done
        ensures used { result.used ≤ length (held self.now.held) }
        ensures made { result.made ≤ length into.new }
        ensures size { length into.new ≡ length into.old }
        ensures inside { IsIn (declared self.now.header) result.body }
        ensures left { (more : List ℕ) → body_left (declared self.now.header) self.now.body (held self.now.held ++ more)
            ≡ take result.made into.new ++ left_behind result.halt (declared self.now.header) result.body (drop result.used (held self.now.held) ++ more) }
        ensures grew { result.used ≤ 8 * result.made }
        ensures filled { result.halt ≡ Halt.Filled → length into.new < result.made + 24 }
        ensures over { result.halt ≡ Halt.Over → 0 < result.made }
        ensures halt { Halts result.halt (body_left (declared self.now.header) result.body) (drop result.used (held self.now.held)) }
    {
        rewrite(self.body, &self.header, self.held.bytes(), into)
    }

    /// Gives the tokens of held values, and what ends the text where no token is given.
    fn give_held_values(&mut self, into: &mut [u8]) -> usize
        requires stage { self.old.stage ≡ Stage.Values }
        requires empty { self.old.text ≡ [] }
        requires room { 24 ≤ length into.old }
        ensures bound { result ≤ length into.old }
        ensures size { length into.new ≡ length into.old }
        ensures keeps { Keeps self.old.held self.new.held }
        ensures input { self.new.held.input.now ≡ self.old.held.input.now }
        ensures text { (more : List ℕ) → IsHeld (held self.old.held) more
            → text_behind self.old more ≡ take result into.new ++ text_behind self.new more }
        ensures empty { self.new.text ≡ [] }
        ensures end { result ≡ 0 → self.new.stage ≡ Stage.Over }
    {
        let done = self.rewritten(into);
        self.body = done.body;
        self.held.pass(done.used);
        if done.made > 0 {
            if done.halt == Halt::Over {
                self.stage = Stage::Over;
            }
            return done.made;
        }
        self.stage = Stage::Over;
        if is_ended(done.halt) && self.held.len() > 0 {
            into[0] = b'x';
            return 1;
        }
        0
    }

    /// Gives the tokens of values, as many as there is room for.
    fn give_tokens(&mut self, into: &mut [u8]) -> Result<usize, Failed>
        requires stage { self.old.stage ≡ Stage.Values }
        requires empty { self.old.text ≡ [] }
        requires room { 24 ≤ length into.old }
        ensures bound { GivesAtMost (length into.old) result }
        ensures size { length into.new ≡ length into.old }
        ensures moves { MatchResult result (λ n. Moves self.old self.new (take n into.new)) (λ _. Moves self.old self.new []) }
        ensures cause { HasCause (I.faults self.old.held.input.now) (I.faults self.new.held.input.now) result }
        ensures end { IfOk result (λ n. (self.new.text ≡ []) × (n ≡ 0 → self.new.stage ≡ Stage.Over)) }
    {
        self.held.hold_value()?;
        Ok(self.give_held_values(into))
    }

    /// Gives a front of the tokens of values.
    fn give_values(&mut self, into: &mut [u8]) -> Result<usize, Failed>
        requires stage { self.old.stage ≡ Stage.Values }
        requires empty { self.old.text ≡ [] }
        requires room { 0 < length into.old }
        ensures bound { GivesAtMost (length into.old) result }
        ensures moves { MatchResult result (λ n. Moves self.old self.new (take n into.new)) (λ _. Moves self.old self.new []) }
        ensures cause { HasCause (I.faults self.old.held.input.now) (I.faults self.new.held.input.now) result }
        ensures end { IfOk result (λ n. n ≡ 0 → IsAtEnd (source_rest self.new)) }
    {
        if into.len() >= TOKEN_ROOM {
            return self.give_tokens(into);
        }
        let mut room = [0; TOKEN_ROOM];
        let made = self.give_tokens(&mut room)?;
        self.text = Waiting::of(&room[..made]);
        Ok(self.text.give(into))
    }

    /// Gives text that stays as it is: what is held of it, else straight from the input.
    fn give_plain(&mut self, into: &mut [u8]) -> Result<usize, Failed>
        requires stage { self.old.stage ≡ Stage.Plain }
        requires empty { self.old.text ≡ [] }
        requires room { 0 < length into.old }
        ensures bound { GivesAtMost (length into.old) result }
        ensures moves { MatchResult result (λ n. Moves self.old self.new (take n into.new)) (λ _. Moves self.old self.new []) }
        ensures cause { HasCause (I.faults self.old.held.input.now) (I.faults self.new.held.input.now) result }
        ensures end { IfOk result (λ n. n ≡ 0 → IsAtEnd (source_rest self.new)) }
    {
        if self.held.len() > 0 {
            return Ok(self.held.give(into));
        }
        self.held.read(into)
    }
}

impl<I: ByteSource> ByteSource for AsciiSource<'_, I> {
    ghost use Rattle.ply_binary.specs.SourceStates.{source_rest, Moves};

    ghost rest = { λ s. source_rest s };

    ghost faults = { λ s. I.faults s.held.input.now };

    ghost lender = { λ s. s.held.input.ghost_name };

    fn read(&mut self, into: &mut [u8]) -> Result<usize, Failed>
        requires { 0 < length into.old }
        ensures bound { GivesAtMost (length into.old) result }
        ensures bytes { TakesFront (source_rest self.old) (source_rest self.new) into.new result }
        ensures lender { self.new.held.input.ghost_name ≡ self.old.held.input.ghost_name }
        ensures cause { HasCause (I.faults self.old.held.input.now) (I.faults self.new.held.input.now) result }
        ensures moves { MatchResult result (λ n. Moves self.old self.new (take n into.new)) (λ _. Moves self.old self.new []) }
    {
        self.prepare()?;
        if !self.text.text().is_empty() {
            return Ok(self.text.give(into));
        }
        match self.stage {
            Stage::Values => self.give_values(into),
            Stage::Plain => self.give_plain(into),
            Stage::Head(_) | Stage::Over => Ok(0),
        }
    }
}
