//! The steps within a call: bytes are held in the block until a run's end is among them.

ghost use Rattle.std.specs.Prelude.{◌≡◌, ◌≢◌, ◌+◌, ◌-◌, ◌<◌, ◌≤◌, ◌^◌, ℕ, List, [], length, take, drop, slice_range, Option, Some, None, Result, Ok, Err, MatchResult, MatchBool, IfOk, IfErr, IfSome, IfNone, OnErr, not, ◌&&◌, nat_le, nat_lt, true, false};
ghost use Rattle.std.specs.Io.KnownBytes.{IsAtEnd};
ghost use Rattle.dev_traits.specs.Contents.{TakesFront};
ghost use Rattle.dev_traits.specs.Faults.{HasCause};
ghost use Rattle.ply_text.specs.NextPieces.{without_return};

use super::{PieceRange, Tokens};
use crate::fault::TextFault;
use crate::run::{Run, front_size};
use dev_traits::{ByteSource, Failed};

// A byte at this place or behind it is not taken.
const PLACES: u64 = 1 << 62;

// The most bytes before a line's end, and of a token.
const LINE_SIZE: usize = 1024;

const TOKEN_SIZE: usize = 255;

const CARRIAGE_RETURN: u8 = 13;

/// Reads into the block from `to` on.
fn read_behind<I: ByteSource>(input: &mut I, block: &mut [u8], to: usize) -> Result<usize, Failed>
    requires { to < length block.old }
    ensures kept { take to block.new ≡ take to block.old }
    ensures bound { IfOk result (λ count. to + count ≤ length block.new) }
    ensures bytes { TakesFront (I.rest input.old) (I.rest input.new) (drop to block.new) result }
    ensures lender { I.lender input.new ≡ I.lender input.old }
    ensures cause { HasCause (I.faults input.old) (I.faults input.new) result }
{
    input.read(&mut block[to..])
}

/// How many bytes of a line stand before the CR that may stand directly before its LF.
pub fn without_return(line: &[u8]) -> usize
    ensures bytes { take result line.now ≡ without_return line.now }
    ensures bound { result ≤ length line.now }
{
    match line.split_last() {
        None => 0,
        Some((last, before)) => {
            if *last == CARRIAGE_RETURN {
                before.len()
            } else {
                line.len()
            }
        }
    }
}

impl<I: ByteSource> Tokens<'_, I> {
    ghost use Rattle.std.specs.List.{prefix_len};
    ghost use Rattle.ply_text.specs.Pieces.{belongs, IsLine, IsToken};
    ghost use Rattle.ply_text.specs.Reading.{held, left_of};
    ghost use Rattle.ply_text.specs.Holding.{IsCaused, Keeps, Holds, ReadsOn, HoldsRun, HoldsSought, Passes, PassesWhite, PassedWhite, Finds, LiesIn, IsOneOf, checked_size, piece_in};
    ghost use Rattle.ply_text.specs.NextPieces.{run_size, short_run_size, room_at, line_of, line_size, token_size, white_size, next_line_of, next_place_of, next_token_of};
    ghost use Rattle.ply_text.specs.Calls.{answered, fault_end, IsLineFault, IsTokenFault, IsPlaceFault};

    /// Moves the held bytes to the block's front, so that the next read has the most room.
    fn to_front(&mut self)
        ensures holds { Holds self.old self.new }
        ensures input { self.new.input.now ≡ self.old.input.now }
        ensures held { held self.new ≡ held self.old }
        ensures front { self.new.from ≡ 0 }
        ensures to { self.new.to ≡ self.old.to - self.old.from }
        ensures len { length self.new.block.now ≡ length self.old.block.now }
    {
        if self.from == 0 {
            return;
        }
        self.block.copy_within(self.from..self.to, 0);
        self.to -= self.from;
        self.from = 0;
    }

    /// Reads on. Whether a byte came: none does only at the text's end.
    fn more(&mut self) -> Result<bool, TextFault>
        requires { length (held self.old) < 2048 }
        ensures reads { ReadsOn self.old self.new result }
        ensures stuck { OnErr result (held self.new ≡ held self.old) }
        ensures grown { IfOk result (λ grew. MatchBool grew (length (held self.old) < length (held self.new))
            ((held self.new ≡ held self.old) × IsAtEnd (I.rest self.new.input.now))) }
    {
        self.to_front();
        let to = self.to;
        match read_behind(self.input, self.block, to) {
            Ok(count) => {
                self.to += count;
                Ok(count > 0)
            }
            Err(Failed) => Err(TextFault::ReadFault),
        }
    }

    /// Holds the run at the front of the text, or more than `limit` bytes of it. Its size, as far as
    /// it is held.
    fn hold_run(&mut self, run: Run, limit: usize) -> Result<usize, TextFault>
        requires { limit ≤ 1024 }
        ensures reads { ReadsOn self.old self.new result }
        ensures run { IfOk result (λ size. HoldsRun run limit size self.new) }
        ensures sought { OnErr result (HoldsSought run limit self.new) }
    {
        let mut size = 0;
        'reads: loop {
            size = self.held_size(run, size);
            if size < self.to - self.from || size > limit {
                return Ok(size);
            }
            if !self.more()? {
                return Ok(size);
            }
        }
    }

    /// The size of the run at the front of the held bytes, of which so many are known to belong to it.
    // A shared loan of the block stands in a method of its own: only so the caller learns that the
    // reader stays as it is.
    fn held_size(&self, run: Run, seen: usize) -> usize
        requires held { seen ≤ self.now.to - self.now.from }
        requires seen { seen ≤ prefix_len (belongs run) (held self.now) }
        ensures { result ≡ prefix_len (belongs run) (held self.now) }
    {
        seen + front_size(run, &self.block[self.from + seen..self.to])
    }

    /// Whether the end of a run of that size is seen before place 2^62, or is the text's end.
    fn is_seen(&self, size: usize) -> bool
        ensures { result ≡ not (nat_le (room_at self.now.place) size
            && nat_lt (room_at self.now.place) (length (held self.now))) }
    {
        let room = PLACES - self.place;
        (size as u64) < room || (self.to - self.from) as u64 <= room
    }

    /// The size of the run at the front of the text, which is then held.
    fn find_run(&mut self, run: Run, limit: usize, fault: TextFault) -> Result<usize, TextFault>
        requires small { limit ≤ 1024 }
        requires fault { fault ≢ TextFault.ReadFault }
        requires here { fault_end fault ≡ self.old.place + limit + 1 }
        ensures holds { Holds self.old self.new }
        ensures reached { IfErr result (λ fault.
            fault_end fault ≤ self.new.place + (self.new.to - self.new.from)) }
        ensures kind { IfErr result (IsOneOf fault) }
        ensures sought { result ≡ Err TextFault.ReadFault → HoldsSought run limit self.new }
        ensures answer { (text : List ℕ) → left_of self.old ≡ Some text → result ≢ Err TextFault.ReadFault
            → result ≡ short_run_size run limit fault (room_at self.old.place) text }
        ensures run { IfOk result (λ size. HoldsRun run limit size self.new × (size ≤ limit)
            × (self.old.place + size ≤ 2 ^ 62) × (size < length (held self.new) → self.old.place + size < 2 ^ 62)) }
        ensures cause { IsCaused self.old self.new result }
    {
        let size = self.hold_run(run, limit)?;
        self.check_run(size, limit, fault)
    }

    /// The answer for a run of which so many bytes are held.
    fn check_run(&self, size: usize, limit: usize, fault: TextFault) -> Result<usize, TextFault>
        ensures { result ≡ checked_size limit fault (room_at self.now.place) (length (held self.now)) size }
    {
        if (size as u64).min(PLACES - self.place) > limit as u64 {
            return Err(fault);
        }
        if !self.is_seen(size) {
            return Err(TextFault::TooLong);
        }
        Ok(size)
    }

    /// Passes so many of the held bytes.
    fn pass(&mut self, count: usize)
        requires held { count ≤ length (held self.old) }
        requires within { self.old.place + count ≤ 2 ^ 62 }
        ensures { Passes count self.old self.new }
    {
        self.from += count;
        self.place += count as u64;
    }

    /// Passes the white space at the front of the held bytes. Whether another byte stands behind it.
    fn pass_held_white(&mut self) -> Result<bool, TextFault>
        ensures passes { IfOk result (λ _.
            Passes (prefix_len (belongs Run.White) (held self.old)) self.old self.new) }
        ensures more { IfOk result (λ found.
            MatchBool found (0 < prefix_len (belongs Run.Token) (held self.new)) (held self.new ≡ [])) }
        ensures unchanged { OnErr result (Passes 0 self.old self.new) }
        ensures answer { MatchResult result (λ found. (found ≡ true) → self.new.place < 2 ^ 62)
            (λ fault. (fault ≡ TextFault.TooLong)
            × (room_at self.old.place ≤ prefix_len (belongs Run.White) (held self.old))
            × (room_at self.old.place < length (held self.old))) }
    {
        let size = self.held_size(Run::White, 0);
        if !self.is_seen(size) {
            return Err(TextFault::TooLong);
        }
        self.pass(size);
        Ok(self.from < self.to)
    }

    /// Passes white space. Whether another byte stands behind it.
    fn pass_white(&mut self) -> Result<bool, TextFault>
        ensures passes { PassesWhite self.old self.new }
        ensures reached { IfErr result (λ fault.
            fault_end fault ≤ self.new.place + (self.new.to - self.new.from)) }
        ensures ended { IfOk result (λ found. found ≡ false → self.new.to - self.new.from ≡ 0) }
        ensures kind { IfErr result IsPlaceFault }
        ensures sought { result ≡ Err TextFault.ReadFault → held self.new ≡ [] }
        ensures found { IfOk result (λ found.
            MatchBool found (0 < prefix_len (belongs Run.Token) (held self.new)) (held self.new ≡ [])) }
        ensures answer { (text : List ℕ) → left_of self.old ≡ Some text
            → MatchResult result (PassedWhite text self.old self.new)
            (λ fault. fault ≢ TextFault.ReadFault → run_size Run.White (room_at self.old.place) text ≡ Err fault) }
        ensures cause { IsCaused self.old self.new result }
    {
        'reads: loop {
            if self.pass_held_white()? {
                return Ok(true);
            }
            if !self.more()? {
                return Ok(false);
            }
        }
    }

    /// `next_place` of a reader that is not stopped.
    pub(super) fn find_place(&mut self) -> Result<Option<u64>, TextFault>
        ensures finds { Finds next_place_of white_size self.old self.new result }
        ensures only_white { (text : List ℕ) → left_of self.old ≡ Some text
            → IfErr result (λ _. self.new.place - self.old.place ≤ white_size text) }
        ensures ended { IfOk result (λ found. IfNone found (self.new.to - self.new.from ≡ 0)) }
        ensures refused { IfErr result IsPlaceFault }
        ensures sought { result ≡ Err TextFault.ReadFault → held self.new ≡ [] }
        ensures place { IfOk result (λ found. IfSome found (λ place. place ≡ self.new.place)) }
        ensures cause { IsCaused self.old self.new result }
    {
        let found = self.pass_white()?;
        Ok(found.then_some(self.place))
    }

    /// Passes the next token, and answers where it lies.
    pub(super) fn find_token(&mut self) -> Result<Option<PieceRange>, TextFault>
        ensures finds { Finds next_token_of token_size self.old self.new
            (answered (piece_in self.new.block.now) result) }
        ensures only_white { (text : List ℕ) → left_of self.old ≡ Some text
            → IfErr result (λ _. self.new.place - self.old.place ≤ white_size text) }
        ensures ended { IfOk result (λ found. IfNone found (self.new.to - self.new.from ≡ 0)) }
        ensures refused { IfErr result (IsTokenFault self.new.place) }
        ensures sought { result ≡ Err TextFault.ReadFault → HoldsSought Run.Token 255 self.new }
        ensures inside { IfOk result (λ found. IfSome found (LiesIn self.new.block.now)) }
        ensures bounds { IfOk (answered (piece_in self.new.block.now) result) (λ found. IfSome found
            (λ token. (self.old.place ≤ token.place) × (token.place + length token.bytes ≡ self.new.place) × IsToken token)) }
        ensures cause { IsCaused self.old self.new result }
    {
        if !self.pass_white()? {
            return Ok(None);
        }
        let place = self.place;
        let size = self.find_run(Run::Token, TOKEN_SIZE, TextFault::TokenTooLong(place))?;
        let begin = self.from;
        self.pass(size);
        Ok(Some(PieceRange {
            place,
            begin,
            end: begin + size,
        }))
    }

    /// Where a line of that size ends in the block, without the CR before its LF.
    fn line_end(&self, size: usize) -> usize
        requires { size ≤ length (held self.now) }
        ensures bound { (self.now.from ≤ result) × (result ≤ self.now.from + size) }
        ensures bytes { slice_range self.now.block.now self.now.from result ≡ line_of (held self.now) size }
    {
        let end = self.from + size;
        if end < self.to {
            self.from + without_return(&self.block[self.from..end])
        } else {
            end
        }
    }

    /// Passes the next line with its LF, and answers where it lies.
    pub(super) fn find_line(&mut self) -> Result<Option<PieceRange>, TextFault>
        ensures finds { Finds next_line_of line_size self.old self.new
            (answered (piece_in self.new.block.now) result) }
        ensures ended { IfOk result (λ found. IfNone found (self.new.to - self.new.from ≡ 0)) }
        ensures refused { IfErr result (λ fault.
            (self.new.place ≡ self.old.place) × IsLineFault self.old.place fault) }
        ensures sought { result ≡ Err TextFault.ReadFault → HoldsSought Run.Line 1024 self.new }
        ensures inside { IfOk result (λ found. IfSome found (LiesIn self.new.block.now)) }
        ensures bounds { IfOk (answered (piece_in self.new.block.now) result)
            (λ found. IfSome found (λ line. (line.place ≡ self.old.place) × (self.old.place < self.new.place)
            × (line.place + length line.bytes ≤ self.new.place) × IsLine line)) }
        ensures cause { IsCaused self.old self.new result }
    {
        let place = self.place;
        let size = self.find_run(Run::Line, LINE_SIZE, TextFault::LineTooLong(place))?;
        if self.from == self.to {
            return Ok(None);
        }
        let begin = self.from;
        let end = self.line_end(size);
        self.pass((size + 1).min(self.to - begin));
        Ok(Some(PieceRange { place, begin, end }))
    }
}
