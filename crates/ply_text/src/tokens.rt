//! Lines and tokens of a text, over any cutting into reads.

ghost use Rattle.std.specs.Prelude.{◌≡◌, ◌≤◌, ◌^◌, [], length};

use crate::fault::TextFault;
use dev_traits::ByteSource;

mod holding;

pub use holding::without_return;

/// A line, without its end.
#[derive(Clone, Copy, Debug)]
pub struct Line<'a> {
    /// The place of the line's first byte, counted from the text's start.
    pub place: u64,
    /// Its bytes: at most 1024, and no LF.
    pub bytes: &'a [u8],
}

/// A token: a longest run of bytes other than white space.
#[derive(Clone, Copy, Debug)]
pub struct Token<'a> {
    /// The place of the token's first byte, counted from the text's start.
    pub place: u64,
    /// Its bytes: 1 to 255, none of them white space.
    pub bytes: &'a [u8],
}

/// Where a piece of the text lies in the block.
#[derive(Clone, Copy, Debug)]
struct PieceRange {
    place: u64,
    begin: usize,
    end: usize,
}

/// Reads a text through a lent block. White space is tab, LF, VT, FF, CR and the space.
///
/// After a fault each call answers that fault again and changes nothing.
#[derive(Drop)]
pub struct Tokens<'a, I: ByteSource> {
    input: &'a mut I,
    block: &'a mut [u8],
    // The bytes of the block from `from` to `to` were read and not yet passed.
    from: usize,
    to: usize,
    place: u64,
    stopped: Option<TextFault>,
    ghost ordered: { from ≤ to },
    ghost inside: { to ≤ length block.now },
    ghost roomy: { 2048 ≤ length block.now },
    ghost within: { place ≤ 2 ^ 62 },
}

impl<'a, I: ByteSource> Tokens<'a, I> {
    ghost use Rattle.std.specs.Prelude.{None, ◌-◌, IfOk, IfSome};
    ghost use Rattle.std.specs.Borrow.{sem};
    ghost use Rattle.std.specs.Io.BufRead.{Rests};
    ghost use mir.Syntax.{named};
    ghost use Rattle.ply_text.specs.contracts.tokens.Tokens.{the_row};
    ghost use Rattle.ply_text.specs.Reading.{reading};
    ghost use Rattle.ply_text.specs.Holding.{LiesIn, piece_in};
    ghost use Rattle.ply_text.specs.Calls.{SameLent, answered, line_piece, token_piece, LineCall, TokenCall, PlaceCall};

    /// A reader at place 0. A larger block takes fewer reads.
    pub fn new(input: &'a mut I, block: &'a mut [u8]) -> Tokens<'a, I>
        requires { 2048 ≤ length block.old }
        ensures input { result.input.ghost_name ≡ input.entry.ghost_name }
        ensures block { result.block.ghost_name ≡ block.entry.ghost_name }
        ensures lender { I.lender result.input.now ≡ I.lender input.old }
        ensures start { reading result ≡ record {
          left = I.rest input.old;
          place = 0;
          ahead = 0;
          stopped = None;
          faults = I.faults input.old;
        } }
    {
        Tokens {
            input,
            block,
            from: 0,
            to: 0,
            place: 0,
            stopped: None,
        }
    }

    /// How many bytes of the text were passed.
    pub fn place(&self) -> u64
        ensures { result ≡ self.now.place }
    {
        self.place
    }

    /// Gives and passes the next line: the bytes up to LF, or to the end of the text. The LF is
    /// passed, and is not part of the line, nor is a CR directly before it. `None` exactly where no
    /// byte is left.
    ///
    /// # Errors
    ///
    /// - `LineTooLong`: more than 1024 bytes stand before the line's LF or end, a CR counted.
    /// - `TooLong`: the line's end is not seen before place 2^62.
    /// - `ReadFault`: the source refused a read.
    pub fn next_line(&mut self) -> Result<Option<Line<'_>>, TextFault>
        ensures* after { sem 𝓛 (Rests (the_row (record { mir = named 0; lft = [] }) I.row I.ByteSource)
            self.entry (λ new. SameLent self.old new
            × LineCall (reading self.old) (reading new) (answered line_piece result))) }
    {
        match self.pass_line()? {
            None => Ok(None),
            Some(span) => Ok(Some(self.line(span))),
        }
    }

    /// Passes white space, and gives and passes the token behind it. `None` exactly where only white
    /// space is left, which is then passed.
    ///
    /// # Errors
    ///
    /// - `TokenTooLong`: the token has more than 255 bytes.
    /// - `TooLong`: the end of the white space or of the token is not seen before place 2^62.
    /// - `ReadFault`: the source refused a read.
    pub fn next_token(&mut self) -> Result<Option<Token<'_>>, TextFault>
        ensures* after { sem 𝓛 (Rests (the_row (record { mir = named 0; lft = [] }) I.row I.ByteSource)
            self.entry (λ new. SameLent self.old new
            × TokenCall (reading self.old) (reading new) (answered token_piece result))) }
    {
        match self.pass_token()? {
            None => Ok(None),
            Some(span) => Ok(Some(self.token(span))),
        }
    }

    /// Passes white space, and gives the place of the byte behind it, which is not passed. `None`
    /// exactly where only white space is left.
    ///
    /// # Errors
    ///
    /// - `TooLong`: the end of the white space is not seen before place 2^62.
    /// - `ReadFault`: the source refused a read.
    pub fn next_place(&mut self) -> Result<Option<u64>, TextFault>
        ensures same { SameLent self.old self.new }
        ensures call { PlaceCall (reading self.old) (reading self.new) result }
    {
        if let Some(fault) = self.stopped {
            return Err(fault);
        }
        let found = self.find_place();
        self.stopped = found.err();
        found
    }

    fn pass_line(&mut self) -> Result<Option<PieceRange>, TextFault>
        ensures same { SameLent self.old self.new }
        ensures call { LineCall (reading self.old) (reading self.new)
            (answered (piece_in self.new.block.now) result) }
        ensures inside { IfOk result (λ found. IfSome found (LiesIn self.new.block.now)) }
    {
        if let Some(fault) = self.stopped {
            return Err(fault);
        }
        let found = self.find_line();
        self.stopped = found.err();
        found
    }

    fn pass_token(&mut self) -> Result<Option<PieceRange>, TextFault>
        ensures same { SameLent self.old self.new }
        ensures call { TokenCall (reading self.old) (reading self.new)
            (answered (piece_in self.new.block.now) result) }
        ensures inside { IfOk result (λ found. IfSome found (LiesIn self.new.block.now)) }
    {
        if let Some(fault) = self.stopped {
            return Err(fault);
        }
        let found = self.find_token();
        self.stopped = found.err();
        found
    }

    // The shared loan of the block stands in a method of its own: only so the caller learns what the
    // reader is after the loan.
    fn line(&self, span: PieceRange) -> Line<'_>
        requires { LiesIn self.now.block.now span }
        ensures { line_piece result ≡ piece_in self.now.block.now span }
    {
        Line {
            place: span.place,
            bytes: &self.block[span.begin..span.end],
        }
    }

    fn token(&self, span: PieceRange) -> Token<'_>
        requires { LiesIn self.now.block.now span }
        ensures { token_piece result ≡ piece_in self.now.block.now span }
    {
        Token {
            place: span.place,
            bytes: &self.block[span.begin..span.end],
        }
    }
}
