//! The lines of a header, as they are given.

ghost use Rattle.std.specs.Prelude.{◌≡◌, ◌+◌, ◌-◌, ◌^◌, ◌≤◌, ◌<◌, ◌++◌, ◌∷◌, ℕ, List, Bool, true, false, length, take, drop, MatchOption, IfSome, min, Option, Some, None};
ghost use Rattle.ply_text.specs.NextPieces.{line_of};
ghost use Rattle.text_words.specs.LineWords.{next_word, words_of};
ghost use Rattle.ply_reader.specs.LineWords.{line_words};
ghost use Rattle.ply_binary.specs.HeaderTexts.{is_binary, behind_word, shown_line};
ghost use Rattle.ply_binary.specs.LineStates.{IsFormat, IsLong, shown_of};

use crate::waiting::Waiting;
use ply_text::without_return;
use text_words::next_word;

/// What a header line says of the format.
enum Format<'a> {
    /// It is no format line.
    Unsaid,
    /// It says `binary_little_endian 1.0`; what stands behind the first of these words.
    Binary(&'a [u8]),
    /// It says anything else.
    Other,
}

/// A line as it is given.
#[derive(Drop)]
pub(crate) struct ShownLine {
    /// The line, with its end.
    pub(crate) text: Waiting,
    /// How many bytes of the text stand before its end.
    pub(crate) size: usize,
    /// Whether the header's format line was given.
    pub(crate) found: bool,
}

/// Where the line ends that has so many bytes before its LF.
pub(crate) fn line_end(bytes: &[u8], size: usize) -> usize
    requires { size ≤ length bytes.now }
    ensures bound { result ≤ size }
    ensures bytes { take result bytes.now ≡ line_of bytes.now size }
{
    if size < bytes.len() {
        without_return(&bytes[..size])
    } else {
        size
    }
}

/// How many bytes a line of that size takes with its LF, of so many held bytes.
pub(crate) fn whole_size(size: usize, held: usize) -> usize
    ensures { result ≡ min (size + 1) held }
{
    if size < held { size + 1 } else { held }
}

/// What stands behind the word `binary_little_endian`, where the words of a text are this one and `1.0`.
fn binary_tail(text: &[u8]) -> Option<&[u8]>
    ensures { (word : List ℕ) → MatchOption result (is_binary (word ∷ words_of 5 text.now) ≡ false)
        (λ tail. (is_binary (word ∷ words_of 5 text.now) ≡ true) × (behind_word (next_word text.now) ≡ tail.now)
        × (length tail.now + 20 ≤ length text.now)) }
{
    let (format, tail) = next_word(text)?;
    if format != b"binary_little_endian".as_slice() {
        return None;
    }
    let (version, behind) = next_word(tail)?;
    if version != b"1.0".as_slice() {
        return None;
    }
    match next_word(behind) {
        Some(_) => None,
        None => Some(tail),
    }
}

/// What a line says of the format.
#[tactic(auto, unfolding(ply_reader::specs::LineWords::line_words))]
fn format_of(line: &[u8]) -> Format<'_>
    ensures { IsFormat line.now result }
{
    let Some((first, behind)) = next_word(line) else {
        return Format::Unsaid;
    };
    if first != b"format".as_slice() {
        return Format::Unsaid;
    }
    match binary_tail(behind) {
        Some(tail) => Format::Binary(tail),
        None => Format::Other,
    }
}

/// A line that ends at `end`, with the bytes of its end, as it is given. None where it is a format line
/// that is not binary.
pub(crate) fn show_line(found: bool, whole: &[u8], end: usize) -> Option<ShownLine>
    requires end { end ≤ length whole.now }
    requires short { length whole.now ≤ 1040 }
    requires some { 0 < length whole.now }
    ensures shown { shown_of result ≡ shown_line found (take end whole.now) whole.now }
    ensures long { IfSome result (IsLong (length whole.now)) }
{
    let format = if found {
        Format::Unsaid
    } else {
        format_of(&whole[..end])
    };
    match format {
        Format::Unsaid => Some(ShownLine {
            text: Waiting::of(whole),
            size: end,
            found,
        }),
        Format::Binary(tail) => Some(ShownLine {
            text: Waiting::of_format(&whole[..end], tail, &whole[end..]),
            size: end,
            found: true,
        }),
        Format::Other => None,
    }
}
