//! What stops the reading of a text.

/// Why a text is not read on.
#[derive(Clone, Copy, Debug, PartialEq, Eq)]
pub enum TextFault {
    /// More than 1024 bytes stand before a line's end; the line's place.
    LineTooLong(u64),
    /// A token has more than 255 bytes; the token's place.
    TokenTooLong(u64),
    /// The byte at place 2^62 would have to be taken.
    TooLong,
    /// The source refused a read.
    ReadFault,
}
