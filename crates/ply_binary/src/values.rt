//! The values of a binary body, and their tokens.

ghost use Rattle.std.specs.Prelude.{◌≡◌, ◌+◌, ◌≤◌, ◌<◌, ◌^◌, ◌++◌, codes, decimal, length, take};
ghost use Rattle.ply_reader.specs.Names.{is_whole_type};
ghost use Rattle.ply_binary.specs.Values.{size_of, number_of, is_negative, span_of, number_text, token_of};

use itoa::Buffer;
use ply_reader::Scalar;

/// The most bytes of a token with its LF, and some more.
pub(crate) const TOKEN_ROOM: usize = 24;

/// How many bytes a value has.
pub(crate) fn size_of(values: Scalar) -> usize
    ensures value { result ≡ size_of values }
    ensures least { 1 ≤ result }
    ensures most { result ≤ 8 }
{
    match values {
        Scalar::Int8 | Scalar::UInt8 => 1,
        Scalar::Int16 | Scalar::UInt16 => 2,
        Scalar::Int32 | Scalar::UInt32 | Scalar::Float32 => 4,
        Scalar::Float64 => 8,
    }
}

fn is_whole(values: Scalar) -> bool
    ensures { result ≡ is_whole_type values }
{
    !matches!(values, Scalar::Float32 | Scalar::Float64)
}

/// The number that the bytes of a whole value write, the least byte first.
pub(crate) fn number_of(values: Scalar, bytes: &[u8]) -> u64
    requires { length bytes.now ≡ size_of values }
    ensures value { result ≡ number_of values bytes.now }
    ensures within { result < span_of values }
{
    match values {
        Scalar::Int8 | Scalar::UInt8 => bytes[0] as u64,
        Scalar::Int16 | Scalar::UInt16 => u16::from_le_bytes(bytes.try_into().unwrap()) as u64,
        Scalar::Int32 | Scalar::UInt32 => u32::from_le_bytes(bytes.try_into().unwrap()) as u64,
        Scalar::Float32 | Scalar::Float64 => 0,
    }
}

/// Whether the number stands for a negative one.
pub(crate) fn is_negative(values: Scalar, number: u64) -> bool
    ensures { result ≡ is_negative values number }
{
    match values {
        Scalar::Int8 => number >= 1 << 7,
        Scalar::Int16 => number >= 1 << 15,
        Scalar::Int32 => number >= 1 << 31,
        Scalar::UInt8 | Scalar::UInt16 | Scalar::UInt32 | Scalar::Float32 | Scalar::Float64 =>
            false,
    }
}

/// How far a negative number and the one that stands for it are apart.
fn span_of(values: Scalar) -> u64
    ensures { result ≡ span_of values }
{
    match values {
        Scalar::Int8 | Scalar::UInt8 => 1 << 8,
        Scalar::Int16 | Scalar::UInt16 => 1 << 16,
        Scalar::Int32 | Scalar::UInt32 | Scalar::Float32 | Scalar::Float64 => 1 << 32,
    }
}

/// Writes a piece behind the first bytes, and answers where it ends.
fn put(into: &mut [u8], at: usize, piece: &[u8]) -> usize
    requires { at + length piece.now ≤ length into.old }
    ensures end { result ≡ at + length piece.now }
    ensures size { length into.new ≡ length into.old }
    ensures text { take result into.new ≡ take at into.old ++ piece.now }
{
    let end = at + piece.len();
    into[at..end].copy_from_slice(piece);
    end
}

/// Writes the digits of a number, and LF.
fn put_digits(into: &mut [u8], at: usize, number: u64) -> usize
    requires { at + 21 ≤ length into.old }
    ensures end { (at < result) × (result ≤ at + 21) }
    ensures size { length into.new ≡ length into.old }
    ensures text { take result into.new ≡ take at into.old ++ decimal number ++ codes "\n" }
{
    let mut buffer = Buffer::new();
    let end = put(into, at, buffer.format(number).as_bytes());
    put(into, end, b"\n")
}

/// Writes the digits of a whole value, and LF.
#[tactic(auto, unfolding(crate::specs::Values::number_text))]
fn put_number(into: &mut [u8], at: usize, values: Scalar, number: u64) -> usize
    requires within { number < span_of values }
    requires room { at + 22 ≤ length into.old }
    ensures end { (at < result) × (result ≤ at + 22) }
    ensures size { length into.new ≡ length into.old }
    ensures text { take result into.new ≡ take at into.old ++ number_text values number ++ codes "\n" }
{
    if is_negative(values, number) {
        let at = put(into, at, b"-");
        put_digits(into, at, span_of(values) - number)
    } else {
        put_digits(into, at, number)
    }
}

/// Writes a value as a token and LF behind the first bytes, and answers where it ends.
#[tactic(auto, unfolding(crate::specs::Values::token_of))]
pub(crate) fn put_token(
    into: &mut [u8],
    at: usize,
    coordinate: bool,
    values: Scalar,
    bytes: &[u8],
) -> usize
    requires value { length bytes.now ≡ size_of values }
    requires room { at + 24 ≤ length into.old }
    ensures end { (at < result) × (result ≤ at + 24) }
    ensures size { length into.new ≡ length into.old }
    ensures text { take result into.new ≡ take at into.old ++ token_of coordinate values bytes.now }
{
    if is_whole(values) {
        return put_number(into, at, values, number_of(values, bytes));
    }
    if coordinate {
        put(into, at, b"nan\n")
    } else {
        put(into, at, b"0\n")
    }
}
