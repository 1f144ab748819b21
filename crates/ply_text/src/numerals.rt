//! The parts of a decimal number.

ghost use Rattle.std.specs.Prelude.{◌≡◌, ◌≢◌, ◌≤◌, ◌++◌, ◌⊎◌, MatchBool, length, take, slice_index, option_copied, IfSome, IfNone};
ghost use Rattle.std.specs.Char.{IsNotAsciiDigit};
ghost use Rattle.std.specs.Str.Parse.{AllDigits};
ghost use Rattle.ply_text.specs.Numerals.{sign_text, fraction_text};
ghost use Rattle.ply_text.specs.NumeralParts.{SpellsTens, SpellsNoTens, SpellsParts, SpellsNoNumeral, SpellsCount, SpellsNoCount, HasNoSign, EndsFraction};
ghost use Rattle.ply_text.specs.Scaled.{unless_minus, if_minus};

use crate::wholes::read_whole;

/// The most digits of an exponent.
const MAX_EXPONENT_DIGITS: usize = 4;

/// The largest exponent.
const MAX_EXPONENT: u64 = 9999;

/// What stands before digits.
#[derive(Clone, Copy)]
pub(crate) enum Sign {
    Unsigned,
    Plus,
    Minus,
}

/// How many tens an exponent multiplies by, and how many it divides by.
#[derive(Clone, Copy)]
pub(crate) struct Tens {
    pub(crate) up: u32,
    pub(crate) down: u32,
}

/// The parts of a decimal number, the digits before its point and after it apart.
#[derive(Clone, Copy)]
pub(crate) struct Parts<'a> {
    pub(crate) sign: Sign,
    pub(crate) whole: &'a [u8],
    pub(crate) fraction: &'a [u8],
    pub(crate) tens: Tens,
}

/// The parts of the number that the token spells.
pub(crate) fn take_apart(token: &[u8]) -> Option<Parts<'_>>
    ensures found { IfSome result (λ parts. SpellsParts token.now parts) }
    ensures missing { IfNone result (SpellsNoNumeral token.now) }
{
    let (sign, text) = read_sign(token);
    let (whole, text) = read_digits(text);
    let (fraction, text) = read_fraction(text);
    let tens = read_exponent(text)?;
    let fraction = fraction.unwrap_or(&[]);
    if whole.len() + fraction.len() == 0 {
        return None;
    }
    Some(Parts {
        sign,
        whole,
        fraction,
        tens,
    })
}

/// The sign at the front of the text, and what follows it.
pub(crate) fn read_sign(text: &[u8]) -> (Sign, &[u8])
    ensures spelled { text.now ≡ sign_text result.0 ++ result.1.now }
    ensures none { result.0 ≡ Sign.Unsigned → HasNoSign result.1.now }
{
    match text.split_first() {
        Some((b'+', rest)) => (Sign::Plus, rest),
        Some((b'-', rest)) => (Sign::Minus, rest),
        _ => (Sign::Unsigned, text),
    }
}

/// The digits at the front of the text, and what follows them.
fn read_digits(text: &[u8]) -> (&[u8], &[u8])
    ensures spelled { text.now ≡ result.0.now ++ result.1.now }
    ensures digits { AllDigits 10 result.0.now }
    ensures end { IsNotAsciiDigit (slice_index result.1.now 0) }
{
    let count = leading_digits(text);
    text.split_at(count)
}

/// How many digits the text begins with.
fn leading_digits(text: &[u8]) -> usize
    ensures within { result ≤ length text.now }
    ensures digits { AllDigits 10 (take result text.now) }
    ensures end { IsNotAsciiDigit (slice_index text.now result) }
{
    for (at, byte) in text.iter().enumerate() {
        if !byte.is_ascii_digit() {
            return at;
        }
    }
    text.len()
}

/// The digits behind a point at the front of the text, and what follows them.
fn read_fraction(text: &[u8]) -> (Option<&[u8]>, &[u8])
    ensures spelled { text.now ≡ fraction_text (option_copied result.0) ++ result.1.now }
    ensures digits { IfSome (option_copied result.0) (AllDigits 10) }
    ensures end { EndsFraction (option_copied result.0) result.1.now }
{
    match text.split_first() {
        Some((b'.', rest)) => {
            let (digits, rest) = read_digits(rest);
            (Some(digits), rest)
        }
        _ => (None, text),
    }
}

/// The tens of the exponent that the text is.
fn read_exponent(text: &[u8]) -> Option<Tens>
    ensures found { IfSome result (λ tens. SpellsTens text.now tens) }
    ensures missing { IfNone result (SpellsNoTens text.now) }
{
    let Some((letter, rest)) = text.split_first() else {
        return Some(Tens { up: 0, down: 0 });
    };
    if !is_exponent_letter(*letter) {
        return None;
    }
    let (sign, count) = read_count(rest)?;
    Some(tens_of(sign, count))
}

/// Whether an exponent begins with this byte.
fn is_exponent_letter(byte: u8) -> bool
    ensures { MatchBool result ((byte ≡ 101) ⊎ (byte ≡ 69)) ((byte ≢ 101) × (byte ≢ 69)) }
{
    byte == b'e' || byte == b'E'
}

/// The sign and the number of an exponent's digits, which the text is.
fn read_count(text: &[u8]) -> Option<(Sign, u32)>
    ensures found { IfSome result (λ p. SpellsCount text.now p.0 p.1) }
    ensures missing { IfNone result (SpellsNoCount text.now) }
{
    let (sign, digits) = read_sign(text);
    if digits.len() > MAX_EXPONENT_DIGITS {
        return None;
    }
    let count = read_whole(digits, MAX_EXPONENT)?;
    Some((sign, count as u32))
}

/// The tens of an exponent with this sign.
fn tens_of(sign: Sign, count: u32) -> Tens
    ensures up { result.up ≡ unless_minus sign count }
    ensures down { result.down ≡ if_minus sign count }
{
    match sign {
        Sign::Minus => Tens { up: 0, down: count },
        Sign::Plus | Sign::Unsigned => Tens { up: count, down: 0 },
    }
}
