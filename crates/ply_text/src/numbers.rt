//! Decimal numbers of a text, as whole numbers at a scale.

ghost use Rattle.std.specs.Prelude.{◌≡◌, ◌≤◌, ◌^◌, ℕ, ℤ, Bool, List, Result, IfOk, length, unsigned_abs};
ghost use Rattle.ply_text.specs.Numerals.{Numeral, IsNumeral, spelled};
ghost use Rattle.ply_text.specs.Scaled.{ReadsNumber, settled};
ghost use Rattle.ply_text.specs.Fixed.{fixed_of};

use crate::numerals::{Sign, read_sign, take_apart};
use crate::sizes::{Quotient, scale, whole_times};
use crate::wholes::read_whole;

/// The largest size of a number.
const MAX_SIZE: u64 = 1 << 30;

/// Why a token is no coordinate.
#[derive(Clone, Copy, Debug, PartialEq, Eq)]
pub enum NumberFault {
    /// The token is not a decimal number.
    BadNumber,
    /// The number is not whole at the scale, and cutting was not asked for.
    NotWhole,
    /// Its size at the scale, cut to a whole number, is above 2^30.
    OutOfRange,
}

/// The decimal number of a token of at most 255 bytes, times ten to the power of `decimals`, which is
/// at most 9.
///
/// A decimal number is `+`, `-` or no sign, then digits, of which there is at least one, with at most
/// one point among, before or after them, then perhaps `e` or `E`, a sign or none, and 1 to 4 digits,
/// which say by which power of ten the number is multiplied. With `cut` the result is cut toward zero.
///
/// # Errors
///
/// The first of these that holds:
///
/// - `BadNumber`: the token is anything else.
/// - `NotWhole`: the result is not whole, and `cut` was not asked for.
/// - `OutOfRange`: its size, cut to a whole number, is above 2^30.
pub fn read_fixed(token: &[u8], decimals: u32, cut: bool) -> Result<i32, NumberFault>
    requires short { length token.now ≤ 255 }
    requires scale { decimals ≤ 9 }
    ensures reads { ReadsNumber token.now decimals cut result }
    ensures fixed { result ≡ fixed_of decimals cut token.now }
    ensures within { IfOk result (λ n. unsigned_abs n ≤ 2 ^ 30) }
{
    let (sign, text) = read_sign(token);
    match read_whole(text, MAX_SIZE) {
        Some(size) => settle(sign, whole_times(size, decimals), cut),
        None => read_decimal(token, decimals, cut),
    }
}

/// A token's number at a scale, or the reason why it has none, is one alone, and `fixed_of` computes it.
pub fn one_reading()
    ensures { (token : List ℕ) (decimals : ℕ) (cut : Bool) (result : Result ℤ NumberFault)
        → ReadsNumber token decimals cut result → result ≡ fixed_of decimals cut token }
{}

/// The same, of a token that need not be digits behind a sign.
fn read_decimal(token: &[u8], decimals: u32, cut: bool) -> Result<i32, NumberFault>
    requires short { length token.now ≤ 255 }
    requires scale { decimals ≤ 9 }
    ensures reads { ReadsNumber token.now decimals cut result }
    ensures within { IfOk result (λ n. unsigned_abs n ≤ 2 ^ 30) }
{
    let Some(parts) = take_apart(token) else {
        return Err(NumberFault::BadNumber);
    };
    let quotient = scale(&parts, decimals);
    settle(parts.sign, quotient, cut)
}

/// A token is the text of one decimal number at most.
pub fn one_numeral()
    ensures { (a b : Numeral) → IsNumeral a → IsNumeral b → spelled a ≡ spelled b → a ≡ b }
{}

/// A number of this sign and size, cut toward zero.
fn settle(sign: Sign, quotient: Quotient, cut: bool) -> Result<i32, NumberFault>
    ensures number { result ≡ settled sign quotient.size quotient.is_whole cut }
    ensures within { IfOk result (λ n. unsigned_abs n ≤ 2 ^ 30) }
{
    if !(quotient.is_whole || cut) {
        return Err(NumberFault::NotWhole);
    }
    if quotient.size > MAX_SIZE {
        return Err(NumberFault::OutOfRange);
    }
    let size = quotient.size as i32;
    Ok(match sign {
        Sign::Minus => -size,
        Sign::Plus | Sign::Unsigned => size,
    })
}
