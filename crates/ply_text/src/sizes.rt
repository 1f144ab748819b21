//! The size of a decimal number at a scale, cut to a whole number.

ghost use Rattle.std.specs.Prelude.{true, ◌≡◌, ◌+◌, ◌-◌, ◌*◌, ◌/◌, ◌%◌, ◌^◌, ◌≤◌, ◌++◌, ◌==◌, length, take, drop};
ghost use Rattle.std.specs.List.{list_all};
ghost use Rattle.std.specs.Str.Parse.{AllDigits, digits_value, digits_value_after};
ghost use Rattle.ply_text.specs.NumeralParts.{IsWithinBounds, parts_top, parts_bottom, capped};

use crate::numerals::Parts;

/// Stands for every size above 2^30.
const TOO_LARGE: u64 = (1 << 30) + 1;

/// A size that is not 0 and is multiplied by more tens than this is too large.
const MAX_TENS: u32 = 9;

/// A size cut to a whole number, `TOO_LARGE` where it is larger than that, and whether nothing was cut off.
#[derive(Clone, Copy)]
pub(crate) struct Quotient {
    pub(crate) size: u64,
    pub(crate) is_whole: bool,
}

/// The size of a number of these parts, times ten to the power of `decimals`.
pub(crate) fn scale(parts: &Parts<'_>, decimals: u32) -> Quotient
    requires scale { decimals ≤ 9 }
    requires within { IsWithinBounds parts.now }
    ensures size { result.size ≡ capped (parts_top parts.now decimals / parts_bottom parts.now) }
    ensures is_whole { result.is_whole ≡ (parts_top parts.now decimals % parts_bottom parts.now == 0) }
{
    let up = decimals + parts.tens.up;
    let down = parts.fraction.len() as u32 + parts.tens.down;
    if up >= down {
        Quotient {
            size: multiplied(value_of(parts.whole, parts.fraction), up - down),
            is_whole: true,
        }
    } else {
        divided(parts.whole, parts.fraction, (down - up) as usize)
    }
}

/// A whole number times ten to the power of `tens`.
pub(crate) fn whole_times(size: u64, tens: u32) -> Quotient
    requires { size ≤ 2 ^ 30 + 1 }
    ensures size { result.size ≡ capped (size * 10 ^ tens) }
    ensures is_whole { result.is_whole ≡ true }
{
    Quotient {
        size: multiplied(size, tens),
        is_whole: true,
    }
}

/// The number that the digits of both parts write, as far as sizes are told apart.
fn value_of(whole: &[u8], fraction: &[u8]) -> u64
    requires { AllDigits 10 (whole.now ++ fraction.now) }
    ensures { result ≡ capped (digits_value 10 (whole.now ++ fraction.now)) }
{
    value_after(value_after(0, whole), fraction)
}

/// The number that the digits write behind those of `before`, as far as sizes are told apart.
fn value_after(before: u64, digits: &[u8]) -> u64
    requires before { before ≤ 2 ^ 30 + 1 }
    requires digits { AllDigits 10 digits.now }
    ensures { result ≡ capped (digits_value_after 10 before digits.now) }
{
    let mut value = before;
    for byte in digits {
        value = TOO_LARGE.min(value * 10 + u64::from(byte - b'0'));
    }
    value
}

/// A size times so many tens, as far as sizes are told apart.
fn multiplied(size: u64, tens: u32) -> u64
    requires { size ≤ 2 ^ 30 + 1 }
    ensures { result ≡ capped (size * 10 ^ tens) }
{
    if size == 0 {
        return 0;
    }
    if tens > MAX_TENS {
        return TOO_LARGE;
    }
    TOO_LARGE.min(size * 10u64.pow(tens))
}

/// The number that the digits of both parts write, divided by so many tens.
fn divided(whole: &[u8], fraction: &[u8], tens: usize) -> Quotient
    requires { AllDigits 10 (whole.now ++ fraction.now) }
    ensures size { result.size ≡ capped (digits_value 10 (whole.now ++ fraction.now) / 10 ^ tens) }
    ensures is_whole { result.is_whole ≡ (digits_value 10 (whole.now ++ fraction.now) % 10 ^ tens == 0) }
{
    let ((front, back), (cut_whole, cut_fraction)) = without_last(whole, fraction, tens);
    Quotient {
        size: value_of(front, back),
        is_whole: are_zeros(cut_whole, cut_fraction),
    }
}

/// The bytes of both parts but the last, so many or all, and these last ones.
fn without_last<'a>(
    whole: &'a [u8],
    fraction: &'a [u8],
    count: usize,
) -> ((&'a [u8], &'a [u8]), (&'a [u8], &'a [u8]))
    ensures kept { result.0.0.now ++ result.0.1.now ≡ take (length (whole.now ++ fraction.now) - count) (whole.now ++ fraction.now) }
    ensures cut { result.1.0.now ++ result.1.1.now ≡ drop (length (whole.now ++ fraction.now) - count) (whole.now ++ fraction.now) }
{
    let kept = (whole.len() + fraction.len()).saturating_sub(count);
    let (front, cut_whole) = whole.split_at(kept.min(whole.len()));
    let (back, cut_fraction) = fraction.split_at(kept.saturating_sub(whole.len()));
    ((front, back), (cut_whole, cut_fraction))
}

/// Whether all the digits of both parts are 0.
fn are_zeros(whole: &[u8], fraction: &[u8]) -> bool
    ensures { result ≡ list_all (λ digit. digit == 48) (whole.now ++ fraction.now) }
{
    is_zero(whole) && is_zero(fraction)
}

/// Whether all the digits are 0.
fn is_zero(digits: &[u8]) -> bool
    ensures { result ≡ list_all (λ digit. digit == 48) digits.now }
{
    digits.iter().all(|digit| *digit == b'0')
}
