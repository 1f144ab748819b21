//! Whole numbers among words.

ghost use Rattle.std.specs.Prelude.{◌≡◌, ◌+◌, ◌<◌, ◌≤◌, ◌^◌, true, length, IfSome};
ghost use Rattle.std.specs.List.{list_all};
ghost use Rattle.std.specs.Char.{is_ascii_digit};
ghost use Rattle.std.specs.Str.Parse.{digits_value};
ghost use Rattle.text_words.specs.LineWords.{texts};
ghost use Rattle.text_words.specs.Numbers.{digits_of, number_of, three_from};

/// The numbers of three words in a row, from a place on. `None`: one of them is no number.
pub fn three_numbers(words: &[&[u8]], from: usize) -> Option<[i64; 3]>
    requires { from + 3 ≤ length words.now }
    ensures { result ≡ three_from (texts words.now) from }
{
    let x = number(words[from])?;
    let y = number(words[from + 1])?;
    let z = number(words[from + 2])?;
    Some([x, y, z])
}

/// The number of an optional `-` and 1 to 18 digits. `None`: the text is anything else.
#[tactic(auto, unfolding(crate::specs::Numbers::number_of))]
pub fn number(text: &[u8]) -> Option<i64>
    ensures { result ≡ number_of text.now }
{
    match text {
        [b'-', rest @ ..] => digits(rest).map(|size| -(size as i64)),
        _ => digits(text).map(|size| size as i64),
    }
}

/// The number of 1 to 18 digits.
fn digits(text: &[u8]) -> Option<u64>
    ensures value { result ≡ digits_of text.now }
    ensures within { IfSome result (λ n. n < 10 ^ 18) }
{
    if text.is_empty() || text.len() > 18 || !are_digits(text) {
        return None;
    }
    Some(digits_value(text))
}

/// Whether each byte is a digit.
fn are_digits(text: &[u8]) -> bool
    ensures { result ≡ list_all is_ascii_digit text.now }
{
    text.iter().all(|byte| byte.is_ascii_digit())
}

/// The number that digits write.
fn digits_value(text: &[u8]) -> u64
    requires digits { list_all is_ascii_digit text.now ≡ true }
    requires short { length text.now ≤ 18 }
    ensures value { result ≡ digits_value 10 text.now }
    ensures within { result < 10 ^ 18 }
{
    let mut value = 0;
    for digit in text {
        value = value * 10 + u64::from(*digit - b'0');
    }
    value
}
