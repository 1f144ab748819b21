//! Numbers among the words.

ghost use Rattle.std.specs.Prelude.{◌≡◌, ◌<◌, length, IfSome, MatchOption, Some, None};
ghost use Rattle.std.specs.List.{position};
ghost use Rattle.svo_words.specs.Numbers.{numbers_of, is_comma};
ghost use Rattle.svo_words.specs.NumberFronts.{number_before};

use text_words::number;

/// So many numbers with commas between them.
pub fn numbers<const N: usize>(text: &[u8]) -> Option<[i64; N]>
    requires { 0 < N }
    ensures { result ≡ numbers_of N text.now }
{
    let mut numbers = [0; N];
    let mut rest = text;
    for place in 0..N - 1 {
        let (number, behind) = number_before_comma(rest)?;
        numbers[place] = number;
        rest = behind;
    }
    numbers[N - 1] = number(rest)?;
    Some(numbers)
}

/// The number before the first comma, and the text after that comma.
#[tactic(auto, unfolding(crate::specs::NumberFronts::number_before))]
fn number_before_comma(text: &[u8]) -> Option<(i64, &[u8])>
    ensures { MatchOption result (number_before text.now ≡ None) (λ r. number_before text.now ≡ Some (r.0, r.1.now)) }
{
    let at = comma(text)?;
    let number = number(&text[..at])?;
    Some((number, &text[at + 1..]))
}

/// The place of the first comma.
fn comma(text: &[u8]) -> Option<usize>
    ensures place { result ≡ position is_comma text.now }
    ensures within { IfSome result (λ at. at < length text.now) }
{
    text.iter().position(|byte| *byte == b',')
}
