//! The words of a line.

ghost use Rattle.std.specs.Prelude.{◌≡◌, ◌≤◌, length, MatchOption, None, Some};
ghost use Rattle.std.specs.List.{prefix_len};
ghost use Rattle.text_words.specs.LineWords.{is_blank, word_size, next_word, words_of, texts};

use arrayvec::ArrayVec;

/// The first words of a line, at most `N`: its longest runs of bytes other than space and tab.
pub fn line_words<const N: usize>(line: &[u8]) -> ArrayVec<&[u8], N>
    ensures { texts result.items ≡ words_of N line.now }
{
    let mut words = ArrayVec::new();
    let mut rest = line;
    while !words.is_full() {
        let Some((word, behind)) = next_word(rest) else {
            return words;
        };
        words.push(word);
        rest = behind;
    }
    words
}

/// The word that stands first in a text, and what stands behind it.
pub fn next_word(text: &[u8]) -> Option<(&[u8], &[u8])>
    ensures { MatchOption result (next_word text.now ≡ None) (λ found. next_word text.now ≡ Some (found.0.now, found.1.now)) }
{
    let text = &text[blanks(text)..];
    if text.is_empty() {
        return None;
    }
    Some(text.split_at(letters(text)))
}

fn is_blank(byte: u8) -> bool
    ensures { result ≡ is_blank byte }
{
    byte == b' ' || byte == b'\t'
}

/// How many blanks stand at the front of a text.
fn blanks(text: &[u8]) -> usize
    ensures size { result ≡ prefix_len is_blank text.now }
    ensures within { result ≤ length text.now }
{
    text.iter().take_while(|byte| is_blank(**byte)).count()
}

/// How many bytes of a word stand at the front of a text.
fn letters(text: &[u8]) -> usize
    ensures size { result ≡ word_size text.now }
    ensures within { result ≤ length text.now }
{
    text.iter().take_while(|byte| !is_blank(**byte)).count()
}
