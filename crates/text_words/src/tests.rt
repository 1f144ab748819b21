use crate::{line_words, number, three_numbers};
use arrayvec::ArrayVec;

#[test]
fn lines_are_cut_at_blanks(rt: HostRuntime) {
    let words: ArrayVec<&[u8], 4> = line_words(b"\t1  -20 \t x3 ");
    assert_eq!(rt; words.len(), 3, "words of a line");
    let words = words.as_slice();
    if words.len() == 3 {
        assert_eq!(rt; words[1], b"-20".as_slice(), "the second word");
        assert_eq!(rt; three_numbers(words, 0), None, "x3 is no number");
    }
    let words: ArrayVec<&[u8], 4> = line_words(b"7 8 -9 10 11");
    assert_eq!(rt; words.len(), 4, "no more words than are asked for");
    let words = words.as_slice();
    if words.len() == 4 {
        assert_eq!(rt;
            three_numbers(words, 1),
            Some([8, -9, 10]),
            "three in a row"
        );
    }
}

#[test]
fn numbers_have_up_to_18_digits(rt: HostRuntime) {
    let cases: [(&[u8], Option<i64>); 8] = [
        (b"0", Some(0)),
        (b"-0", Some(0)),
        (b"999999999999999999", Some(999_999_999_999_999_999)),
        (b"-999999999999999999", Some(-999_999_999_999_999_999)),
        (b"1000000000000000000", None),
        (b"", None),
        (b"-", None),
        (b"+1", None),
    ];
    for (text, value) in cases {
        assert_eq!(rt; number(text), value, "{text:?}");
    }
}
