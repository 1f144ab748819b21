//! Files in memory that are checked and asked.

ghost use Rattle.std.specs.Prelude.{◌≡◌, ◌<◌, ◌≤◌, ◌^◌, length};

use node_check::{CheckFault, WalkFault, check, face_of, has, next_cell};
use node_file::LentWords;
use std::marker::Brand;
use std::sync::ledger::{Blank, Ledger};
use svo_base::{Grid, Steps};

/// What the checker answers, and which number of calls it made.
fn checked_in<L: Ledger>(case: &Case, words: &[u64], refused: u64, blank: Blank) -> Answer
    requires some { 1 ≤ length words.now }
    requires name { blank.name ≡ L.name }
    requires parts { blank.parts ≡ L.parts }
    requires one { 0 < blank.parts }
{
    let Ok(grid) = Grid::new(case.depth, [0, 0, 0], 1) else {
        return Answer::NoGrid;
    };
    if grid.depth() > 12 {
        return Answer::NoGrid;
    }
    let mut reads = Steps::<L>::new(blank);
    let mut nodes = LentWords {
        masks: case.masks,
        grid,
        cells: case.cells,
        words,
        refused,
        calls: 0,
        faults: 0,
    };
    match check(&mut nodes, &mut reads) {
        Ok(totals) => Answer::Taken(totals.cells, nodes.calls),
        Err(CheckFault::Refused { number }) => Answer::Refused(number),
        Err(CheckFault::Failed) => Answer::Failed,
    }
}

fn checked(case: &Case, words: &[u64], refused: u64) -> Answer
    requires { 1 ≤ length words.now }
{
    checked_in::<Brand>(case, words, refused, Blank::new(1))
}

/// A file but for its words.
#[derive(Clone, Copy, Debug)]
struct Case {
    masks: bool,
    depth: i64,
    cells: u64,
}

/// What a check comes to: the cells and calls of a file that is taken, or why it is not.
#[derive(Clone, Copy, Debug, PartialEq, Eq)]
enum Answer {
    NoGrid,
    Failed,
    Refused(u64),
    Taken(u64, u64),
}

const AROUND: [u64; 17] = [
    1, 1, 1, 1, 1, 1, 1, 1, 128, 320, 544, 784, 1032, 1284, 1538, 1793, 2303,
];

const AROUND_MASKS: [u64; 9] = [128, 64, 32, 16, 8, 4, 2, 1, 255];

const FACES: [u64; 5] = [257, 257, 257, 1, 135];

/// Words that are changed: the file, the number of the word, what it is then, and the answer.
const CHANGES: &[(bool, usize, u64, Answer)] = &[
    (false, 16, 2303, Answer::Taken(8, 17)),
    (false, 0, 2, Answer::Refused(0)),
    (false, 9, 64, Answer::Refused(9)),
    (false, 7, 1_099_511_627_265, Answer::Taken(8, 17)),
    (false, 7, 1_099_511_627_521, Answer::Refused(7)),
    (false, 15, 1537, Answer::Refused(15)),
    (false, 16, 2047, Answer::Refused(8)),
    (true, 8, 255, Answer::Taken(8, 9)),
    (true, 8, 2303, Answer::Refused(8)),
    (true, 3, 272, Answer::Refused(3)),
    (true, 5, 0, Answer::Refused(5)),
    (true, 5, 12, Answer::Refused(9)),
];

#[test]
fn changed_words_are_refused_by_their_number(rt: HostRuntime) {
    for &(masks, at, word, answer) in CHANGES {
        let case = Case {
            masks,
            depth: 2,
            cells: 8,
        };
        let came = if masks {
            let mut words = AROUND_MASKS;
            words[at % 9] = word;
            checked(&case, &words, 0)
        } else {
            let mut words = AROUND;
            words[at % 17] = word;
            checked(&case, &words, 0)
        };
        assert_eq!(rt; came, answer, "word {at} set to {word}");
    }
}

#[test]
fn small_files_are_checked_whole(rt: HostRuntime) {
    for masks in [false, true] {
        for cells in 0..2 {
            let case = Case {
                masks,
                depth: 3,
                cells,
            };
            let empty = if cells == 0 {
                Answer::Taken(0, 1)
            } else {
                Answer::Refused(1)
            };
            assert_eq!(rt; checked(&case, &[0], 0), empty, "no cells");
        }
    }
    let shared = Case {
        masks: true,
        depth: 3,
        cells: 2,
    };
    let two_parents = checked(&shared, &[1, 1, 1, 259], 0);
    assert_eq!(rt; two_parents, Answer::Refused(2), "children of two parents");
    let faces = Case {
        masks: false,
        depth: 1,
        cells: 4,
    };
    assert_eq!(rt;
        checked(&faces, &FACES, 0),
        Answer::Taken(4, 5),
        "with faces"
    );
    for refused in 1..6 {
        let failed = checked(&faces, &FACES, refused);
        assert_eq!(rt; failed, Answer::Failed, "at read {refused}");
    }
    for length in 1..5 {
        let front = checked(&faces, &FACES[..length], 0);
        assert!(rt; front != Answer::Taken(4, 5), "the first {length} words");
    }
}

/// Whether the cell of a code is filled, its face, and the next filled one from the code on.
fn asked_in<L: Ledger>(
    masks: bool,
    words: &[u64],
    code: u64,
    blank: Blank,
) -> Result<(bool, Option<u32>, Option<u64>), WalkFault>
    requires some { 1 ≤ length words.now }
    requires code { code < 8 }
    requires name { blank.name ≡ L.name }
    requires parts { blank.parts ≡ L.parts }
    requires one { 0 < blank.parts }
{
    let depth = if words.len() == 5 { 1 } else { 2 };
    let Ok(grid) = Grid::new(depth, [0, 0, 0], 1) else {
        return Err(WalkFault::Failed);
    };
    if grid.depth() > 12 {
        return Err(WalkFault::Failed);
    }
    let mut reads = Steps::<L>::new(blank);
    let mut nodes = LentWords {
        masks,
        grid,
        cells: 8,
        words,
        refused: 0,
        calls: 0,
        faults: 0,
    };
    let filled = has(&mut nodes, code, &mut reads)?;
    let face = face_of(&mut nodes, code, &mut reads)?;
    let next = next_cell(&mut nodes, code, &mut reads)?;
    Ok((filled, face, next))
}

fn asked(
    masks: bool,
    words: &[u64],
    code: u64,
) -> Result<(bool, Option<u32>, Option<u64>), WalkFault>
    requires some { 1 ≤ length words.now }
    requires code { code < 8 }
{
    asked_in::<Brand>(masks, words, code, Blank::new(1))
}

#[test]
fn cells_and_faces_are_found(rt: HostRuntime) {
    for code in 0..8 {
        let face = match code {
            0 | 1 | 2 => Some(1),
            7 => Some(0),
            _ => None,
        };
        let next = Some(if code < 3 { code } else { 7 });
        let small = asked(false, &FACES, code);
        assert_eq!(rt;
            small,
            Ok((face.is_some(), face, next)),
            "cell {code} with faces"
        );
        let corner = if code == 7 { Some(0) } else { None };
        let expected = Ok((code == 7, corner, Some(7)));
        let around = asked(false, &AROUND, code);
        assert_eq!(rt; around, expected, "cell {code} around the middle");
        let masks = asked(true, &AROUND_MASKS, code);
        assert_eq!(rt; masks, expected, "cell {code} in format 1");
    }
    let mut words = AROUND_MASKS;
    words[8] = 2303;
    let refused = Err(WalkFault::Refused {
        number: 8,
        word: 2303,
    });
    assert_eq!(rt; asked(true, &words, 7), refused, "a base above the number");
    let mut words = FACES;
    words[3] = 2;
    let refused = Err(WalkFault::Refused { number: 3, word: 2 });
    assert_eq!(rt; asked(false, &words, 7), refused, "no cell's word");
}
