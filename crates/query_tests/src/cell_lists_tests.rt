//! Lists and lifted files of small octrees, and what is left where a device fails.

ghost use Rattle.std.specs.Prelude.{◌≡◌, ◌<◌, ◌≤◌, length};

use cell_lists::{lift, list_cells};
use dev_traits::{MemSink, PartFail};
use node_check::{AnswerStop, CellWalk, WalkFault, next_cell};
use node_file::{LentWords, header_bytes, trailer_bytes};
use std::alloc::{AllocError, Global};
use std::marker::Brand;
use std::sync::ledger::{Blank, Ledger};
use svo_base::{Grid, Steps};

/// A file, and which call of its words is refused.
#[derive(Clone, Copy, Debug)]
struct Case {
    masks: bool,
    depth: i64,
    words: &'static [u64],
    cells: u64,
    text: &'static str,
    lifted: &'static [u64],
}

/// What is put out by a call, how it ends, and how many words were read.
#[derive(Drop)]
struct Answered {
    sink: MemSink,
    end: Result<(), AnswerStop>,
    reads: u64,
}

/// Puts out a list, or a lifted file. The words' call and the sink's calls of these numbers are refused.
fn put_in<L: Ledger, M: Ledger>(
    alloc: Global,
    case: &Case,
    lifts: bool,
    refused: u64,
    fails: &[PartFail],
    blank: Blank,
    other: Blank,
) -> Result<Answered, AllocError>
    requires name { blank.name ≡ L.name }
    requires parts { blank.parts ≡ L.parts }
    requires one { 0 < blank.parts }
    requires other_name { other.name ≡ M.name }
    requires other_parts { other.parts ≡ M.parts }
    requires other_one { 0 < other.parts }
{
    let mut sink = MemSink::new(alloc, 1 << 14, fails)?;
    let mut reads = Steps::<L>::new(blank);
    let mut moves = Steps::<M>::new(other);
    let grid = match Grid::new(case.depth, [0, -1, 2], 1) {
        Ok(grid) => grid,
        Err(_) => return Ok(Answered {
            sink,
            end: Err(AnswerStop::WriteFault),
            reads: 0,
        }),
    };
    if case.words.len() == 0 {
        return Ok(Answered {
            sink,
            end: Err(AnswerStop::WriteFault),
            reads: 0,
        });
    }
    let mut nodes = LentWords {
        masks: case.masks,
        grid,
        cells: case.cells,
        words: case.words,
        refused,
        calls: 0,
        faults: 0,
    };
    let end = if lifts {
        lift(&mut nodes, &mut sink, &mut reads, &mut moves)
    } else {
        list_cells(&mut nodes, &mut sink, &mut reads)
    };
    let reads = nodes.calls;
    Ok(Answered { sink, end, reads })
}

fn put(
    alloc: Global,
    case: &Case,
    lifts: bool,
    refused: u64,
    fails: &[PartFail],
) -> Result<Answered, AllocError> {
    put_in::<Brand, Brand>(
        alloc,
        case,
        lifts,
        refused,
        fails,
        Blank::new(1),
        Blank::new(1),
    )
}

/// The file of format 2 with these words.
fn file_bytes(alloc: Global, case: &Case) -> Result<Vec<u8>, AllocError> {
    let mut bytes = Vec::new(alloc);
    if let Ok(grid) = Grid::new(case.depth, [0, -1, 2], 1) {
        bytes.extend_from_slice(&header_bytes(&grid))?;
    }
    for word in case.lifted {
        bytes.extend_from_slice(&word.to_le_bytes())?;
    }
    bytes.extend_from_slice(&trailer_bytes(case.lifted.len() as u64, case.cells))?;
    Ok(bytes)
}

const AROUND: &[u64] = &[
    1, 1, 1, 1, 1, 1, 1, 1, 128, 320, 544, 784, 1032, 1284, 1538, 1793, 2303,
];

const AROUND_TEXT: &str =
    "7 1 1 1\n14 2 1 1\n21 1 2 1\n28 2 2 1\n35 1 1 2\n42 2 1 2\n49 1 2 2\n56 2 2 2\n";

/// Files, their lists and their words in format 2.
const CASES: &[Case] = &[
    Case {
        masks: true,
        depth: 1,
        words: &[7],
        cells: 3,
        text: "0 0 0 0\n1 1 0 0\n2 0 1 0\n",
        lifted: &[1, 1, 1, 7],
    },
    Case {
        masks: true,
        depth: 2,
        words: &[128, 64, 32, 16, 8, 4, 2, 1, 255],
        cells: 8,
        text: AROUND_TEXT,
        lifted: AROUND,
    },
    Case {
        masks: false,
        depth: 2,
        words: AROUND,
        cells: 8,
        text: AROUND_TEXT,
        lifted: AROUND,
    },
    Case {
        masks: false,
        depth: 1,
        words: &[257, 257, 257, 1, 135],
        cells: 4,
        text: "0 0 0 0\n1 1 0 0\n2 0 1 0\n7 1 1 1\n",
        lifted: &[257, 257, 257, 1, 135],
    },
    Case {
        masks: true,
        depth: 12,
        words: &[0],
        cells: 0,
        text: "",
        lifted: &[0],
    },
];

#[test]
fn cells_are_listed_and_lifted(rt: HostRuntime) {
    for case in CASES {
        let listed = put(rt.alloc(), case, false, 0, &[]).expect(&rt, "memory");
        assert_eq!(rt; listed.end, Ok(()), "the list is put");
        assert!(rt; listed.sink.bytes() == case.text.as_bytes(), "the list");
        assert!(rt;
            listed.reads <= case.words.len() as u64,
            "each word is read once"
        );
        let lifted = put(rt.alloc(), case, true, 0, &[]).expect(&rt, "memory");
        let file = file_bytes(rt.alloc(), case).expect(&rt, "memory");
        assert_eq!(rt; lifted.end, Ok(()), "the file is put");
        assert!(rt; lifted.sink.bytes() == file.as_slice(), "the file");
        assert!(rt;
            lifted.reads <= case.words.len() as u64,
            "each word is read once"
        );
    }
}

#[test]
fn a_fault_leaves_a_front(rt: HostRuntime) {
    let fault = Err(AnswerStop::Walk(WalkFault::Failed));
    for case in CASES {
        let file = file_bytes(rt.alloc(), case).expect(&rt, "memory");
        for refused in 1..20 {
            let listed = put(rt.alloc(), case, false, refused, &[]).expect(&rt, "memory");
            let ends = listed.reads == refused;
            assert_eq!(rt; listed.end == fault, ends, "the list at read {refused}");
            assert!(rt;
                case.text.as_bytes().starts_with(listed.sink.bytes()),
                "a front of the list"
            );
            let lifted = put(rt.alloc(), case, true, refused, &[]).expect(&rt, "memory");
            let ends = lifted.reads == refused;
            assert_eq!(rt; lifted.end == fault, ends, "the file at read {refused}");
            assert!(rt;
                file.as_slice().starts_with(lifted.sink.bytes()),
                "a front of the file"
            );
        }
        let fails = [PartFail { call: 1, taken: 3 }];
        let listed = put(rt.alloc(), case, false, 0, &fails).expect(&rt, "memory");
        assert_eq!(rt; listed.end, Err(AnswerStop::WriteFault), "no list");
        assert!(rt;
            case.text.as_bytes().starts_with(listed.sink.bytes()),
            "a front of the list"
        );
        let lifted = put(rt.alloc(), case, true, 0, &fails).expect(&rt, "memory");
        assert_eq!(rt; lifted.end, Err(AnswerStop::WriteFault), "no file");
        assert!(rt;
            file.as_slice().starts_with(lifted.sink.bytes()),
            "a front of the file"
        );
    }
}

/// Whether a walk from a code on gives first what the search from the root gives.
fn agrees_in<L: Ledger>(case: &Case, from: u64, blank: Blank) -> bool
    requires name { blank.name ≡ L.name }
    requires parts { blank.parts ≡ L.parts }
    requires one { 0 < blank.parts }
{
    let grid = match Grid::new(case.depth, [0, -1, 2], 1) {
        Ok(grid) => grid,
        Err(_) => return false,
    };
    if case.words.len() == 0 {
        return false;
    }
    let mut nodes = LentWords {
        masks: case.masks,
        grid,
        cells: case.cells,
        words: case.words,
        refused: 0,
        calls: 0,
        faults: 0,
    };
    let mut reads = Steps::<L>::new(blank);
    let mut walk = match CellWalk::new(&mut nodes, from, &mut reads) {
        Ok(walk) => walk,
        Err(_) => return false,
    };
    let first = walk.next(&mut nodes, &mut reads);
    let plain = next_cell(&mut nodes, from, &mut reads);
    first == plain
}

fn agrees(case: &Case, from: u64) -> bool {
    agrees_in::<Brand>(case, from, Blank::new(1))
}

#[test]
fn a_walk_begins_at_any_code(rt: HostRuntime) {
    for case in CASES {
        for from in 0..66 {
            assert!(rt; agrees(case, from), "from code {from}");
        }
    }
}
