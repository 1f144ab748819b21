//! Texts of rays over node files in a store, read in small pieces. Answers were worked out by hand.

ghost use Rattle.std.specs.Prelude.{◌≡◌, ◌<◌};

use dev_traits::{ByteSink, ByteSource, MemSink, MemSource, MemStore, NodeStore, PartFail};
use node_check::WalkFault;
use node_file::{Frame, Nodes};
use ray_answers::LineFault::{BadRay, LineTooLong, RayRange};
use ray_answers::LineStop::{AtLine, ReadFault, Walk, WriteFault};
use ray_answers::{LineStop, QueryKind, answer_text, answers_are_one, fronts_are_of_all_answers};
use std::alloc::{AllocError, Global};
use std::marker::Brand;
use std::sync::ledger::{Blank, Ledger};
use std::test::Fail;
use svo_base::Steps;

/// The eight cells around (2,2,2) at depth 2, in format 1, which keeps no faces.
const EIGHT: [u8; 152] =
    *b"SVOCUBE1\x02\0\0\0\0\0\0\0\0\0\0\0\0\0\0\0\0\0\0\0\0\0\0\0\0\0\0\0\0\0\0\0\x01\0\0\0\0\0\0\0\x80\0\0\0\0\0\0\0\x40\0\0\0\0\0\0\0\x20\0\0\0\0\0\0\0\x10\0\0\0\0\0\0\0\x08\0\0\0\0\0\0\0\x04\0\0\0\0\0\0\0\x02\0\0\0\0\0\0\0\x01\0\0\0\0\0\0\0\xff\0\0\0\0\0\0\0\0\0\0\0\0\0\0\0\x09\0\0\0\0\0\0\0\x08\0\0\0\0\0\0\0SVOCEND1";

/// The cells 0, 1 and 2 with face 1 and the cell 7 with face 0 at depth 1, in format 2.
const FACED: [u8; 120] =
    *b"SVOCUBE2\x01\0\0\0\0\0\0\0\0\0\0\0\0\0\0\0\0\0\0\0\0\0\0\0\0\0\0\0\0\0\0\0\x01\0\0\0\0\0\0\0\x01\x01\0\0\0\0\0\0\x01\x01\0\0\0\0\0\0\x01\x01\0\0\0\0\0\0\x01\0\0\0\0\0\0\0\x87\0\0\0\0\0\0\0\0\0\0\0\0\0\0\0\x05\0\0\0\0\0\0\0\x04\0\0\0\0\0\0\0SVOCEND2";

/// A text, what is put out, and how the answers end.
type Row = (&'static str, &'static str, Result<(), LineStop>);

const ON_EIGHT: &[Row] = &[
    ("", "", Ok(())),
    ("\n\r\n \t\n", "", Ok(())),
    ("-1 2 2 1 0 0", "hit 2/1 cell 7 face 0\n", Ok(())),
    ("-1 0 0 4 3 3\n", "hit 1/2 cell 7 face 0\n", Ok(())),
    (
        "0 4 0 1 -1 0\n2 2 2 1 0 0\r\n",
        "none\nhit 0/1 cell 7 face 0\n",
        Ok(()),
    ),
    ("\n5\t2 2  -1 0 0 \n", "hit 2/1 cell 14 face 0\n", Ok(())),
    ("1 2 3", "", Err(AtLine(BadRay(0)))),
    ("\n1 2 3 4 5 6 7\n", "", Err(AtLine(BadRay(1)))),
    (
        "2 2 2 1 0 0\n1 2 3 4 5 +6\n2 2 2 1 0 0\n",
        "hit 0/1 cell 7 face 0\n",
        Err(AtLine(BadRay(12))),
    ),
    ("2 2 2 1 0 -\n", "", Err(AtLine(BadRay(0)))),
    (
        "2 2 2 1 0 0000000000000000000\n",
        "",
        Err(AtLine(BadRay(0))),
    ),
    (
        "2 2 2 1 0 000000000000000000\n",
        "hit 0/1 cell 7 face 0\n",
        Ok(()),
    ),
    ("0 0 0 0 0 0\n", "", Err(AtLine(RayRange(0)))),
    (
        "\r\n999999999999999999 0 0 1 0 0\n",
        "",
        Err(AtLine(RayRange(2))),
    ),
    (
        "2 2 2 1 0 0\n0 0 0 1073741825 0 0",
        "hit 0/1 cell 7 face 0\n",
        Err(AtLine(RayRange(12))),
    ),
];

const ON_FACED: &[Row] = &[
    (
        "-1 0 0 1 0 0\n3 2 2 -1 0 0\n",
        "hit 1/1 cell 0 face 1\nhit 1/1 cell 7 face 0\n",
        Ok(()),
    ),
    (
        "-1 0 0 1 0 0\n1 2 3",
        "hit 1/1 cell 0 face 1\n",
        Err(AtLine(BadRay(13))),
    ),
];

/// Two rays.
const RAYS: &str = "2 2 2 1 0 0\n-1 2 2 1 0 0\n";

/// Their answers.
const ANSWERS: &str = "hit 0/1 cell 7 face 0\nhit 2/1 cell 7 face 0\n";

/// Which calls of which device are refused.
#[derive(Clone, Copy)]
struct Fails {
    source: u64,
    sink: u64,
    taken: u64,
    store: u64,
}

const NO_FAILS: Fails = Fails {
    source: 0,
    sink: 0,
    taken: 0,
    store: 0,
};

/// What was put out, and how the answers ended; nothing where the file was not loaded.
#[derive(Drop)]
struct Told {
    out: MemSink,
    ended: Option<Result<(), LineStop>>,
}

fn answer_named<N: NodeStore, I: ByteSource, O: ByteSink, L: Ledger>(
    alloc: Global,
    store: &mut N,
    input: &mut I,
    out: &mut O,
    reads: &mut Steps<L>,
) -> Option<Result<(), LineStop>> {
    match Frame::read(store, "octree") {
        Ok(frame) => {
            let mut nodes = Nodes::new(store, frame);
            let kind = QueryKind::Rays;
            Some(answer_text(alloc, kind, &mut nodes, input, out, reads))
        }
        Err(_) => None,
    }
}

#[tactic(auto, unfolding(dev_traits::specs::Files::file_named))]
fn answer_counted<L: Ledger>(
    alloc: Global,
    file: &[u8],
    text: &[u8],
    fails: Fails,
    blank: Blank,
) -> Result<Told, AllocError>
    requires name { blank.name ≡ L.name }
    requires parts { blank.parts ≡ L.parts }
    requires one { 0 < blank.parts }
{
    let mut store = MemStore::new(alloc, &[fails.store])?;
    store.add("octree", file)?;
    let mut input = MemSource::new(alloc, text, 7, &[fails.source])?;
    let refused = PartFail {
        call: fails.sink,
        taken: fails.taken,
    };
    let mut out = MemSink::new(alloc, 8192, &[refused])?;
    let mut reads = Steps::<L>::new(blank);
    let ended = answer_named(alloc, &mut store, &mut input, &mut out, &mut reads);
    Ok(Told { out, ended })
}

fn told_by(alloc: Global, file: &[u8], text: &[u8], fails: Fails) -> Result<Told, AllocError> {
    answer_counted::<Brand>(alloc, file, text, fails, Blank::new(1))
}

#[test]
fn rays_are_answered_line_by_line(rt: HostRuntime) -> Result<(), Fail> {
    for (text, answers, end) in ON_EIGHT {
        let told = told_by(rt.alloc(), &EIGHT, text.as_bytes(), NO_FAILS)?;
        assert!(rt; told.out.bytes() == answers.as_bytes(), "{text}");
        assert_eq!(rt; told.ended, Some(*end), "{text}");
    }
    for (text, answers, end) in ON_FACED {
        let told = told_by(rt.alloc(), &FACED, text.as_bytes(), NO_FAILS)?;
        assert!(rt; told.out.bytes() == answers.as_bytes(), "{text}");
        assert_eq!(rt; told.ended, Some(*end), "{text}");
    }
    // The laws have nothing to run.
    answers_are_one();
    fronts_are_of_all_answers();
    Ok(())
}

/// More answers than a block holds, and then a line of 1025 bytes.
#[test]
fn answers_come_in_blocks_and_before_a_stop(rt: HostRuntime) -> Result<(), Fail> {
    let mut text = Vec::new(rt.alloc());
    let mut answers = Vec::new(rt.alloc());
    for _ in 0..300 {
        text.extend_from_slice(b"2 2 2 1 0 0\n")?;
        answers.extend_from_slice(b"hit 0/1 cell 7 face 0\n")?;
    }
    text.extend_from_slice(vec![in rt.alloc(); b' '; 1025]?.as_slice())?;
    let told = told_by(rt.alloc(), &EIGHT, text.as_slice(), NO_FAILS)?;
    assert!(rt; told.out.bytes() == answers.as_slice(), "all answers");
    assert_eq!(rt; told.out.calls(), 2, "blocks");
    assert_eq!(rt;
        told.ended,
        Some(Err(AtLine(LineTooLong(3600)))),
        "the stop"
    );
    Ok(())
}

/// The text is read in four pieces of at most seven bytes, and once more at its end. Of the six calls
/// of the store five load the file, and one reads its words.
#[test]
fn each_device_is_blamed_for_its_fault(rt: HostRuntime) -> Result<(), Fail> {
    for call in 1..6 {
        let fails = Fails {
            source: call,
            ..NO_FAILS
        };
        let told = told_by(rt.alloc(), &EIGHT, RAYS.as_bytes(), fails)?;
        assert_eq!(rt; told.ended, Some(Err(ReadFault)), "read {call}");
        assert!(rt;
            ANSWERS.as_bytes().starts_with(told.out.bytes()),
            "read {call}"
        );
    }
    for taken in 0..45 {
        let fails = Fails {
            sink: 1,
            taken,
            ..NO_FAILS
        };
        let told = told_by(rt.alloc(), &EIGHT, RAYS.as_bytes(), fails)?;
        assert_eq!(rt; told.ended, Some(Err(WriteFault)), "{taken} bytes");
        assert_eq!(rt; told.out.calls(), 1, "{taken} bytes");
        assert!(rt;
            ANSWERS.as_bytes().starts_with(told.out.bytes()),
            "{taken} bytes"
        );
    }
    for call in 1..7 {
        let fails = Fails {
            store: call,
            ..NO_FAILS
        };
        let told = told_by(rt.alloc(), &EIGHT, RAYS.as_bytes(), fails)?;
        let end = match call {
            6 => Some(Err(Walk(WalkFault::Failed))),
            _ => None,
        };
        assert_eq!(rt; told.ended, end, "store {call}");
    }
    Ok(())
}
