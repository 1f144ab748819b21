//! What the devices answer over files of the host. The calls of a device are a table, and one of them is
//! a function that says what came: a row costs its run, where an assertion for each would be proved.

ghost use Rattle.std.specs.Prelude.{◌≡◌, IsSome};
ghost use Rattle.std.specs.Option.{option_map};

use crate::{FileStore, FolderScratch, HostErrors, HostInput, HostOutput};
use dev_traits::{ByteSink, ByteSource, Failed, NodeStore, Scratch};
use std::fs;
use std::fs::File;
use std::io::{BufWriter, Read, Write};
use std::rt::Files;

/// Whether a file is there and has these bytes.
fn has_bytes(rt: &HostRuntime, path: &str, bytes: &[u8]) -> bool {
    match fs::read(rt, path) {
        Ok(text) => text.as_slice() == bytes,
        Err(_) => false,
    }
}

/// Whether a read of at most three bytes gives these, and how many faults were counted by then.
fn given<R: Read>(input: &mut HostInput<R>, bytes: &[u8]) -> (Result<bool, Failed>, u64) {
    let mut into = [0; 3];
    let answer = match input.read(&mut into) {
        Ok(count) => Ok(into.get(..count) == Some(bytes)),
        Err(Failed) => Err(Failed),
    };
    (answer, input.fault_count())
}

#[test]
fn an_input_gives_a_file_to_its_end(rt: HostRuntime) {
    fs::write(&rt, "input", "abcde").unwrap_or(());
    let mut input = HostInput::new(File::open(&rt, "input").expect(&rt, "a file"));
    for bytes in [b"abc".as_slice(), b"de", b""] {
        assert_eq!(rt; given(&mut input, bytes), (Ok(true), 0), "a read");
    }
}

#[test]
fn an_input_counts_faults(rt: HostRuntime) {
    fs::create_dir(&rt, "folder").unwrap_or(());
    let mut folder = HostInput::new(File::open(&rt, "folder").expect(&rt, "a folder"));
    for faults in [1, 2] {
        assert_eq!(rt; given(&mut folder, b""), (Err(Failed), faults), "a read");
    }
}

/// What a put answers, and how many faults were counted by then.
fn put_out<W: Write>(out: &mut HostOutput<W>, piece: &[u8]) -> (Result<(), Failed>, u64) {
    (out.put(piece), out.fault_count())
}

/// The same of the stream of messages.
fn put_err<W: Write>(err: &mut HostErrors<W>, piece: &[u8]) -> (Result<(), Failed>, u64) {
    (err.put(piece), err.fault_count())
}

#[test]
fn outputs_write_whole_pieces(rt: HostRuntime) {
    let mut out = HostOutput::new(File::create(&rt, "output").expect(&rt, "a file"));
    let mut err = HostErrors::new(File::create(&rt, "errors").expect(&rt, "a file"));
    for piece in [b"ab".as_slice(), b"", b"c"] {
        assert_eq!(rt;
            (put_out(&mut out, piece), put_err(&mut err, piece)),
            ((Ok(()), 0), (Ok(()), 0)),
            "a put"
        );
    }
    for path in ["output", "errors"] {
        assert!(rt; has_bytes(&rt, path, b"abc"), "what was put into {path}");
    }
}

#[test]
fn outputs_count_refusals(rt: HostRuntime) {
    fs::write(&rt, "plain", "a file to read from").unwrap_or(());
    let mut out = HostOutput::new(File::open(&rt, "plain").expect(&rt, "a file"));
    let mut err = HostErrors::new(File::open(&rt, "plain").expect(&rt, "a file"));
    for faults in [1, 2] {
        assert_eq!(rt;
            (put_out(&mut out, b"d"), put_err(&mut err, b"d")),
            ((Err(Failed), faults), (Err(Failed), faults)),
            "a put"
        );
    }
}

#[test]
fn outputs_hand_on_what_a_writer_holds_back(rt: HostRuntime) {
    let file = File::create(&rt, "held").expect(&rt, "a file");
    let held = BufWriter::new(rt.alloc(), file).expect(&rt, "memory");
    let mut out = HostOutput::new(held);
    for (piece, whole) in [(b"ab".as_slice(), b"ab".as_slice()), (b"c", b"abc")] {
        let put = put_out(&mut out, piece);
        assert!(rt;
            put == (Ok(()), 0) && has_bytes(&rt, "held", whole),
            "what was put is there at once"
        );
    }
}

#[test]
fn a_flush_that_fails_is_a_fault(rt: HostRuntime) {
    fs::write(&rt, "shut", "a file to read from").unwrap_or(());
    let file = File::open(&rt, "shut").expect(&rt, "a file");
    let held = BufWriter::new(rt.alloc(), file).expect(&rt, "memory");
    let mut err = HostErrors::new(held);
    assert_eq!(rt; put_err(&mut err, b"d"), (Err(Failed), 1), "a put");
}

/// A scratch whose streams are started.
#[derive(Drop)]
struct Started<'a, R> {
    scratch: FolderScratch<'a, R>,
    streams: u32,
    ghost started: { scratch.started ≡ streams },
}

/// A call of a scratch: a piece for a stream, and how many bytes the stream has, or which it has from a
/// place on.
#[derive(Clone, Copy)]
enum StreamCall {
    Append(u32, &'static [u8]),
    Length(u32, u64),
    Read(u32, u64, &'static [u8]),
}

impl<'a, R: Files> Started<'a, R> {
    /// So many streams, started at a place.
    fn at(files: &'a R, place: &str, streams: u32) -> Result<Started<'a, R>, Failed> {
        let mut scratch = FolderScratch::new(files);
        scratch.start(place, streams)?;
        Ok(Started { scratch, streams })
    }

    /// How many of some calls, from the first on, are answered so, with so many faults by then.
    fn right(&mut self, rows: &[StreamRow]) -> usize {
        let mut right = 0;
        for (call, answer, faults) in rows {
            if self.answers(*call) != *answer || self.scratch.fault_count() != *faults {
                return right;
            }
            right = right.saturating_add(1);
        }
        right
    }

    /// Whether a call answers so.
    fn answers(&mut self, call: StreamCall) -> Result<bool, Failed> {
        match call {
            StreamCall::Append(stream, piece) => self.append(stream, piece),
            StreamCall::Length(stream, length) => self.has_length(stream, length),
            StreamCall::Read(stream, at, bytes) => self.gives(stream, at, bytes),
        }
    }

    fn append(&mut self, stream: u32, piece: &[u8]) -> Result<bool, Failed> {
        if stream >= self.streams {
            return Ok(false);
        }
        self.scratch.append(stream, piece)?;
        Ok(true)
    }

    fn has_length(&mut self, stream: u32, length: u64) -> Result<bool, Failed> {
        if stream >= self.streams {
            return Ok(false);
        }
        Ok(self.scratch.length(stream)? == length)
    }

    fn gives(&mut self, stream: u32, at: u64, bytes: &[u8]) -> Result<bool, Failed> {
        let mut block = [0; 3];
        if stream >= self.streams || bytes.len() > 3 {
            return Ok(false);
        }
        let into = &mut block[..bytes.len()];
        self.scratch.read_at(stream, at, into)?;
        Ok(&*into == bytes)
    }
}

/// A call, whether it is answered so, and how many faults were counted by then.
type StreamRow = (StreamCall, Result<bool, Failed>, u64);

/// Streams 1 and 2 had files of an earlier build.
const KEPT: &[StreamRow] = &[
    (StreamCall::Append(0, b"abc"), Ok(true), 0),
    (StreamCall::Append(2, b"1"), Ok(true), 0),
    (StreamCall::Append(0, b""), Ok(true), 0),
    (StreamCall::Append(2, b"23456"), Ok(true), 0),
    (StreamCall::Append(0, b"defgh"), Ok(true), 0),
    (StreamCall::Length(0, 8), Ok(true), 0),
    (StreamCall::Length(2, 6), Ok(true), 0),
    (StreamCall::Length(1, 0), Ok(true), 0),
    (StreamCall::Read(0, 0, b"abc"), Ok(true), 0),
    (StreamCall::Read(0, 2, b"cde"), Ok(true), 0),
    (StreamCall::Read(2, 3, b"456"), Ok(true), 0),
    (StreamCall::Read(1, 0, b""), Ok(true), 0),
    (StreamCall::Read(0, 6, b"gh?"), Err(Failed), 1),
    (StreamCall::Read(1, 0, b"of "), Err(Failed), 2),
];

/// Behind these the file of stream 2 is gone.
const GONE: &[StreamRow] = &[
    (StreamCall::Append(2, b"x"), Err(Failed), 3),
    (StreamCall::Length(2, 0), Err(Failed), 4),
    (StreamCall::Length(0, 8), Ok(true), 4),
];

#[test]
fn a_folder_keeps_streams(rt: HostRuntime) {
    fs::create_dir(&rt, "scratch").unwrap_or(());
    fs::write(&rt, "scratch/1", "of an earlier build").unwrap_or(());
    fs::write(&rt, "scratch/2", "of an earlier build").unwrap_or(());
    let mut started = Started::at(&rt, "scratch", 3).expect(&rt, "a folder that is there");
    assert!(rt; !fs::exists(&rt, "scratch/0").unwrap_or(true), "no file");
    assert_eq!(rt; started.right(KEPT), KEPT.len(), "calls");
    fs::remove_file(&rt, "scratch/2").unwrap_or(());
    assert_eq!(rt; started.right(GONE), GONE.len(), "calls");
}

/// The last stream that is kept apart, and the one above.
const APART: &[StreamRow] = &[
    (StreamCall::Append(4096, b"ab"), Ok(true), 0),
    (StreamCall::Append(4097, b"abc"), Ok(true), 0),
    (StreamCall::Length(4096, 2), Ok(true), 0),
    (StreamCall::Length(4097, 3), Ok(true), 0),
];

#[test]
fn streams_above_the_ones_kept_apart_are_made_at_the_start(rt: HostRuntime) {
    let mut started = Started::at(&rt, "many", 4098).expect(&rt, "a start");
    for (file, is_made) in [("many/0", false), ("many/4096", false), ("many/4097", true)] {
        let there = fs::exists(&rt, file).unwrap_or(!is_made);
        assert_eq!(rt; there, is_made, "{file}");
    }
    assert_eq!(rt; started.right(APART), APART.len(), "calls");
}

/// Places, and whether streams can be started there. Of the two long ones, one has 200 bytes and one 201.
const PLACES: &[(&str, bool)] = &[
    ("made", true),
    ("made/within", true),
    ("none/within", false),
    ("plain", false),
    (
        "ffffffffffffffffffffffffffffffffffffffffffffffffffffffffffffffffffffffffffffffffffffffffffffffffffffffffffffffffffffffffffffffffffffffffffffffffffffffffffffffffffffffffffffffffffffffffffffffffffffffff",
        true,
    ),
    (
        "eeeeeeeeeeeeeeeeeeeeeeeeeeeeeeeeeeeeeeeeeeeeeeeeeeeeeeeeeeeeeeeeeeeeeeeeeeeeeeeeeeeeeeeeeeeeeeeeeeeeeeeeeeeeeeeeeeeeeeeeeeeeeeeeeeeeeeeeeeeeeeeeeeeeeeeeeeeeeeeeeeeeeeeeeeeeeeeeeeeeeeeeeeeeeeeeeeeeeeeee",
        false,
    ),
];

/// Whether streams are started at a place, how many faults that counts, and whether it is there then.
fn started_at(rt: &HostRuntime, place: &str) -> (bool, u64, bool) {
    let mut scratch = FolderScratch::new(rt);
    let starts = scratch.start(place, 2).is_ok();
    let made = fs::exists(rt, place).unwrap_or(false);
    (starts, scratch.fault_count(), made)
}

#[test]
fn a_folder_is_made_one_level_deep(rt: HostRuntime) {
    fs::write(&rt, "plain", "a file").unwrap_or(());
    for (place, starts) in PLACES {
        let wanted = (*starts, u64::from(!*starts), *starts || *place == "plain");
        assert_eq!(rt; started_at(&rt, place), wanted, "{place}");
    }
}

/// There is a folder in the place of the file.
const BLOCKED: &[StreamRow] = &[
    (StreamCall::Append(1, b"a"), Err(Failed), 1),
    (StreamCall::Length(1, 0), Ok(true), 1),
];

/// Behind these the folder is gone.
const FREE: &[StreamRow] = &[
    (StreamCall::Append(1, b"ab"), Ok(true), 1),
    (StreamCall::Length(1, 2), Ok(true), 1),
];

#[test]
fn a_folder_in_the_place_of_a_file_is_a_fault(rt: HostRuntime) {
    fs::create_dir_all(&rt, "blocked/1").unwrap_or(());
    let mut started = Started::at(&rt, "blocked", 2).expect(&rt, "a start");
    assert_eq!(rt; started.right(BLOCKED), BLOCKED.len(), "calls");
    fs::remove_dir(&rt, "blocked/1").unwrap_or(());
    assert_eq!(rt; started.right(FREE), FREE.len(), "calls");
}

/// Names, whether they are held, whether they can be selected, and the faults that were counted by then.
type NameRow = (&'static str, Result<bool, Failed>, Result<(), Failed>, u64);

const NAMES: &[NameRow] = &[
    ("nodes", Ok(true), Ok(()), 0),
    ("nothing", Ok(false), Err(Failed), 1),
    ("folder", Ok(false), Err(Failed), 2),
    ("nodes/within", Err(Failed), Err(Failed), 4),
];

#[test]
fn a_store_opens_files_by_name(rt: HostRuntime) {
    fs::write(&rt, "nodes", "0123456789").unwrap_or(());
    fs::create_dir(&rt, "folder").unwrap_or(());
    let mut store = FileStore::new(&rt);
    for (name, holds, selects, faults) in NAMES {
        let came = (store.holds(name), store.select(name), store.fault_count());
        assert_eq!(rt; came, (*holds, *selects, *faults), "{name}");
    }
}

/// Whether the open file gives these bytes from a place on, and how many faults were counted by then.
fn given_at<R: Files>(
    store: &mut FileStore<'_, R>,
    at: u64,
    bytes: &[u8],
) -> (Result<bool, Failed>, u64)
    requires { IsSome (option_map (λ opened. opened.name.bytes) store.old.current) }
    ensures { IsSome (option_map (λ opened. opened.name.bytes) store.new.current) }
{
    let mut block = [0; 4];
    let answer = match store.read_at(at, &mut block) {
        Ok(()) => Ok(block.as_slice() == bytes),
        Err(Failed) => Err(Failed),
    };
    (answer, store.fault_count())
}

/// Whether the open file gives its last bytes, is refused past its end, and goes on behind that: from
/// another place, with the next piece, and with the same piece.
fn gives_digits<R: Files>(store: &mut FileStore<'_, R>) -> bool
    requires { IsSome (option_map (λ opened. opened.name.bytes) store.old.current) }
{
    given_at(store, 6, b"6789") == (Ok(true), 0)
        && given_at(store, 7, b"789?") == (Err(Failed), 1)
        && given_at(store, 1, b"1234") == (Ok(true), 1)
        && given_at(store, 5, b"5678") == (Ok(true), 1)
        && given_at(store, 5, b"5678") == (Ok(true), 1)
}

#[test]
fn an_open_file_stays_when_its_name_goes(rt: HostRuntime) {
    fs::write(&rt, "digits", "0123456789").unwrap_or(());
    let mut store = FileStore::new(&rt);
    store.select("digits").expect(&rt, "a file");
    fs::remove_file(&rt, "digits").unwrap_or(());
    assert_eq!(rt; store.length(), Ok(10), "its length");
    assert!(rt; gives_digits(&mut store), "its bytes");
}

#[test]
fn a_file_that_is_gone_is_not_held(rt: HostRuntime) {
    fs::write(&rt, "gone", "0123456789").unwrap_or(());
    let mut store = FileStore::new(&rt);
    assert_eq!(rt; store.select("gone"), Ok(()), "the file");
    fs::remove_file(&rt, "gone").unwrap_or(());
    let came = (
        store.holds("gone"),
        store.select("gone"),
        store.fault_count(),
    );
    assert_eq!(rt; came, (Ok(false), Err(Failed), 1), "it is gone");
}
