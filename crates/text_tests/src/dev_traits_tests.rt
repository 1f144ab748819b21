//! What devices in memory answer. Calls of which each asks something are made by a function that gives
//! what came, since each assertion is proved by itself.

ghost use Rattle.std.specs.Prelude.{◌≡◌, ◌<◌, IsSome};

use dev_traits::{
    ByteSink, ByteSource, Failed, MemScratch, MemSink, MemSource, MemStore, NodeStore, PartFail,
    Scratch,
};

#[test]
fn a_source_gives_its_bytes_in_pieces(rt: HostRuntime) {
    let mut source = MemSource::new(rt.alloc(), b"abcde", 2, &[]).expect(&rt, "memory");
    let mut into = [0; 4];
    for want in [2, 2, 1, 0] {
        assert_eq!(rt; source.read(&mut into), Ok(want), "a piece");
    }
    let came = (into[0], source.calls(), source.fault_count());
    assert_eq!(rt; came, (b'e', 4, 0), "the last piece, calls, faults");
}

#[test]
fn a_source_refuses_the_calls_of_its_list(rt: HostRuntime) {
    let mut source = MemSource::new(rt.alloc(), b"abc", 8, &[1, 3]).expect(&rt, "memory");
    let mut into = [0; 2];
    for want in [Err(Failed), Ok(2), Err(Failed), Ok(1), Ok(0)] {
        assert_eq!(rt; source.read(&mut into), want, "a read");
    }
    assert_eq!(rt; source.fault_count(), 2, "faults");
}

#[test]
fn a_sink_takes_what_fits(rt: HostRuntime) {
    let mut sink = MemSink::new(rt.alloc(), 3, &[]).expect(&rt, "memory");
    let came = (sink.put(b"abcd"), sink.fault_count(), sink.put(b""));
    assert_eq!(rt; came, (Err(Failed), 1, Ok(())), "too much, and nothing");
    assert!(rt; sink.bytes() == b"abc".as_slice(), "what fits is taken");
}

/// Pieces, and whether their puts are accepted.
const PUTS: &[(&[u8], bool)] = &[(b"ab", true), (b"cd", false), (b"ef", false), (b"gh", true)];

#[test]
fn a_sink_refuses_the_calls_of_its_list(rt: HostRuntime) {
    let fails = [
        PartFail { call: 2, taken: 1 },
        PartFail { call: 3, taken: 9 },
    ];
    let mut sink = MemSink::new(rt.alloc(), 16, &fails).expect(&rt, "memory");
    for (piece, accepted) in PUTS.iter().copied() {
        assert_eq!(rt; sink.put(piece).is_ok(), accepted, "a put");
    }
    assert!(rt;
        sink.bytes() == b"abcefgh".as_slice(),
        "fronts of refused pieces"
    );
    let counts = (sink.calls(), sink.fault_count());
    assert_eq!(rt; counts, (4, 2), "calls and faults");
}

#[test]
fn a_scratch_starts_as_many_streams_as_it_has(rt: HostRuntime) {
    let mut scratch = MemScratch::new(rt.alloc(), 2, 4, &[]).expect(&rt, "memory");
    assert_eq!(rt; scratch.start("place", 2), Ok(()), "all of its streams");
    assert_eq!(rt; scratch.length(1), Ok(0), "an empty stream");
}

#[test]
fn a_scratch_starts_no_more_streams_than_it_has(rt: HostRuntime) {
    let mut scratch = MemScratch::new(rt.alloc(), 2, 4, &[]).expect(&rt, "memory");
    let came = (scratch.start("place", 3), scratch.fault_count());
    assert_eq!(rt; came, (Err(Failed), 1), "one too many");
}

/// What five appends to stream 1 answer: of a piece that fits, refused at once, refused after a byte, up
/// to the room, and beyond it.
fn appended<S: Scratch>(scratch: &mut S) -> [Result<(), Failed>; 5]
    requires { 1 < S.started scratch.old }
    ensures { S.started scratch.new ≡ S.started scratch.old }
{
    let fits = scratch.append(1, b"ab");
    let at_once = scratch.append(1, b"cd");
    let after_a_byte = scratch.append(1, b"ef");
    let to_the_room = scratch.append(1, b"gh");
    let beyond = scratch.append(1, b"ij");
    [fits, at_once, after_a_byte, to_the_room, beyond]
}

/// What two reads of the last bytes of stream 1 answer, where it has five, and what the second gave.
fn last_bytes<S: Scratch>(scratch: &mut S) -> Option<([Result<(), Failed>; 2], [u8; 3])>
    requires { 1 < S.started scratch.old }
    ensures { S.started scratch.new ≡ S.started scratch.old }
{
    let mut into = [0; 3];
    if scratch.length(1) != Ok(5) {
        return None;
    }
    let first = scratch.read_at(1, 2, &mut into);
    let second = scratch.read_at(1, 2, &mut into);
    Some(([first, second], into))
}

#[test]
fn a_scratch_takes_what_fits_and_reads_it_back(rt: HostRuntime) {
    let fails = [
        PartFail { call: 3, taken: 0 },
        PartFail { call: 4, taken: 1 },
        PartFail { call: 8, taken: 0 },
    ];
    let mut scratch = MemScratch::new(rt.alloc(), 2, 5, &fails).expect(&rt, "memory");
    assert_eq!(rt; scratch.start("", 2), Ok(()), "start");
    let appends = [Ok(()), Err(Failed), Err(Failed), Ok(()), Err(Failed)];
    assert_eq!(rt; appended(&mut scratch), appends, "appends");
    assert!(rt; scratch.stream(1) == b"abegh".as_slice(), "what was taken");
    let reads = Some(([Err(Failed), Ok(())], *b"egh"));
    assert_eq!(rt; last_bytes(&mut scratch), reads, "its last bytes");
    let others = (scratch.length(0), scratch.calls(), scratch.fault_count());
    assert_eq!(rt; others, (Ok(0), 10, 4), "the other stream, calls, faults");
}

/// Whether there is a file a, the same in a refused call, and whether there is a file c.
fn held<N: NodeStore>(store: &mut N) -> [Result<bool, Failed>; 3]
    ensures { N.files store.new ≡ N.files store.old }
{
    let there = store.holds("a");
    let refused = store.holds("a");
    let not_there = store.holds("c");
    [there, refused, not_there]
}

/// What two reads of the file's last bytes answer, where it has six, and what the second gave.
fn end_of_file<N: NodeStore>(store: &mut N) -> Option<([Result<(), Failed>; 2], [u8; 4])>
    requires { IsSome (N.current store.old) }
{
    let mut into = [0; 4];
    if store.length() != Ok(6) {
        return None;
    }
    let first = store.read_at(2, &mut into);
    let second = store.read_at(2, &mut into);
    Some(([first, second], into))
}

#[test]
#[tactic(auto, unfolding(dev_traits::specs::Files::file_named))]
fn a_store_gives_its_files_by_name(rt: HostRuntime) {
    let mut store = MemStore::new(rt.alloc(), &[2, 6]).expect(&rt, "memory");
    store.add("a", b"first").expect(&rt, "memory");
    store.add("b", b"second").expect(&rt, "memory");
    let names = [Ok(true), Err(Failed), Ok(false)];
    assert_eq!(rt; held(&mut store), names, "names");
    assert_eq!(rt; store.select("b"), Ok(()), "the second file");
    let reads = Some(([Err(Failed), Ok(())], *b"cond"));
    assert_eq!(rt; end_of_file(&mut store), reads, "its last bytes");
    let counts = (store.calls(), store.fault_count());
    assert_eq!(rt; counts, (7, 2), "calls and faults");
}
