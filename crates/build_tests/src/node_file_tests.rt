//! Records in memory and a file put into a sink in memory, and callers of both as a layer above would
//! be, to see that the clauses are enough for them.

ghost use Rattle.std.specs.Prelude.{◌≡◌, ◌∷◌, [], OnOk, ◌+◌, ◌-◌, ◌^◌, ◌<◌, ◌≤◌, List, length, slice_index, Some, Err, IfOk, IfSome};
ghost use Rattle.dev_traits.specs.Faults.{HasCause, counted};
ghost use Rattle.octree_specs.specs.OctreeFile.{frame_of};
ghost use Rattle.std.specs.Io.KnownBytes.{append_known};
ghost use Rattle.node_file.specs.Waiting.{GrewByFront};

use dev_traits::{ByteSink, Failed, MemSink, PartFail};
use node_file::{
    LentWords, NodeWriter, Records, Totals, header_bytes, read_format, read_header, read_trailer,
    trailer_bytes,
};
use std::marker::Brand;
use std::sync::ledger::{Blank, Ledger};
use svo_base::{Grid, Steps};

/// The root's word and the first one.
fn ends<R: Records, L: Ledger>(nodes: &mut R, reads: &mut Steps<L>) -> Result<(u64, u64), Failed>
    ensures told { IfSome (R.file nodes.old).words (λ words. IfOk result (λ ends. (ends.0 ≡ slice_index words (length words - 1)) × (ends.1 ≡ slice_index words 0))) }
    ensures same { R.file nodes.new ≡ R.file nodes.old }
    ensures reads { reads.new ≤ reads.old + 2 }
    ensures looked { R.looked nodes.new ≤ R.looked nodes.old + 2 }
    ensures cause { HasCause (R.faults nodes.old) (R.faults nodes.new) result }
{
    let totals = nodes.totals();
    let root = nodes.word(totals.records - 1, reads)?;
    let first = nodes.word(0, reads)?;
    Ok((root, first))
}

fn ends_of<L: Ledger>(words: &[u64], refused: u64, blank: Blank) -> Result<(u64, u64), Failed>
    requires some { 1 ≤ length words.now }
    requires name { blank.name ≡ L.name }
    requires parts { blank.parts ≡ L.parts }
    requires one { 0 < blank.parts }
{
    let Ok(grid) = Grid::new(1, [0, 0, 0], 1) else {
        return Err(Failed);
    };
    if grid.depth() > 12 {
        return Err(Failed);
    }
    let mut reads = Steps::<L>::new(blank);
    let mut nodes = LentWords {
        masks: false,
        grid,
        cells: 3,
        words,
        refused,
        calls: 0,
        faults: 0,
    };
    ends(&mut nodes, &mut reads)
}

fn ends_from(words: &[u64], refused: u64) -> Result<(u64, u64), Failed>
    requires { 1 ≤ length words.now }
{
    ends_of::<Brand>(words, refused, Blank::new(1))
}

#[test]
fn a_caller_reads_words_by_number(rt: HostRuntime) {
    const WORDS: [u64; 4] = [257, 1, 1, 7];
    assert_eq!(rt;
        ends_from(&WORDS, 0),
        Ok((7, 257)),
        "the last word and the first"
    );
    assert_eq!(rt;
        ends_from(&WORDS, 2),
        Err(Failed),
        "where the second call is refused"
    );
}

/// Puts the file of two words. Whatever the answer, the sink grew by a front of it.
fn put_two<O: ByteSink>(
    sink: &mut O,
    block: &mut [u8],
    grid: &Grid,
    words: (u64, u64),
    cells: u64,
) -> Result<u64, Failed>
    requires { 48 ≤ length block.old }
    ensures whole { OnOk result (O.written sink.new ≡ append_known (O.written sink.old) (frame_of 2 grid.now (words.0 ∷ words.1 ∷ []) cells)) }
    ensures records { IfOk result (λ records. records ≡ 2) }
    ensures front { GrewByFront (O.written sink.old) (O.written sink.new) (frame_of 2 grid.now (words.0 ∷ words.1 ∷ []) cells) }
    ensures cause { HasCause (O.faults sink.old) (O.faults sink.new) result }
{
    let mut writer = NodeWriter::begin(sink, block, grid)?;
    writer.add(words.0)?;
    writer.add(words.1)?;
    let records = writer.finish(cells)?;
    Ok(records)
}

const TWO_WORDS: &[u8] =
    b"SVOCUBE2\x01\0\0\0\0\0\0\0\x05\0\0\0\0\0\0\0\xfe\xff\xff\xff\xff\xff\xff\xff\0\0\0\0\0\0\0\0\x03\0\0\0\0\0\0\0\x01\0\0\0\0\0\0\0\x08\0\0\0\0\0\0\0\0\0\0\0\0\0\0\0\x02\0\0\0\0\0\0\0\x01\0\0\0\0\0\0\0SVOCEND2";

#[test]
fn a_file_is_put_in_blocks_and_cut_off_at_a_fault(rt: HostRuntime) {
    let grid = Grid::new(1, [5, -2, 0], 3).expect(&rt, "a grid");
    let mut block = [0; 56];
    for call in 1..4 {
        for taken in 0..2 {
            let fails = [PartFail { call, taken }];
            let mut sink = MemSink::new(rt.alloc(), 200, &fails).expect(&rt, "memory");
            let put = put_two(&mut sink, &mut block, &grid, (1, 8), 1);
            let written = sink.bytes();
            assert!(rt; TWO_WORDS.starts_with(written), "a front of the file");
            assert_eq!(rt; put.is_ok(), call == 3, "two calls are enough");
            assert_eq!(rt;
                put.is_ok(),
                written.len() == TWO_WORDS.len(),
                "the whole file"
            );
        }
    }
}

/// The grid of a header whose byte at a place is changed by these bits, where it was that of this
/// depth, origin and cell.
fn changed_grid(at: usize, bits: u8) -> Option<Grid> {
    let shift = 8 * (at % 8) as u32;
    let change = (u64::from(bits) << shift).cast_signed();
    let (depth, [x, y, z], cell) = NUMBERS;
    match at / 8 {
        0 => None,
        1 if at < 12 => Grid::new(depth ^ change, [x, y, z], cell).ok(),
        1 => None,
        2 => Grid::new(depth, [x ^ change, y, z], cell).ok(),
        3 => Grid::new(depth, [x, y ^ change, z], cell).ok(),
        4 => Grid::new(depth, [x, y, z ^ change], cell).ok(),
        _ => Grid::new(depth, [x, y, z], cell ^ change).ok(),
    }
}

const NUMBERS: (i64, [i64; 3], i64) = (3, [5, -2, 1 << 29], 7);

/// Bits of which a byte is changed.
const CHANGES: [u8; 4] = [1, 4, 128, 255];

#[test]
fn headers_are_read_back(rt: HostRuntime) {
    let (depth, origin, cell) = NUMBERS;
    let grid = Grid::new(depth, origin, cell).expect(&rt, "a grid");
    for (name, format) in [(b'1', 1), (b'2', 2)] {
        let mut bytes = header_bytes(&grid);
        bytes[7] = name;
        assert_eq!(rt; read_header(&bytes), Some(grid), "format {format}");
        assert_eq!(rt; read_format(&bytes), Some(format), "format {format}");
        for at in 0..48 {
            for bits in CHANGES {
                let mut changed = bytes;
                changed[at] ^= bits;
                let expected = changed_grid(at, bits);
                assert_eq!(rt; read_header(&changed), expected, "byte {at} by {bits}");
                assert_eq!(rt;
                    read_format(&changed),
                    expected.map(|_| format),
                    "byte {at} by {bits}"
                );
            }
        }
    }
}

/// The numbers of a trailer whose byte at a place is changed by these bits.
fn changed_totals(at: usize, bits: u8) -> Option<Totals> {
    let change = u64::from(bits) << (8 * (at % 8) as u32);
    let Totals { records, cells } = TOTALS;
    match at / 8 {
        1 => Some(Totals {
            records: records ^ change,
            cells,
        }),
        2 => Some(Totals {
            records,
            cells: cells ^ change,
        }),
        _ => None,
    }
}

const TOTALS: Totals = Totals {
    records: 1 << 40,
    cells: 513,
};

#[test]
fn trailers_are_read_back(rt: HostRuntime) {
    for name in *b"12" {
        let mut bytes = trailer_bytes(TOTALS.records, TOTALS.cells);
        bytes[31] = name;
        assert_eq!(rt; read_trailer(&bytes), Some(TOTALS), "format {name}");
        for at in 0..32 {
            for bits in CHANGES {
                let mut changed = bytes;
                changed[at] ^= bits;
                assert_eq!(rt;
                    read_trailer(&changed),
                    changed_totals(at, bits),
                    "byte {at} by {bits}"
                );
            }
        }
    }
}
