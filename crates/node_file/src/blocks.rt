//! Bytes that wait in a lent block until they are put into a sink.

ghost use Rattle.std.specs.Prelude.{◌≡◌, ◌+◌, ◌≤◌, ◌++◌, length, take, OnOk, OnErr, IfOk};
ghost use Rattle.std.specs.Io.KnownBytes.{append_known};
ghost use Rattle.dev_traits.specs.Faults.{HasCause};
ghost use Rattle.octree_specs.specs.OctreeFile.{trailer_of};
ghost use Rattle.node_file.specs.Waiting.{given_by, GrewByFront};

use crate::layout::trailer_bytes;
use dev_traits::{ByteSink, Failed};

/// Copies a piece behind the bytes that wait in a block, and answers how many wait then.
pub fn copy_in(block: &mut [u8], used: usize, piece: &[u8]) -> usize
    requires { used + length piece.now ≤ length block.old }
    ensures waiting { take result block.new ≡ take used block.old ++ piece.now }
    ensures result { result ≡ used + length piece.now }
    ensures room { length block.new ≡ length block.old }
{
    let end = used + piece.len();
    block[used..end].copy_from_slice(piece);
    end
}

/// Puts the bytes that wait.
pub fn put_front<O: ByteSink>(sink: &mut O, block: &mut [u8], used: usize) -> Result<(), Failed>
    requires { used ≤ length block.old }
    ensures written { OnOk result (O.written sink.new ≡ given_by (O.written sink.old) block.old used) }
    ensures cut { OnErr result (GrewByFront (O.written sink.old) (O.written sink.new) (take used block.old)) }
    ensures block { block.new ≡ block.old }
    ensures cause { HasCause (O.faults sink.old) (O.faults sink.new) result }
{
    sink.put(&block[..used])?;
    Ok(())
}

/// Puts the bytes that wait where a piece does not fit behind them. Answers how many wait then.
fn make_room<O: ByteSink>(
    sink: &mut O,
    block: &mut [u8],
    used: usize,
    size: usize,
) -> Result<usize, Failed>
    requires used { used ≤ length block.old }
    requires size { size ≤ length block.old }
    ensures given { IfOk result (λ n. given_by (O.written sink.new) block.new n ≡ given_by (O.written sink.old) block.old used) }
    ensures room { IfOk result (λ n. n + size ≤ length block.old) }
    ensures front { GrewByFront (O.written sink.old) (O.written sink.new) (take used block.old) }
    ensures block { block.new ≡ block.old }
    ensures cause { HasCause (O.faults sink.old) (O.faults sink.new) result }
{
    if size <= block.len() - used {
        return Ok(used);
    }
    put_front(sink, block, used)?;
    Ok(0)
}

/// Adds a piece behind the bytes that wait, which are put first where it does not fit behind them.
/// Answers how many bytes wait then.
pub fn append<O: ByteSink>(
    sink: &mut O,
    block: &mut [u8],
    used: usize,
    piece: &[u8],
) -> Result<usize, Failed>
    requires used { used ≤ length block.old }
    requires size { length piece.now ≤ length block.old }
    ensures given { IfOk result (λ n. given_by (O.written sink.new) block.new n ≡ append_known (given_by (O.written sink.old) block.old used) piece.now) }
    ensures inside { IfOk result (λ n. n ≤ length block.new) }
    ensures room { length block.new ≡ length block.old }
    ensures front { GrewByFront (O.written sink.old) (O.written sink.new) (take used block.old) }
    ensures cause { HasCause (O.faults sink.old) (O.faults sink.new) result }
{
    let used = make_room(sink, block, used, piece.len())?;
    Ok(copy_in(block, used, piece))
}

/// Puts the bytes that wait and a trailer behind them, and answers the number of words in it.
pub fn put_last<O: ByteSink>(
    sink: &mut O,
    block: &mut [u8],
    used: usize,
    records: u64,
    cells: u64,
) -> Result<u64, Failed>
    requires used { used ≤ length block.old }
    requires size { 32 ≤ length block.old }
    ensures whole { OnOk result (O.written sink.new ≡ append_known (given_by (O.written sink.old) block.old used) (trailer_of 2 records cells)) }
    ensures records { IfOk result (λ n. n ≡ records) }
    ensures front { GrewByFront (O.written sink.old) (O.written sink.new) (take used block.old ++ trailer_of 2 records cells) }
    ensures cause { HasCause (O.faults sink.old) (O.faults sink.new) result }
{
    let used = append(sink, block, used, &trailer_bytes(records, cells))?;
    put_front(sink, block, used)?;
    Ok(records)
}
