//! A node file that is put into a sink word by word.

ghost use Rattle.std.specs.Prelude.{◌≡◌, ◌+◌, ◌^◌, ◌<◌, ◌≤◌, ◌++◌, ℕ, length, take, OnOk, OnErr, IfOk};
ghost use Rattle.std.specs.Int.{w64, to_le_bytes};
ghost use Rattle.std.specs.Io.KnownBytes.{append_known};
ghost use Rattle.dev_traits.specs.Faults.{HasCause};
ghost use Rattle.octree_specs.specs.OctreeFile.{header_of, trailer_of};

use crate::blocks::{append, copy_in, put_last};
use crate::layout::header_bytes;
use dev_traits::{ByteSink, Failed};
use svo_base::Grid;

/// Puts the header, the words and the trailer of a file of format 2 into a sink, in blocks as large
/// as the lent one. After a fault it is only dropped.
#[derive(Drop)]
pub struct NodeWriter<'a, O: ByteSink> {
    sink: &'a mut O,
    block: &'a mut [u8],
    // So many bytes of the block wait to be put.
    used: usize,
    records: u64,
    ghost roomy: { 48 ≤ length block.now },
    ghost inside: { used ≤ length block.now },
}

impl<'a, O: ByteSink> NodeWriter<'a, O> {
    ghost use Rattle.node_file.specs.Writing.{given, waiting};
    ghost use Rattle.node_file.specs.Waiting.{GrewByFront};

    /// A writer that was given the header of the grid's file, of format 2. Nothing is put yet, so that
    /// the sink cannot fail.
    pub fn begin(
        sink: &'a mut O,
        block: &'a mut [u8],
        grid: &Grid,
    ) -> Result<NodeWriter<'a, O>, Failed>
        requires { 48 ≤ length block.old }
        ensures sink { IfOk result (λ w. w.sink.ghost_name ≡ sink.entry.ghost_name) }
        ensures given { IfOk result (λ w. given w ≡ append_known (O.written sink.old) (header_of 2 grid.now)) }
        ensures unwritten { IfOk result (λ w. O.written w.sink.now ≡ O.written sink.old) }
        ensures faults { IfOk result (λ w. O.faults w.sink.now ≡ O.faults sink.old) }
        ensures records { IfOk result (λ w. w.records ≡ 0) }
        ensures made { OnErr result ⊥ }
    {
        let used = copy_in(block, 0, &header_bytes(grid));
        Ok(NodeWriter {
            sink,
            block,
            used,
            records: 0,
        })
    }

    /// Adds a word behind those before. It is refused only where the sink counted a fault.
    pub fn add(&mut self, word: u64) -> Result<(), Failed>
        requires { self.old.records < 2 ^ 60 }
        ensures sink { self.new.sink.ghost_name ≡ self.old.sink.ghost_name }
        ensures given { OnOk result (given self.new ≡ append_known (given self.old) (to_le_bytes w64 word)) }
        ensures records { OnOk result (self.new.records ≡ self.old.records + 1) }
        ensures front { GrewByFront (O.written self.old.sink.now) (O.written self.new.sink.now) (waiting self.old) }
        ensures cause { HasCause (O.faults self.old.sink.now) (O.faults self.new.sink.now) result }
    {
        let used = self.used;
        self.used = append(self.sink, self.block, used, &word.to_le_bytes())?;
        self.records += 1;
        Ok(())
    }

    /// Adds the trailer, with the number of words and this number of filled cells, puts all that waits,
    /// and answers the number of words. It is refused only where the sink counted a fault.
    pub fn finish(self, cells: u64) -> Result<u64, Failed>
        ensures whole { OnOk result (O.written self.exit.0.now ≡ append_known (given self.entry) (trailer_of 2 self.entry.records cells)) }
        ensures records { IfOk result (λ records. records ≡ self.entry.records) }
        ensures front { GrewByFront (O.written self.entry.sink.now) (O.written self.exit.0.now) (waiting self.entry ++ trailer_of 2 self.entry.records cells) }
        ensures cause { HasCause (O.faults self.entry.sink.now) (O.faults self.exit.0.now) result }
    {
        let NodeWriter {
            sink,
            block,
            used,
            records,
        } = self;
        put_last(sink, block, used, records, cells)
    }
}
