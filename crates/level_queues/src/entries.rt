//! The words of a queue.

ghost use Rattle.std.specs.Prelude.{◌≡◌, ◌+◌, ◌^◌, ◌<◌, ◌≤◌, length, take, drop, OnOk, IfOk};
ghost use Rattle.dev_traits.specs.Faults.{HasCause};
ghost use Rattle.node_file.specs.Writing.{given, waiting};
ghost use Rattle.level_queues.specs.GivenWords.{with_words, words_in};
ghost use Rattle.level_queues.specs.Queued.{bits_of};
ghost use Rattle.level_queues.specs.Fronts.{GrewByWords};

use dev_traits::{ByteSink, Failed};
use node_file::NodeWriter;
use room_plan::Queues;

/// Gives the words of so many entries from a place on, and answers a bit for each of their nodes.
pub fn write_entries<O: ByteSink>(
    queues: &Queues<'_>,
    from: usize,
    count: usize,
    writer: &mut NodeWriter<'_, O>,
) -> Result<u64, Failed>
    requires inside { from + count ≤ length queues.now.entries }
    requires from { from < 2 ^ 60 }
    requires few { count ≤ 8 }
    requires records { writer.old.records + 8 ≤ 2 ^ 60 }
    ensures bits { IfOk result (λ bits. bits ≡ bits_of (take count (drop from queues.now.entries))) }
    ensures within { IfOk result (λ bits. bits ≤ 2048) }
    ensures given { OnOk result (given writer.new ≡ with_words (given writer.old) (words_in (take count (drop from queues.now.entries)))) }
    ensures records { OnOk result (writer.new.records ≡ writer.old.records + count) }
    ensures sink { writer.new.sink.ghost_name ≡ writer.old.sink.ghost_name }
    ensures front { GrewByWords (O.written writer.old.sink.now) (O.written writer.new.sink.now) (waiting writer.old) (words_in (take count (drop from queues.now.entries))) }
    ensures cause { HasCause (O.faults writer.old.sink.now) (O.faults writer.new.sink.now) result }
{
    let mut bits = 0;
    for at in 0..count {
        let entry = queues.get(from + at);
        writer.add(entry.word)?;
        bits += 1 << (entry.state % 8);
    }
    Ok(bits)
}
