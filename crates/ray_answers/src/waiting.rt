//! Answers that wait in a block until they are put out.

ghost use Rattle.std.specs.Prelude.{◌≡◌, ◌≤◌, ◌<◌, ◌+◌, ◌++◌, [], length, OnOk, OnErr};
ghost use Rattle.std.specs.Io.KnownBytes.{append_known};
ghost use Rattle.arrayvec.specs.ArrayVec.{array_vec_len};
ghost use Rattle.dev_traits.specs.Faults.{HasCause};
ghost use Rattle.node_check.specs.Stops.{PutsFront};

use arrayvec::ArrayVec;
use dev_traits::{ByteSink, Failed};

/// How many bytes are put at a time.
pub const BLOCK: usize = 4096;

/// Bytes that wait.
pub type Waiting = ArrayVec<u8, BLOCK>;

/// Puts all that waits, if anything does.
pub fn put_waiting<O: ByteSink>(out: &mut O, waiting: &mut Waiting) -> Result<(), Failed>
    ensures put { OnOk result (O.written out.new ≡ append_known (O.written out.old) waiting.old.items) }
    ensures none { OnOk result (waiting.new.items ≡ []) }
    ensures front { PutsFront (O.written out.old) (O.written out.new) waiting.old.items }
    ensures cause { HasCause (O.faults out.old) (O.faults out.new) result }
{
    if waiting.is_empty() {
        return Ok(());
    }
    out.put(waiting.as_slice())?;
    waiting.clear();
    Ok(())
}

/// Adds a line behind the bytes that wait, which are put first where it does not fit behind them.
pub fn add<O: ByteSink>(out: &mut O, waiting: &mut Waiting, line: &[u8]) -> Result<(), Failed>
    requires { length line.now ≤ 4096 }
    ensures given { OnOk result (append_known (O.written out.new) waiting.new.items ≡ append_known (append_known (O.written out.old) waiting.old.items) line.now) }
    ensures front { PutsFront (O.written out.old) (O.written out.new) waiting.old.items }
    ensures cause { HasCause (O.faults out.old) (O.faults out.new) result }
{
    make_room(out, waiting, line.len())?;
    extend(waiting, line);
    Ok(())
}

/// Puts the bytes that wait where so many do not fit behind them.
fn make_room<O: ByteSink>(out: &mut O, waiting: &mut Waiting, size: usize) -> Result<(), Failed>
    requires { size ≤ 4096 }
    ensures given { OnOk result (append_known (O.written out.new) waiting.new.items ≡ append_known (O.written out.old) waiting.old.items) }
    ensures room { OnOk result (array_vec_len waiting.new + size ≤ 4096) }
    ensures front { PutsFront (O.written out.old) (O.written out.new) waiting.old.items }
    ensures cause { HasCause (O.faults out.old) (O.faults out.new) result }
{
    if size <= BLOCK - waiting.len() {
        return Ok(());
    }
    put_waiting(out, waiting)?;
    Ok(())
}

/// Adds a line, for which there is room.
fn extend(waiting: &mut Waiting, line: &[u8])
    requires { array_vec_len waiting.old + length line.now ≤ 4096 }
    ensures { waiting.new.items ≡ waiting.old.items ++ line.now }
{
    waiting.try_extend_from_slice(line).unwrap();
}
