//! A short answer is put out at once.

ghost use Rattle.std.specs.Prelude.{◌≡◌, List};
ghost use Rattle.node_check.specs.Counts.{HasCauseOf};
ghost use Rattle.node_check.specs.Stops.{Puts};
ghost use Rattle.node_check.specs.declared.stops.AnswerStop.TheVariants.{WriteFault, Walk};
ghost use Rattle.node_check.specs.declared.walking.WalkFault.{WalkFault};

use dev_traits::{ByteSink, Failed};
use node_check::AnswerStop;

/// Puts a text out. It is refused as the output refuses it.
pub fn put_text<O: ByteSink>(text: &[u8], out: &mut O) -> Result<(), AnswerStop>
    ensures puts { Puts (O.written out.old) (O.written out.new) text.now result }
    ensures unwalked { (fault : WalkFault) → result ≡ Err (Walk fault) → ⊥ }
    ensures cause { HasCauseOf (O.faults out.old) (O.faults out.new) result WriteFault }
{
    match out.put(text) {
        Err(Failed) => Err(AnswerStop::WriteFault),
        Ok(()) => Ok(()),
    }
}
