//! The front of a picture, and how bytes are put out.

ghost use Rattle.std.specs.Prelude.{◌≡◌, ◌+◌, ◌*◌, ◌^◌, ◌<◌, ◌≤◌, ◌++◌, decimal, List, Err, IfErr};
ghost use Rattle.arrayvec.specs.ArrayString.{array_string_len};
ghost use Rattle.node_check.specs.Stops.{Puts};
ghost use Rattle.node_check.specs.declared.stops.AnswerStop.TheVariants.{WriteFault};
ghost use Rattle.dev_traits.specs.Faults.{Rose};
ghost use Rattle.slice_view.specs.Pictures.{pgm_header};

use arrayvec::ArrayString;
use dev_traits::{ByteSink, Failed};
use itoa::Buffer;
use node_check::AnswerStop;

/// Room for the longest header, which has 29 bytes.
const ROOM: usize = 32;

/// Puts out the header of a picture of this width and height.
pub fn put_header<O: ByteSink>(out: &mut O, width: u32, height: u32) -> Result<(), AnswerStop>
    ensures told { Puts (O.written out.old) (O.written out.new) (pgm_header width height) result }
    ensures later { O.faults out.old ≤ O.faults out.new }
    ensures written { result ≡ Err WriteFault → Rose (O.faults out.old) (O.faults out.new) }
    ensures only { IfErr result (λ stop. stop ≡ WriteFault) }
{
    put(out, header(width, height).as_str().as_bytes())
}

/// The header.
#[tactic(auto, unfolding(crate::specs::Pictures::pgm_header))]
fn header(width: u32, height: u32) -> ArrayString<ROOM>
    ensures { result.bytes ≡ pgm_header width height }
{
    let mut text = ArrayString::new();
    text.push_str("P5\n");
    push_number(&mut text, width);
    text.push_str(" ");
    push_number(&mut text, height);
    text.push_str("\n255\n");
    text
}

/// Adds a number in digits.
fn push_number(text: &mut ArrayString<ROOM>, number: u32)
    requires { array_string_len text.old ≤ 20 }
    ensures bytes { text.new.bytes ≡ text.old.bytes ++ decimal number }
    ensures room { array_string_len text.new ≤ array_string_len text.old + 10 }
{
    text.push_str(Buffer::new().format(number));
}

/// Puts bytes out.
pub fn put<O: ByteSink>(out: &mut O, bytes: &[u8]) -> Result<(), AnswerStop>
    ensures told { Puts (O.written out.old) (O.written out.new) bytes.now result }
    ensures later { O.faults out.old ≤ O.faults out.new }
    ensures written { result ≡ Err WriteFault → Rose (O.faults out.old) (O.faults out.new) }
    ensures only { IfErr result (λ stop. stop ≡ WriteFault) }
{
    match out.put(bytes) {
        Ok(()) => Ok(()),
        Err(Failed) => Err(AnswerStop::WriteFault),
    }
}
