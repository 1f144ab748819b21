//! The line of an answer, written into a text of fixed room.

ghost use Rattle.std.specs.Prelude.{◌≡◌, ◌≤◌, ◌+◌, ◌++◌, decimal};
ghost use Rattle.arrayvec.specs.ArrayString.{array_string_len};

use arrayvec::ArrayString;
use itoa::Buffer;

/// The line of an answer; the longest has 88 bytes.
pub type AnswerLine = ArrayString<128>;

/// Adds a number in digits.
pub fn push_number(line: &mut AnswerLine, number: u64)
    requires { array_string_len line.old + 20 ≤ 128 }
    ensures text { line.new.bytes ≡ line.old.bytes ++ decimal number }
    ensures length { array_string_len line.new ≤ array_string_len line.old + 20 }
{
    let mut buffer = Buffer::new();
    line.push_str(buffer.format(number));
}

/// The same of a square of a distance.
pub fn push_square(line: &mut AnswerLine, number: u128)
    requires { array_string_len line.old + 39 ≤ 128 }
    ensures text { line.new.bytes ≡ line.old.bytes ++ decimal number }
    ensures length { array_string_len line.new ≤ array_string_len line.old + 39 }
{
    let mut buffer = Buffer::new();
    line.push_str(buffer.format(number));
}
