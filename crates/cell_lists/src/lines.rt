//! The lines of a list of cells.

ghost use Rattle.std.specs.Prelude.{◌≡◌, ◌+◌, ◌^◌, ◌<◌, ◌≤◌, ◌++◌};
ghost use Rattle.std.specs.Fmt.{decimal};
ghost use Rattle.arrayvec.specs.ArrayString.{array_string_len};
ghost use Rattle.cell_lists.specs.Lists.{cell_line};

use arrayvec::ArrayString;
use itoa::Buffer;
use morton_code::decode;

/// A line; the longest has 44 bytes.
pub type CellLine = ArrayString<64>;

/// The line of a cell: its code and its coordinates in cells.
#[tactic(auto, unfolding(crate::specs::Lists::cell_line))]
pub fn cell_line(code: u64) -> CellLine
    requires { code < 2 ^ 60 }
    ensures bytes { result.bytes ≡ cell_line code }
{
    let (x, y, z) = decode(code);
    let mut line = CellLine::new();
    line.push_str(Buffer::new().format(code));
    line.push_str(" ");
    push_number(&mut line, x);
    line.push_str(" ");
    push_number(&mut line, y);
    line.push_str(" ");
    push_number(&mut line, z);
    line.push_str("\n");
    line
}

/// Adds a coordinate in digits.
fn push_number(line: &mut CellLine, number: u32)
    requires { array_string_len line.old ≤ 50 }
    ensures bytes { line.new.bytes ≡ line.old.bytes ++ decimal number }
    ensures room { array_string_len line.new ≤ array_string_len line.old + 10 }
{
    line.push_str(Buffer::new().format(number));
}
