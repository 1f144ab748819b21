//! Files and their texts were written by hand, byte for byte.

ghost use Rattle.std.specs.Prelude.{◌≤◌, ◌<◌};

use dev_traits::{ByteSource, MemSource};
use ply_binary::{AsciiSource, HeldInput};

/// How many bytes a read of the input gives at most, and how many are asked for at a time.
const SIZES: &[usize] = &[1, 7, 4096];

/// Files, and the texts that they are rewritten as.
const FILES: &[(&[u8], &[u8])] = &[
    // One coordinate is -1.
    (
        b"ply\nformat binary_little_endian 1.0\nelement vertex 3\nproperty int x\nproperty int y\nproperty int z\nelement face 1\nproperty list uchar int vertex_indices\nend_header\n\xFF\xFF\xFF\xFF\0\0\0\0\0\0\0\0\x01\0\0\0\0\0\0\0\0\0\0\0\0\0\0\0\x01\0\0\0\0\0\0\0\x03\0\0\0\0\x01\0\0\0\x02\0\0\0",
        b"ply\nformat ascii 1.0               \nelement vertex 3\nproperty int x\nproperty int y\nproperty int z\nelement face 1\nproperty list uchar int vertex_indices\nend_header\n-1\n0\n0\n1\n0\n0\n0\n1\n0\n3\n0\n1\n2\n",
    ),
    // Each type at its limits, in an element before the vertices; CR LF, tabs and comments; rows
    // without properties; a coordinate that is a float; a byte behind the last value.
    (
        b"ply\r\ncomment made\r\nformat\tbinary_little_endian 1.0 \r\nelement limits 2\r\nproperty char a\r\nproperty uchar b\r\nproperty short c\r\nproperty ushort d\r\nproperty int e\r\nproperty uint f\r\nproperty float g\r\nproperty double h\r\nelement nothing 9223372036854775807\r\nelement vertex 1\r\nproperty double x\r\nproperty float y\r\nproperty short z\r\nelement face 0\r\nproperty list uchar int vertex_index\r\nend_header\r\n\x80\0\0\x80\0\0\0\0\0\x80\0\0\0\0abcdabcdabcd\x7F\xFF\xFF\x7F\xFF\xFF\xFF\xFF\xFF\x7F\xFF\xFF\xFF\xFFabcdabcdabcdabcdabcdabcd\x02\x01?",
        b"ply\r\ncomment made\r\nformat\tascii 1.0                \r\nelement limits 2\r\nproperty char a\r\nproperty uchar b\r\nproperty short c\r\nproperty ushort d\r\nproperty int e\r\nproperty uint f\r\nproperty float g\r\nproperty double h\r\nelement nothing 9223372036854775807\r\nelement vertex 1\r\nproperty double x\r\nproperty float y\r\nproperty short z\r\nelement face 0\r\nproperty list uchar int vertex_index\r\nend_header\r\n-128\n0\n-32768\n0\n-2147483648\n0\n0\n0\n127\n255\n32767\n65535\n2147483647\n4294967295\n0\n0\nnan\nnan\n258\nx",
    ),
    // A list of each count type, the last cut off within its second value.
    (
        b"ply\nformat binary_little_endian 1.0\nelement vertex 0\nproperty char x\nproperty char y\nproperty char z\nelement face 0\nproperty list uchar uchar vertex_index\nelement lists 1\nproperty list char short a\nproperty list uchar float b\nproperty list short char c\nproperty list ushort uchar d\nproperty list int int e\nproperty list uint ushort f\nend_header\n\x01\xFE\xFF\x01abcd\x01\0\x80\x02\0\x05\x06\0\0\0\0\x02\0\0\0\x07\0\x08",
        b"ply\nformat ascii 1.0               \nelement vertex 0\nproperty char x\nproperty char y\nproperty char z\nelement face 0\nproperty list uchar uchar vertex_index\nelement lists 1\nproperty list char short a\nproperty list uchar float b\nproperty list short char c\nproperty list ushort uchar d\nproperty list int int e\nproperty list uint ushort f\nend_header\n1\n-2\n1\n0\n1\n-128\n2\n5\n6\n0\n2\n7\n",
    ),
    // A negative count.
    (
        b"ply\nformat binary_little_endian 1.0\nelement vertex 0\nproperty int x\nproperty int y\nproperty int z\nelement face 1\nproperty list char int vertex_index\nend_header\n\xFF\x01\x02\x03\x04",
        b"ply\nformat ascii 1.0               \nelement vertex 0\nproperty int x\nproperty int y\nproperty int z\nelement face 1\nproperty list char int vertex_index\nend_header\n-1\n",
    ),
    // Texts that stay as they are: another format, no header, a header that is refused before its
    // format line.
    (
        b"ply\nformat ascii 1.0\nelement vertex 1\n",
        b"ply\nformat ascii 1.0\nelement vertex 1\n",
    ),
    (
        b"ply\nformat binary_big_endian 1.0\n\x01\x02",
        b"ply\nformat binary_big_endian 1.0\n\x01\x02",
    ),
    (b"", b""),
    (
        b"ply\nelement vertex 1\nformat binary_little_endian 1.0\n",
        b"ply\nelement vertex 1\nformat binary_little_endian 1.0\n",
    ),
    // A header that is refused behind its format line, and a format line with no end.
    (
        b"ply\nformat binary_little_endian 1.0\nelement\n\x01",
        b"ply\nformat ascii 1.0               \nelement\n\x01",
    ),
    (
        b"ply\nformat binary_little_endian 1.0",
        b"ply\nformat ascii 1.0               ",
    ),
];

/// Whether the source gives this text and no more, in reads of at most that many bytes.
fn gives(source: &mut AsciiSource<'_, MemSource>, text: &[u8], size: usize) -> bool
    requires some { 0 < size }
    requires room { size ≤ 4096 }
{
    let mut room = [0; 4096];
    let mut left = text;
    for _ in 0..text.len() {
        let count = source.read(&mut room[..size]).unwrap_or(0);
        if count == 0 || count > size || count > left.len() {
            return left.is_empty();
        }
        let (front, behind) = left.split_at(count);
        if front != &room[..count] {
            return false;
        }
        left = behind;
    }
    left.is_empty() && source.read(&mut room[..size]) == Ok(0)
}

#[test]
fn binary_files_come_as_text(rt: HostRuntime) {
    for (file, text) in FILES {
        for piece in SIZES {
            for size in SIZES {
                assert!(rt; 0 < *size && *size <= 4096);
                let mut input = MemSource::new(rt.alloc(), file, *piece, &[]).expect(&rt, "memory");
                let mut source = AsciiSource::new(HeldInput::new(&mut input));
                assert!(rt;
                    gives(&mut source, text, *size),
                    "{piece} bytes read, {size} asked for: {text:?}"
                );
            }
        }
    }
}

#[test]
fn a_refused_read_is_answered_and_leaves_the_text(rt: HostRuntime) {
    let (file, text) = FILES[0];
    let mut input = MemSource::new(rt.alloc(), file, 7, &[1, 5, 26]).expect(&rt, "memory");
    let mut source = AsciiSource::new(HeldInput::new(&mut input));
    let mut room = [0; 64];
    let mut refused: u32 = 0;
    let mut left = text;
    for _ in 0..40 {
        match source.read(&mut room) {
            Ok(count) => {
                assert!(rt;
                    count <= left.len() && room.get(..count) == left.get(..count),
                    "the next bytes"
                );
                left = &left[count..];
            }
            Err(_) => refused = refused.saturating_add(1),
        }
    }
    assert_eq!(rt; refused, 3, "refused reads");
    assert!(rt; left.is_empty(), "the whole text");
}
