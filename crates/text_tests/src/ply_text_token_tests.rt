//! Expected lines, tokens and places were counted by hand.

use dev_traits::{ByteSource, MemSource};
use ply_text::{TextFault, Tokens};
use std::alloc::{AllocError, Global};

/// CR LF, a CR inside a line, a blank line, and a last line without an end that is a CR.
const HEADER: &[u8] = b"ply\r\na\rb\n\n\r\nend\r";

const LINES: &[(u64, &[u8])] = &[
    (0, b"ply"),
    (5, b"a\rb"),
    (9, b""),
    (10, b""),
    (12, b"end\r"),
];

/// Tab, VT, FF, CR LF and spaces between tokens.
const BODY: &[u8] = b" 1\t-2\x0B\x0C3.5\r\n  4e1 ";

const TOKENS: &[(u64, &[u8])] = &[(1, b"1"), (3, b"-2"), (7, b"3.5"), (14, b"4e1")];

const PIECES: &[usize] = &[1, 7, 4096];

/// Whether the next line stands at a place, with these bytes.
fn has_line<I: ByteSource>(tokens: &mut Tokens<'_, I>, place: u64, bytes: &[u8]) -> bool {
    match tokens.next_line() {
        Ok(Some(line)) => line.place == place && line.bytes == bytes,
        _ => false,
    }
}

/// Whether the next token stands at a place, with these bytes.
fn has_token<I: ByteSource>(tokens: &mut Tokens<'_, I>, place: u64, bytes: &[u8]) -> bool {
    match tokens.next_token() {
        Ok(Some(token)) => token.place == place && token.bytes == bytes,
        _ => false,
    }
}

#[test]
fn lines_do_not_depend_on_the_reads(rt: HostRuntime) {
    for piece in PIECES {
        let mut block = [0; 2048];
        let mut source = MemSource::new(rt.alloc(), HEADER, *piece, &[]).expect(&rt, "memory");
        let mut tokens = Tokens::new(&mut source, &mut block);
        for (place, bytes) in LINES {
            assert!(rt; has_line(&mut tokens, *place, bytes), "the line at {place}");
        }
        let ends = matches!(tokens.next_line(), Ok(None)) && tokens.place() == 16;
        assert!(rt; ends, "the end, behind 16 bytes");
    }
}

#[test]
fn tokens_do_not_depend_on_the_reads(rt: HostRuntime) {
    for piece in PIECES {
        let mut block = [0; 2048];
        let mut source = MemSource::new(rt.alloc(), BODY, *piece, &[]).expect(&rt, "memory");
        let mut tokens = Tokens::new(&mut source, &mut block);
        for (place, bytes) in TOKENS {
            assert_eq!(rt; tokens.next_place(), Ok(Some(*place)), "a next place");
            assert!(rt;
                has_token(&mut tokens, *place, bytes),
                "the token at {place}"
            );
        }
        let ends = matches!(tokens.next_token(), Ok(None)) && tokens.place() == 18;
        assert!(rt; ends, "the end, behind 18 bytes");
    }
}

/// Letters before a line's end, that end, and how many bytes the line has: at most 1024 may stand
/// before LF, a CR counted.
const LONG_LINES: &[(usize, &[u8], Option<usize>)] = &[
    (1024, b"\n", Some(1024)),
    (1025, b"\n", None),
    (1023, b"\r\n", Some(1023)),
    (1024, b"\r\n", None),
];

fn letters(alloc: Global, count: usize, end: &[u8]) -> Result<Vec<u8>, AllocError> {
    let mut text = vec![in alloc; b'a'; count]?;
    text.extend_from_slice(end)?;
    Ok(text)
}

/// How many bytes the first line has, and whether the reader is stopped behind it for a line too long.
fn first_line(text: &mut MemSource) -> (Option<usize>, bool) {
    let mut block = [0; 2048];
    let mut tokens = Tokens::new(text, &mut block);
    let size = match tokens.next_line() {
        Ok(Some(line)) => Some(line.bytes.len()),
        _ => None,
    };
    let stopped = matches!(tokens.next_token(), Err(TextFault::LineTooLong(0)));
    (size, stopped)
}

#[test]
fn a_line_has_at_most_1024_bytes(rt: HostRuntime) {
    for (count, end, want) in LONG_LINES {
        let text = letters(rt.alloc(), *count, end).expect(&rt, "memory");
        let mut source = MemSource::new(rt.alloc(), &text, 4096, &[]).expect(&rt, "memory");
        let wanted = (*want, want.is_none());
        assert_eq!(rt; first_line(&mut source), wanted, "{count} letters");
    }
}

/// How many bytes the first token has, or why there is none.
fn first_token(text: &mut MemSource) -> Result<Option<usize>, TextFault> {
    let mut block = [0; 2048];
    let mut tokens = Tokens::new(text, &mut block);
    match tokens.next_token() {
        Ok(Some(token)) => Ok(Some(token.bytes.len())),
        Ok(None) => Ok(None),
        Err(fault) => Err(fault),
    }
}

/// How many letters stand before a space, and the token of them.
const LONG_TOKENS: &[(usize, Result<Option<usize>, TextFault>)] = &[
    (255, Ok(Some(255))),
    (256, Err(TextFault::TokenTooLong(0))),
];

#[test]
fn a_token_has_at_most_255_bytes(rt: HostRuntime) {
    for (count, want) in LONG_TOKENS {
        let text = letters(rt.alloc(), *count, b" ").expect(&rt, "memory");
        let mut source = MemSource::new(rt.alloc(), &text, 100, &[]).expect(&rt, "memory");
        assert_eq!(rt; first_token(&mut source), *want, "{count} letters");
    }
}

/// Of seven bytes each, so that a token lies over the block's end: 2048 is no multiple of 7.
#[test]
fn tokens_lie_over_the_end_of_the_block(rt: HostRuntime) {
    let mut text = Vec::new(rt.alloc());
    for _ in 0..600 {
        text.extend_from_slice(b"abcdef ").expect(&rt, "memory");
    }
    let mut block = [0; 2048];
    let mut source = MemSource::new(rt.alloc(), &text, 4096, &[]).expect(&rt, "memory");
    let mut tokens = Tokens::new(&mut source, &mut block);
    for number in 0..600u64 {
        let is_next = has_token(&mut tokens, 7 * number, b"abcdef");
        assert!(rt; is_next, "token {number}");
    }
    assert!(rt; matches!(tokens.next_token(), Ok(None)), "the end");
}

/// The number of the read that fails, and how many tokens come before: reads give four bytes.
const FAILS: &[(u64, usize)] = &[(1, 0), (2, 1), (3, 2)];

/// Whether so many tokens come, and the reader is stopped behind them for a failed read, whatever is asked.
fn fails_behind<I: ByteSource>(source: &mut I, before: usize) -> bool {
    let mut block = [0; 2048];
    let mut tokens = Tokens::new(source, &mut block);
    for _ in 0..before {
        if !matches!(tokens.next_token(), Ok(Some(_))) {
            return false;
        }
    }
    matches!(tokens.next_token(), Err(TextFault::ReadFault))
        && matches!(tokens.next_line(), Err(TextFault::ReadFault))
        && tokens.next_place() == Err(TextFault::ReadFault)
}

#[test]
fn a_failed_read_stops_the_reader(rt: HostRuntime) {
    for (call, before) in FAILS {
        let text = MemSource::new(rt.alloc(), b"ab cdef gh", 4, &[*call]);
        let mut source = text.expect(&rt, "memory");
        assert!(rt; fails_behind(&mut source, *before), "read {call} fails");
        assert_eq!(rt; source.fault_count(), 1, "faults");
    }
}

/// Whether the line that is held comes, and the next one fails with the read that it needs.
fn fails_at_the_next_line<I: ByteSource>(source: &mut I) -> bool {
    let mut block = [0; 2048];
    let mut tokens = Tokens::new(source, &mut block);
    has_line(&mut tokens, 0, b"ab") && matches!(tokens.next_line(), Err(TextFault::ReadFault))
}

#[test]
fn a_line_that_is_held_needs_no_further_read(rt: HostRuntime) {
    let mut source = MemSource::new(rt.alloc(), b"ab\ncd", 3, &[2]).expect(&rt, "memory");
    assert!(rt; fails_at_the_next_line(&mut source), "a line, and a fault");
}
