//! Bytes of a log for people: escaped, so that no control character reaches a terminal.

use crate::json_lines::marks::{Mark, Marks};
use crate::json_lines::texts::{put_byte, put_text};
use std::alloc::{AllocError, Allocator};

/// Appends a byte as `\x1b`.
fn put_escape<A: Allocator>(out: &mut Vec<u8, A>, byte: u8) -> Result<(), AllocError> {
    put_text(out, b"\\x")?;
    put_byte(out, byte)
}

/// Appends each byte as `\x1b`.
fn put_escapes<A: Allocator>(out: &mut Vec<u8, A>, bytes: &[u8]) -> Result<(), AllocError> {
    for byte in bytes {
        put_escape(out, *byte)?;
    }
    Ok(())
}

/// Appends a character, escaped.
fn put_char<A: Allocator>(out: &mut Vec<u8, A>, c: char) -> Result<(), AllocError> {
    match c {
        '\\' => put_text(out, b"\\\\"),
        '\n' => put_text(out, b"\\n"),
        '\t' => put_text(out, b"\\t"),
        '\r' => put_text(out, b"\\r"),
        _ if c.is_control() => put_escapes(out, c.encode_utf8(&mut [0; 4]).as_bytes()),
        '\u{2028}' => put_text(out, b"\\u{2028}"),
        '\u{2029}' => put_text(out, b"\\u{2029}"),
        '\u{FEFF}' => put_text(out, b"\\u{feff}"),
        _ => put_text(out, c.encode_utf8(&mut [0; 4]).as_bytes()),
    }
}

/// Appends a mark, escaped.
fn put_mark<A: Allocator>(out: &mut Vec<u8, A>, mark: Mark) -> Result<(), AllocError> {
    match mark {
        Mark::Character(c) => put_char(out, c),
        Mark::Byte(byte) => put_escape(out, byte),
    }
}

/// Appends a text, escaped.
pub(crate) fn put_escaped<A: Allocator>(
    out: &mut Vec<u8, A>,
    text: &[u8],
) -> Result<(), AllocError> {
    for mark in Marks::new(text) {
        put_mark(out, mark)?;
    }
    Ok(())
}
