//! Fields of CSV (RFC 4180).

use blog_text::put_text;
use std::alloc::{AllocError, Allocator};

/// Whether a byte can't be in a field without quotes.
fn is_special(byte: u8) -> bool {
    byte == b',' || byte == b'"' || byte == b'\n' || byte == b'\r'
}

/// Whether a text can't be a field without quotes. No byte ends the loop, so vectors do it.
fn is_quoted(text: &[u8]) -> bool {
    let mut quoted = text.is_empty();
    'bytes: for byte in text {
        quoted |= is_special(*byte);
    }
    quoted
}

/// Appends a text between double quotes, with those in it doubled.
fn put_quoted<A: Allocator>(out: &mut Vec<u8, A>, text: &[u8]) -> Result<(), AllocError> {
    put_text(out, b"\"")?;
    for byte in text {
        if *byte == b'"' {
            out.push(b'"')?;
        }
        out.push(*byte)?;
    }
    put_text(out, b"\"")
}

/// Appends a text as a field. An empty one has quotes: a field without them is NULL.
pub fn put_csv_field<A: Allocator>(out: &mut Vec<u8, A>, text: &[u8]) -> Result<(), AllocError> {
    if is_quoted(text) {
        put_quoted(out, text)
    } else {
        put_text(out, text)
    }
}
