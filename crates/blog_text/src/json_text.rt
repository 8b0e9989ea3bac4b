//! Texts as strings of JSON (RFC 8259), with the shortest escape for each character that needs one.

ghost use Rattle.std.specs.Prelude.{◌≡◌, ◌≤◌, ◌++◌, OnOk, false, length, map, true};
ghost use Rattle.std.specs.List.{flat_map, list_any, prefix_len};
ghost use Rattle.bstr.specs.Utf8.{lossy_chars};
ghost use Rattle.std.specs.Simd.Lanes.{mask_l};
ghost use Rattle.blog_text.specs.JsonStrings.{is_high_control, json_char, json_control, json_string};
ghost use Rattle.blog_text.specs.code.JsonBytes.{is_escaped, is_literal, json_byte, may_begin};

use crate::texts::{put_byte, put_text};
use bstr::ByteSlice;
use std::alloc::{AllocError, Allocator};
use std::simd::prelude::*;

/// Whether a byte of UTF-8 needs an escape in a string.
fn is_escaped(byte: u8) -> bool
    ensures { result ≡ is_escaped byte }
{
    byte == b'"' || byte == b'\\' || byte < b' '
}

/// Returns which of sixteen bytes need one, the first in the lowest bit.
#[inline(always)]
fn escaped_of(bytes: u8x16) -> u64
    ensures { result ≡ mask_l (map is_escaped bytes) }
{
    (bytes.simd_eq(u8x16::splat(b'"'))
        | bytes.simd_eq(u8x16::splat(b'\\'))
        | bytes.simd_lt(u8x16::splat(b' '))).to_bitmask()
}

/// Returns how many bytes at the beginning of a text need none.
fn literal_len(text: &[u8]) -> usize
    ensures all { result ≡ prefix_len is_literal text.now }
    ensures within { result ≤ length text.now }
{
    let mut len = 0;
    'blocks: while text.len() - len >= 16 {
        let escaped = escaped_of(u8x16::from_slice(&text[len..]));
        if escaped != 0 {
            return len + escaped.trailing_zeros() as usize;
        }
        len += 16;
    }
    len + short_literal_len(&text[len..])
}

/// Returns the same of a short text, byte by byte.
#[inline(always)]
fn short_literal_len(text: &[u8]) -> usize
    ensures all { result ≡ prefix_len is_literal text.now }
    ensures within { result ≤ length text.now }
{
    'bytes: for i in 0..text.len() {
        if is_escaped(text[i]) {
            return i;
        }
    }
    text.len()
}

/// Appends a control character by its number.
#[inline(never)]
fn put_control<A: Allocator>(out: &mut Vec<u8, A>, byte: u8) -> Result<(), AllocError>
    ensures { OnOk result (out.new.items ≡ out.old.items ++ json_control byte) }
{
    put_text(out, b"\\u00")?;
    put_byte(out, byte)
}

/// Appends the escape of a byte.
#[inline(always)]
fn put_escape<A: Allocator>(out: &mut Vec<u8, A>, byte: u8) -> Result<(), AllocError>
    requires { is_escaped byte ≡ true }
    ensures { OnOk result (out.new.items ≡ out.old.items ++ json_char byte) }
{
    let letter = match byte {
        b'"' | b'\\' => byte,
        b'\n' => b'n',
        b'\t' => b't',
        b'\r' => b'r',
        b'\x08' => b'b',
        b'\x0c' => b'f',
        _ => return put_control(out, byte),
    };
    put_text(out, &[b'\\', letter])
}

/// Returns whether a character is one of the control characters that JSON allows in a string.
fn is_high_control(c: char) -> bool
    ensures { result ≡ is_high_control c }
{
    c >= '\u{7F}' && c <= '\u{9F}'
}

/// Returns whether a byte may begin one of these in UTF-8: it is U+007F, or begins U+0080 to U+00BF.
fn may_begin(byte: u8) -> bool
    ensures { result ≡ may_begin byte }
{
    byte == 0x7F || byte == 0xC2
}

/// Returns whether a text has such a byte. No byte ends the loop, so vectors do it.
fn may_have_high_control(text: &[u8]) -> bool
    ensures { result ≡ list_any may_begin text.now }
{
    let mut is_there = false;
    'bytes: for byte in text {
        is_there |= may_begin(*byte);
    }
    is_there
}

/// Appends a character of a string.
pub fn put_char<A: Allocator>(out: &mut Vec<u8, A>, c: char) -> Result<(), AllocError>
    ensures { OnOk result (out.new.items ≡ out.old.items ++ json_char c) }
{
    if is_high_control(c) {
        return put_control(out, c as u8);
    }
    if !c.is_ascii() {
        return put_text(out, c.encode_utf8(&mut [0; 4]).as_bytes());
    }
    let byte = c as u8;
    if is_escaped(byte) {
        put_escape(out, byte)
    } else {
        put_text(out, &[byte])
    }
}

/// Appends the bytes of a text, those that need it escaped.
fn put_escaped<A: Allocator>(out: &mut Vec<u8, A>, text: &[u8]) -> Result<(), AllocError>
    ensures { OnOk result (out.new.items ≡ out.old.items ++ flat_map json_byte text.now) }
{
    let mut rest = text;
    'bytes: while let Some((first, later)) = rest.split_first() {
        if is_escaped(*first) {
            put_escape(out, *first)?;
            rest = later;
        } else {
            let (literal, after) = rest.split_at(literal_len(rest));
            put_text(out, literal)?;
            rest = after;
        }
    }
    Ok(())
}

/// Appends a text as a string, in which no byte begins a control character from U+007F on.
fn put_visible<A: Allocator>(out: &mut Vec<u8, A>, text: &str) -> Result<(), AllocError>
    ensures { list_any may_begin text.now ≡ false → OnOk result (out.new.items ≡ out.old.items ++ json_string text.now) }
{
    put_text(out, b"\"")?;
    put_escaped(out, text.as_bytes())?;
    put_text(out, b"\"")
}

/// Appends a text as a string.
pub fn put_str<A: Allocator>(out: &mut Vec<u8, A>, text: &str) -> Result<(), AllocError>
    ensures { OnOk result (out.new.items ≡ out.old.items ++ json_string text.now) }
{
    if may_have_high_control(text.as_bytes()) {
        put_lossy(out, text.as_bytes())
    } else {
        put_visible(out, text)
    }
}

/// Appends bytes as a string, with U+FFFD for what is no character.
pub fn put_lossy<A: Allocator>(out: &mut Vec<u8, A>, text: &[u8]) -> Result<(), AllocError>
    ensures { OnOk result (out.new.items ≡ out.old.items ++ json_string text.now) }
{
    put_text(out, b"\"")?;
    for c in text.chars() {
        put_char(out, c)?;
    }
    put_text(out, b"\"")
}

/// Appends bytes that may be text as a string.
pub fn put_string<A: Allocator>(out: &mut Vec<u8, A>, text: &[u8]) -> Result<(), AllocError>
    ensures { OnOk result (out.new.items ≡ out.old.items ++ json_string text.now) }
{
    match str::from_utf8(text) {
        Ok(text) => put_str(out, text),
        Err(_) => put_lossy(out, text),
    }
}
