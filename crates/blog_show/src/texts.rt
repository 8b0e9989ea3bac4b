//! Texts and bytes as values, cut to a width.

use crate::scratch::Scratch;
use blog_columns::CharacterSet;
use blog_text::{put_beginning, put_hex, put_text};
use std::alloc::{AllocError, Allocator};

/// The most characters of a value in each column of its width: characters can be in no column.
const CHARACTERS_A_COLUMN: usize = 4;

/// How many bytes are written as digits at once.
const BYTES_AT_ONCE: usize = 16;

/// The characters of Windows-1252 from 128 to 159. The five that it lacks are control characters, as MySQL has them in latin1.
const WINDOWS: [char; 32] = [
    '\u{20AC}', '\u{81}', '\u{201A}', '\u{192}', '\u{201E}', '\u{2026}', '\u{2020}', '\u{2021}',
    '\u{2C6}', '\u{2030}', '\u{160}', '\u{2039}', '\u{152}', '\u{8D}', '\u{17D}', '\u{8F}',
    '\u{90}', '\u{2018}', '\u{2019}', '\u{201C}', '\u{201D}', '\u{2022}', '\u{2013}', '\u{2014}',
    '\u{2DC}', '\u{2122}', '\u{161}', '\u{203A}', '\u{153}', '\u{9D}', '\u{17E}', '\u{178}',
];

/// The character of a byte of latin1.
fn latin1_char(byte: u8) -> char {
    match byte {
        128..=159 => WINDOWS[usize::from(byte - 128)],
        _ => char::from(byte),
    }
}

/// Puts a text of latin1 in place of what is there, as UTF-8.
pub(crate) fn put_latin1<A: Allocator>(
    scratch: &mut Vec<u8, A>,
    text: &[u8],
) -> Result<(), AllocError> {
    scratch.clear();
    for byte in text {
        if byte.is_ascii() {
            scratch.push(*byte)?;
        } else {
            put_text(
                scratch,
                latin1_char(*byte).encode_utf8(&mut [0; 4]).as_bytes(),
            )?;
        }
    }
    Ok(())
}

/// Appends bytes in hexadecimal digits.
pub(crate) fn put_digits<A: Allocator>(
    out: &mut Vec<u8, A>,
    bytes: &[u8],
) -> Result<(), AllocError> {
    let mut rest = bytes;
    'parts: while rest.len() > BYTES_AT_ONCE {
        let (part, others) = rest.split_at(BYTES_AT_ONCE);
        put_hex(out, part)?;
        rest = others;
    }
    put_hex(out, rest)
}

/// Appends bytes in hexadecimal digits, as many as fit in this many columns. Two points follow if these aren't all.
pub(crate) fn put_bytes<A: Allocator>(
    out: &mut Vec<u8, A>,
    bytes: &[u8],
    width: usize,
) -> Result<(), AllocError> {
    put_text(out, b"0x")?;
    let most = width / 2;
    if bytes.len() > most {
        put_digits(out, &bytes[..most])?;
        put_text(out, b"..")
    } else {
        put_digits(out, bytes)
    }
}

/// Puts a text with its single quotes doubled in place of what is there.
fn put_doubled<A: Allocator>(doubled: &mut Vec<u8, A>, text: &[u8]) -> Result<(), AllocError> {
    doubled.clear();
    for byte in text {
        if *byte == b'\'' {
            doubled.push(b'\'')?;
        }
        doubled.push(*byte)?;
    }
    Ok(())
}

/// Appends a text, escaped, and cut to this many columns.
fn put_cut<A: Allocator>(
    out: &mut Vec<u8, A>,
    text: &[u8],
    width: usize,
) -> Result<(), AllocError> {
    put_beginning(out, text, width, width.saturating_mul(CHARACTERS_A_COLUMN))
}

/// Whether a byte is a character that is shown as it is, in one column.
fn is_plain(byte: u8) -> bool {
    byte >= b' ' && byte <= b'~' && byte != b'\\' && byte != b'\''
}

/// Whether all bytes are such characters. No byte ends the loop, so vectors do it.
fn are_plain(text: &[u8]) -> bool {
    let mut plain = true;
    'bytes: for byte in text {
        plain &= is_plain(*byte);
    }
    plain
}

/// Appends a text that may have a quote, with quotes doubled, escaped, and cut to this many columns.
#[inline(never)]
fn put_any<A: Allocator>(
    out: &mut Vec<u8, A>,
    doubled: &mut Vec<u8, A>,
    text: &[u8],
    width: usize,
) -> Result<(), AllocError> {
    if text.contains(&b'\'') {
        put_doubled(doubled, text)?;
        put_cut(out, doubled, width)
    } else {
        put_cut(out, text, width)
    }
}

/// Appends a text between single quotes, with those in it doubled, escaped, and cut to this many columns.
pub(crate) fn put_quoted<A: Allocator>(
    out: &mut Vec<u8, A>,
    doubled: &mut Vec<u8, A>,
    text: &[u8],
    width: usize,
) -> Result<(), AllocError> {
    put_text(out, b"'")?;
    if text.len() <= width && are_plain(text) {
        put_text(out, text)?;
    } else {
        put_any(out, doubled, text, width)?;
    }
    put_text(out, b"'")
}

/// Appends a text of a character set: as text if that is known or it is UTF-8, else in hexadecimal digits.
pub(crate) fn put_string<A: Allocator>(
    out: &mut Vec<u8, A>,
    scratch: &mut Scratch<A>,
    text: &[u8],
    set: CharacterSet,
    width: usize,
) -> Result<(), AllocError> {
    match set {
        CharacterSet::Utf8 => put_quoted(out, &mut scratch.changed, text, width),
        CharacterSet::Latin1 => {
            put_latin1(&mut scratch.text, text)?;
            put_quoted(out, &mut scratch.changed, &scratch.text, width)
        }
        CharacterSet::Unknown if str::from_utf8(text).is_ok() => {
            put_quoted(out, &mut scratch.changed, text, width)
        }
        CharacterSet::Unknown | CharacterSet::Binary | CharacterSet::Other => {
            put_bytes(out, text, width)
        }
    }
}
