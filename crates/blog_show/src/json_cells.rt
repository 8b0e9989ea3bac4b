//! Values of columns as JSON (RFC 8259).

use crate::forms::RowStyle;
use crate::scratch::{Clock, Scratch};
use crate::tables::{LastMap, ShownColumn};
use crate::texts::{put_digits, put_latin1};
use crate::values::{
    enum_text, is_unsigned, put_bits, put_members, put_plain, put_timestamp, value_of,
};
use blog_columns::CharacterSet;
use blog_json::put_document;
use blog_text::{put_number, put_string, put_text};
use blog_value::{Timestamp, Value, put_signed, put_unsigned};
use std::alloc::{AllocError, Allocator};

/// The largest integer up to which a number of JSON is exact everywhere: 2^53.
const MOST: u64 = 9_007_199_254_740_992;

/// Appends an integer: as a number if that is exact everywhere, else as a string.
fn put_integer<A: Allocator>(out: &mut Vec<u8, A>, number: i64) -> Result<(), AllocError> {
    if number.unsigned_abs() <= MOST {
        return put_signed(out, number);
    }
    put_text(out, b"\"")?;
    put_signed(out, number)?;
    put_text(out, b"\"")
}

/// Appends an integer without a sign in the same way.
fn put_natural<A: Allocator>(out: &mut Vec<u8, A>, number: u64) -> Result<(), AllocError> {
    if number <= MOST {
        return put_unsigned(out, number);
    }
    put_text(out, b"\"")?;
    put_unsigned(out, number)?;
    put_text(out, b"\"")
}

/// Appends the text of a value that says all of it as a string. No character of it needs an escape.
fn put_in_quotes<A: Allocator>(out: &mut Vec<u8, A>, value: &Value<'_>) -> Result<(), AllocError> {
    put_text(out, b"\"")?;
    put_plain(out, value)?;
    put_text(out, b"\"")
}

/// Appends a time since 1970 as a string.
fn put_quoted_timestamp<A: Allocator>(
    out: &mut Vec<u8, A>,
    clock: &mut Clock<A>,
    time: &Timestamp,
    style: &RowStyle<'_>,
) -> Result<(), AllocError> {
    put_text(out, b"\"")?;
    put_timestamp(out, clock, time, style)?;
    put_text(out, b"\"")
}

/// Appends the digits of a BIT as a string.
fn put_quoted_bits<A: Allocator>(
    out: &mut Vec<u8, A>,
    scratch: &mut Scratch<A>,
    value: &Value<'_>,
) -> Result<(), AllocError> {
    put_text(out, b"\"")?;
    put_bits(out, &mut scratch.text, value)?;
    put_text(out, b"\"")
}

/// Appends bytes in hexadecimal digits as a string.
fn put_bytes<A: Allocator>(out: &mut Vec<u8, A>, bytes: &[u8]) -> Result<(), AllocError> {
    put_text(out, b"\"0x")?;
    put_digits(out, bytes)?;
    put_text(out, b"\"")
}

/// Appends bytes that aren't what their type says, in hexadecimal digits after a mark, as a string.
fn put_unknown<A: Allocator>(out: &mut Vec<u8, A>, bytes: &[u8]) -> Result<(), AllocError> {
    put_text(out, b"\"?0x")?;
    put_digits(out, bytes)?;
    put_text(out, b"\"")
}

/// Appends a value of an ENUM: its text if the map has it, else its number.
fn put_enum<A: Allocator>(
    out: &mut Vec<u8, A>,
    text: Option<&[u8]>,
    number: u64,
) -> Result<(), AllocError> {
    match text {
        Some(text) => put_string(out, text),
        None => put_number(out, number),
    }
}

/// Appends a value of a SET: its texts if the map has them, else its number.
fn put_set<'a, A: Allocator, B: Allocator>(
    out: &mut Vec<u8, A>,
    scratch: &mut Scratch<A>,
    map: &LastMap<'a, B>,
    column: &ShownColumn<'a>,
    bits: u64,
) -> Result<(), AllocError> {
    if put_members(&mut scratch.text, map, column, bits)? {
        put_string(out, &scratch.text)
    } else {
        put_natural(out, bits)
    }
}

/// Appends a document of JSON as it is; in hexadecimal digits after a mark if it is none.
fn put_json<A: Allocator>(out: &mut Vec<u8, A>, document: &[u8]) -> Result<(), AllocError> {
    if put_document(out, document)? {
        Ok(())
    } else {
        put_unknown(out, document)
    }
}

/// Appends a text of a character set: as text if that is known or it is UTF-8, else in hexadecimal digits.
fn put_characters<A: Allocator>(
    out: &mut Vec<u8, A>,
    scratch: &mut Scratch<A>,
    text: &[u8],
    set: CharacterSet,
) -> Result<(), AllocError> {
    match set {
        CharacterSet::Utf8 => put_string(out, text),
        CharacterSet::Latin1 => {
            put_latin1(&mut scratch.text, text)?;
            put_string(out, &scratch.text)
        }
        CharacterSet::Unknown if str::from_utf8(text).is_ok() => put_string(out, text),
        CharacterSet::Unknown | CharacterSet::Binary | CharacterSet::Other => put_bytes(out, text),
    }
}

/// Appends a value that isn't NULL.
fn put_present<'a, A: Allocator, B: Allocator>(
    out: &mut Vec<u8, A>,
    scratch: &mut Scratch<A>,
    map: &LastMap<'a, B>,
    column: &ShownColumn<'a>,
    bytes: &[u8],
    style: &RowStyle<'_>,
) -> Result<(), AllocError> {
    let value = value_of(&column.column, is_unsigned(&column.column), bytes);
    match value {
        Value::Signed(number) => put_integer(out, number),
        Value::Unsigned(number) => put_natural(out, number),
        Value::Float(_) | Value::Double(_) => put_plain(out, &value),
        Value::Year(year) => put_number(out, u64::from(year)),
        Value::Decimal(_) | Value::Date(_) | Value::Time(_) | Value::DateTime(_) => {
            put_in_quotes(out, &value)
        }
        Value::Bits(_) => put_quoted_bits(out, scratch, &value),
        Value::Timestamp(time) => put_quoted_timestamp(out, &mut scratch.clock, &time, style),
        Value::Enum(number) => put_enum(out, enum_text(map, column, number), number),
        Value::Set(bits) => put_set(out, scratch, map, column, bits),
        Value::Text(text) | Value::Blob(text) => {
            put_characters(out, scratch, text, column.column.set)
        }
        Value::Json(document) => put_json(out, document),
        Value::Geometry(bytes) => put_bytes(out, bytes),
        Value::Unknown(bytes) => put_unknown(out, bytes),
    }
}

/// Appends a value, or `null`.
pub(crate) fn put_cell<'a, A: Allocator, B: Allocator>(
    out: &mut Vec<u8, A>,
    scratch: &mut Scratch<A>,
    map: &LastMap<'a, B>,
    column: &ShownColumn<'a>,
    value: Option<&[u8]>,
    style: &RowStyle<'_>,
) -> Result<(), AllocError> {
    match value {
        Some(bytes) => put_present(out, scratch, map, column, bytes, style),
        None => put_text(out, b"null"),
    }
}
