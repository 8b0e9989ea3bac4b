//! Values of columns on lines for people.

use crate::forms::RowStyle;
use crate::scratch::{Clock, Scratch};
use crate::tables::{LastMap, ShownColumn};
use crate::texts::{put_bytes, put_quoted, put_string};
use crate::values::{enum_text, is_unsigned, put_members, put_plain, put_timestamp, value_of};
use blog_columns::{Column, Sign};
use blog_json::put_document;
use blog_text::{put_number, put_text};
use blog_value::{Timestamp, Value, put_signed, put_unsigned};
use std::alloc::{AllocError, Allocator};

/// Appends a negative number, and in brackets the number that its bytes are if they have no sign, if the map doesn't say.
fn put_signed_or_not<A: Allocator>(
    out: &mut Vec<u8, A>,
    number: i64,
    column: &Column<'_>,
    bytes: &[u8],
) -> Result<(), AllocError> {
    put_signed(out, number)?;
    if number >= 0 || column.sign != Sign::Unknown {
        return Ok(());
    }
    match value_of(column, true, bytes) {
        Value::Unsigned(other) => {
            put_text(out, b" (")?;
            put_unsigned(out, other)?;
            put_text(out, b")")
        }
        _ => Ok(()),
    }
}

/// Appends a value of an ENUM: its text if the map has it, else its number.
fn put_enum<A: Allocator>(
    out: &mut Vec<u8, A>,
    scratch: &mut Scratch<A>,
    text: Option<&[u8]>,
    number: u64,
    width: usize,
) -> Result<(), AllocError> {
    match text {
        Some(text) => put_quoted(out, &mut scratch.changed, text, width),
        None => put_number(out, number),
    }
}

/// Appends a value of a SET: its texts if the map has them, else its number.
fn put_set<'a, A: Allocator, B: Allocator>(
    out: &mut Vec<u8, A>,
    scratch: &mut Scratch<A>,
    map: &LastMap<'a, B>,
    column: &ShownColumn<'a>,
    bits: u64,
    width: usize,
) -> Result<(), AllocError> {
    if put_members(&mut scratch.text, map, column, bits)? {
        put_quoted(out, &mut scratch.changed, &scratch.text, width)
    } else {
        put_number(out, bits)
    }
}

/// Appends a document of JSON, cut to a width; in hexadecimal digits after a mark if it is none.
fn put_json<A: Allocator>(
    out: &mut Vec<u8, A>,
    scratch: &mut Scratch<A>,
    document: &[u8],
    width: usize,
) -> Result<(), AllocError> {
    scratch.text.clear();
    if put_document(&mut scratch.text, document)? {
        put_quoted(out, &mut scratch.changed, &scratch.text, width)
    } else {
        put_unknown(out, document, width)
    }
}

/// Appends bytes that aren't what their type says, in hexadecimal digits after a mark.
fn put_unknown<A: Allocator>(
    out: &mut Vec<u8, A>,
    bytes: &[u8],
    width: usize,
) -> Result<(), AllocError> {
    put_text(out, b"?")?;
    put_bytes(out, bytes, width)
}

/// Appends the text of a value that says all of it between single quotes.
fn put_in_quotes<A: Allocator>(out: &mut Vec<u8, A>, value: &Value<'_>) -> Result<(), AllocError> {
    put_text(out, b"'")?;
    put_plain(out, value)?;
    put_text(out, b"'")
}

/// Appends a time since 1970 between single quotes.
fn put_quoted_timestamp<A: Allocator>(
    out: &mut Vec<u8, A>,
    clock: &mut Clock<A>,
    time: &Timestamp,
    style: &RowStyle<'_>,
) -> Result<(), AllocError> {
    put_text(out, b"'")?;
    put_timestamp(out, clock, time, style)?;
    put_text(out, b"'")
}

/// Appends a value that isn't NULL.
fn put_present<'a, A: Allocator, B: Allocator>(
    out: &mut Vec<u8, A>,
    scratch: &mut Scratch<A>,
    map: &LastMap<'a, B>,
    column: &ShownColumn<'a>,
    bytes: &[u8],
    style: &RowStyle<'_>,
) -> Result<(), AllocError> {
    let width = style.width;
    let value = value_of(&column.column, is_unsigned(&column.column), bytes);
    match value {
        Value::Signed(number) => put_signed_or_not(out, number, &column.column, bytes),
        Value::Unsigned(_)
        | Value::Decimal(_)
        | Value::Float(_)
        | Value::Double(_)
        | Value::Year(_)
        | Value::Bits(_) => put_plain(out, &value),
        Value::Date(_) | Value::Time(_) | Value::DateTime(_) => put_in_quotes(out, &value),
        Value::Timestamp(time) => put_quoted_timestamp(out, &mut scratch.clock, &time, style),
        Value::Enum(number) => {
            put_enum(out, scratch, enum_text(map, column, number), number, width)
        }
        Value::Set(bits) => put_set(out, scratch, map, column, bits, width),
        Value::Text(text) | Value::Blob(text) => {
            put_string(out, scratch, text, column.column.set, width)
        }
        Value::Json(document) => put_json(out, scratch, document, width),
        Value::Geometry(bytes) => put_bytes(out, bytes, width),
        Value::Unknown(bytes) => put_unknown(out, bytes, width),
    }
}

/// Appends a value, or NULL.
pub(crate) fn put_cell<'a, A: Allocator, B: Allocator>(
    out: &mut Vec<u8, A>,
    scratch: &mut Scratch<A>,
    map: &LastMap<'a, B>,
    column: &ShownColumn<'a>,
    value: Option<&[u8]>,
    style: &RowStyle<'_>,
) -> Result<(), AllocError> {
    match value {
        Some(bytes) => put_present(out, scratch, map, column, bytes, style),
        None => put_text(out, b"NULL"),
    }
}
