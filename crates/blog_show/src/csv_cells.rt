//! Values of columns as fields of CSV.

use crate::csv_fields::put_csv_field;
use crate::forms::RowStyle;
use crate::scratch::Scratch;
use crate::tables::{LastMap, ShownColumn};
use crate::texts::{put_digits, put_latin1};
use crate::values::{
    enum_text, is_unsigned, put_bits, put_members, put_plain, put_timestamp, value_of,
};
use blog_columns::CharacterSet;
use blog_json::put_document;
use blog_text::{put_number, put_text};
use blog_value::Value;
use bstr::ByteSlice;
use std::alloc::{AllocError, Allocator};

/// Appends bytes in hexadecimal digits.
fn put_bytes<A: Allocator>(out: &mut Vec<u8, A>, bytes: &[u8]) -> Result<(), AllocError> {
    put_text(out, b"0x")?;
    put_digits(out, bytes)
}

/// Appends bytes that aren't what their type says, in hexadecimal digits after a mark.
fn put_unknown<A: Allocator>(out: &mut Vec<u8, A>, bytes: &[u8]) -> Result<(), AllocError> {
    put_text(out, b"?0x")?;
    put_digits(out, bytes)
}

/// Puts a text in place of what is there, with U+FFFD for what is no character.
fn put_lossy<A: Allocator>(scratch: &mut Vec<u8, A>, text: &[u8]) -> Result<(), AllocError> {
    scratch.clear();
    for c in text.chars() {
        put_text(scratch, c.encode_utf8(&mut [0; 4]).as_bytes())?;
    }
    Ok(())
}

/// Appends a text of UTF-8 as a field, with U+FFFD for what is no character.
fn put_utf8<A: Allocator>(
    out: &mut Vec<u8, A>,
    changed: &mut Vec<u8, A>,
    text: &[u8],
) -> Result<(), AllocError> {
    if str::from_utf8(text).is_ok() {
        return put_csv_field(out, text);
    }
    put_lossy(changed, text)?;
    put_csv_field(out, changed)
}

/// Appends a value of an ENUM: its text if the map has it, else its number.
fn put_enum<A: Allocator>(
    out: &mut Vec<u8, A>,
    scratch: &mut Scratch<A>,
    text: Option<&[u8]>,
    number: u64,
) -> Result<(), AllocError> {
    match text {
        Some(text) => put_utf8(out, &mut scratch.changed, text),
        None => put_number(out, number),
    }
}

/// Appends a value of a SET: its texts if the map has them, else its number.
fn put_set<'a, A: Allocator, B: Allocator>(
    out: &mut Vec<u8, A>,
    scratch: &mut Scratch<A>,
    map: &LastMap<'a, B>,
    column: &ShownColumn<'a>,
    bits: u64,
) -> Result<(), AllocError> {
    if put_members(&mut scratch.text, map, column, bits)? {
        put_utf8(out, &mut scratch.changed, &scratch.text)
    } else {
        put_number(out, bits)
    }
}

/// Appends a document of JSON as a field; in hexadecimal digits after a mark if it is none.
fn put_json<A: Allocator>(
    out: &mut Vec<u8, A>,
    scratch: &mut Scratch<A>,
    document: &[u8],
) -> Result<(), AllocError> {
    scratch.text.clear();
    if put_document(&mut scratch.text, document)? {
        put_csv_field(out, &scratch.text)
    } else {
        put_unknown(out, document)
    }
}

/// Appends a text of a character set: as text if that is known or it is UTF-8, else in hexadecimal digits.
fn put_characters<A: Allocator>(
    out: &mut Vec<u8, A>,
    scratch: &mut Scratch<A>,
    text: &[u8],
    set: CharacterSet,
) -> Result<(), AllocError> {
    match set {
        CharacterSet::Utf8 => put_utf8(out, &mut scratch.changed, text),
        CharacterSet::Latin1 => {
            put_latin1(&mut scratch.text, text)?;
            put_csv_field(out, &scratch.text)
        }
        CharacterSet::Unknown if str::from_utf8(text).is_ok() => put_csv_field(out, text),
        CharacterSet::Unknown | CharacterSet::Binary | CharacterSet::Other => put_bytes(out, text),
    }
}

/// Appends a value that isn't NULL.
fn put_present<'a, A: Allocator, B: Allocator>(
    out: &mut Vec<u8, A>,
    scratch: &mut Scratch<A>,
    map: &LastMap<'a, B>,
    column: &ShownColumn<'a>,
    bytes: &[u8],
    style: &RowStyle<'_>,
) -> Result<(), AllocError> {
    let value = value_of(&column.column, is_unsigned(&column.column), bytes);
    match value {
        Value::Signed(_)
        | Value::Unsigned(_)
        | Value::Decimal(_)
        | Value::Float(_)
        | Value::Double(_)
        | Value::Date(_)
        | Value::Time(_)
        | Value::DateTime(_) => put_plain(out, &value),
        Value::Year(year) => put_number(out, u64::from(year)),
        Value::Bits(_) => put_bits(out, &mut scratch.text, &value),
        Value::Timestamp(time) => put_timestamp(out, &mut scratch.clock, &time, style),
        Value::Enum(number) => put_enum(out, scratch, enum_text(map, column, number), number),
        Value::Set(bits) => put_set(out, scratch, map, column, bits),
        Value::Text(text) | Value::Blob(text) => {
            put_characters(out, scratch, text, column.column.set)
        }
        Value::Json(document) => put_json(out, scratch, document),
        Value::Geometry(bytes) => put_bytes(out, bytes),
        Value::Unknown(bytes) => put_unknown(out, bytes),
    }
}

/// Appends a value behind a comma. NULL is an empty field.
pub(crate) fn put_cell<'a, A: Allocator, B: Allocator>(
    out: &mut Vec<u8, A>,
    scratch: &mut Scratch<A>,
    map: &LastMap<'a, B>,
    column: &ShownColumn<'a>,
    value: Option<&[u8]>,
    style: &RowStyle<'_>,
) -> Result<(), AllocError> {
    put_text(out, b",")?;
    match value {
        Some(bytes) => put_present(out, scratch, map, column, bytes, style),
        None => Ok(()),
    }
}
