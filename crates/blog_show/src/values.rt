//! What the values of columns are, and the texts of those that depend on more than the value.

use crate::forms::RowStyle;
use crate::scratch::Clock;
use crate::tables::{LastMap, ShownColumn};
use blog_columns::{Column, Sign};
use blog_text::put_text;
use blog_value::{ColumnType, Timestamp, Value, put_fraction, put_value, read_value};
use std::alloc::{AllocError, Allocator};

/// The value of a column that these bytes are.
pub(crate) fn value_of<'b>(column: &Column<'_>, unsigned: bool, bytes: &'b [u8]) -> Value<'b> {
    let of_type = ColumnType {
        kind: column.kind,
        metadata: column.metadata,
    };
    read_value(&of_type, unsigned, bytes)
}

/// Whether the numbers of a column are known to have no sign.
pub(crate) fn is_unsigned(column: &Column<'_>) -> bool {
    column.sign == Sign::Unsigned
}

/// Appends the text of a value that says all of it.
pub(crate) fn put_plain<A: Allocator>(
    out: &mut Vec<u8, A>,
    value: &Value<'_>,
) -> Result<(), AllocError> {
    put_value(out, value)?;
    Ok(())
}

/// Appends a time since 1970 as a clock in a zone shows it.
pub(crate) fn put_timestamp<A: Allocator>(
    out: &mut Vec<u8, A>,
    clock: &mut Clock<A>,
    time: &Timestamp,
    style: &RowStyle<'_>,
) -> Result<(), AllocError> {
    if time.seconds == 0 {
        put_text(out, b"0000-00-00 00:00:00")?;
    } else {
        clock.put(out, style, time.seconds)?;
    }
    put_fraction(out, &time.fraction)
}

/// The text of a number of an ENUM, if the map has it. That of 0, for values that aren't allowed, is empty.
pub(crate) fn enum_text<'a, B: Allocator>(
    map: &LastMap<'a, B>,
    column: &ShownColumn<'a>,
    number: u64,
) -> Option<&'a [u8]> {
    match number.checked_sub(1) {
        Some(n) => map.member(column, n),
        None => Some(&[]),
    }
}

/// Puts the texts of a SET's bits in place of what is there. Returns whether the map has each of them.
pub(crate) fn put_members<'a, A: Allocator, B: Allocator>(
    scratch: &mut Vec<u8, A>,
    map: &LastMap<'a, B>,
    column: &ShownColumn<'a>,
    bits: u64,
) -> Result<bool, AllocError> {
    scratch.clear();
    let mut is_first = true;
    for n in 0..64u64 {
        if bits >> n & 1 == 1 {
            let Some(text) = map.member(column, n) else {
                return Ok(false);
            };
            if !is_first {
                put_text(scratch, b",")?;
            }
            is_first = false;
            put_text(scratch, text)?;
        }
    }
    Ok(true)
}

/// Appends the bits of a BIT, a digit for each.
pub(crate) fn put_bits<A: Allocator>(
    out: &mut Vec<u8, A>,
    scratch: &mut Vec<u8, A>,
    value: &Value<'_>,
) -> Result<(), AllocError> {
    scratch.clear();
    put_plain(scratch, value)?;
    // Its text is `b'0101'`.
    match scratch.get(2..scratch.len().saturating_sub(1)) {
        Some(digits) => put_text(out, digits),
        None => Ok(()),
    }
}
