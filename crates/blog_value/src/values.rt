//! Values of columns.

ghost use Rattle.std.specs.Prelude.{◌≡◌, IfOk, option_map};
ghost use Rattle.blog_value.specs.Values.{AppendsValue, meaning_in, meaning_of};
ghost use Rattle.blog_value.specs.code.ValueView.{value_meaning};

use crate::bit_values::{Bits, put_bits, read_bits};
use crate::dates::{Date, put_date, put_year, read_date, read_year};
use crate::datetimes::{
    DateTime, Timestamp, put_datetime, read_datetime, read_old_datetime, read_old_timestamp,
    read_timestamp,
};
use crate::decimal_texts::put_decimal;
use crate::decimals::Decimal;
use crate::floats::{put_double, put_float, read_double, read_float};
use crate::integers::{put_signed, put_unsigned, read_signed, read_unsigned};
use crate::kinds::{ColumnType, Kind, kind_of};
use crate::times::{Time, put_time, read_old_time, read_time};
use std::alloc::{AllocError, Allocator};

/// A value of a column that isn't NULL.
#[derive(Clone, Copy, Debug, PartialEq)]
pub enum Value<'a> {
    /// An integer of a column with a sign.
    Signed(i64),
    /// An integer of an unsigned column.
    Unsigned(u64),
    /// A DECIMAL.
    Decimal(Decimal<'a>),
    /// A FLOAT. It is finite.
    Float(f32),
    /// A DOUBLE. It is finite.
    Double(f64),
    /// A YEAR: 0, or from 1901 to 2155.
    Year(u16),
    /// A DATE.
    Date(Date),
    /// A TIME.
    Time(Time),
    /// A DATETIME.
    DateTime(DateTime),
    /// A TIMESTAMP.
    Timestamp(Timestamp),
    /// The bits of a BIT column.
    Bits(Bits),
    /// The number of an ENUM's text, from 1. 0 is the text for values that aren't allowed.
    Enum(u64),
    /// The texts of a SET, the lowest bit for the first text.
    Set(u64),
    /// Text or bytes of a CHAR, VARCHAR, BINARY or VARBINARY column.
    Text(&'a [u8]),
    /// Bytes of a BLOB column, or text of a TEXT column.
    Blob(&'a [u8]),
    /// A JSON document in MySQL's binary format.
    Json(&'a [u8]),
    /// A geometry.
    Geometry(&'a [u8]),
    /// Bytes that aren't what the column's type says, or a type that isn't known.
    Unknown(&'a [u8]),
}

/// Returns the value that bytes spell in a column of a kind, if they are one.
#[tactic(auto, unfolding(crate::specs::Values::meaning_in))]
fn value_in<'a>(kind: Kind, unsigned: bool, bytes: &'a [u8]) -> Option<Value<'a>>
    ensures { option_map value_meaning result ≡ meaning_in kind unsigned bytes.now }
{
    match kind {
        Kind::Integer(width) if unsigned => {
            Some(Value::Unsigned(read_unsigned(usize::from(width), bytes)?))
        }
        Kind::Integer(width) => Some(Value::Signed(read_signed(usize::from(width), bytes)?)),
        Kind::Decimal(precision, scale) => {
            Some(Value::Decimal(Decimal::read(precision, scale, bytes)?))
        }
        Kind::Float => Some(Value::Float(read_float(bytes)?)),
        Kind::Double => Some(Value::Double(read_double(bytes)?)),
        Kind::Year => Some(Value::Year(read_year(bytes)?)),
        Kind::Date => Some(Value::Date(read_date(bytes)?)),
        Kind::OldTime => Some(Value::Time(read_old_time(bytes)?)),
        Kind::OldDateTime => Some(Value::DateTime(read_old_datetime(bytes)?)),
        Kind::OldTimestamp => Some(Value::Timestamp(read_old_timestamp(bytes)?)),
        Kind::Time(digits) => Some(Value::Time(read_time(digits, bytes)?)),
        Kind::DateTime(digits) => Some(Value::DateTime(read_datetime(digits, bytes)?)),
        Kind::Timestamp(digits) => Some(Value::Timestamp(read_timestamp(digits, bytes)?)),
        Kind::Bits(count) => Some(Value::Bits(read_bits(usize::from(count), bytes)?)),
        Kind::Enum(width) => Some(Value::Enum(read_unsigned(usize::from(width), bytes)?)),
        Kind::Set(width) => Some(Value::Set(read_unsigned(usize::from(width), bytes)?)),
        Kind::Text => Some(Value::Text(bytes)),
        Kind::Blob => Some(Value::Blob(bytes)),
        Kind::Json => Some(Value::Json(bytes)),
        Kind::Geometry => Some(Value::Geometry(bytes)),
        Kind::Other => None,
    }
}

/// Returns the value that bytes spell in a column. `bytes` are those of a row image, without a length in front.
/// `unsigned` says whether an integer column is unsigned. The value is `Unknown` if the bytes aren't what the column's type
/// says: there are too few or too many of them, or a part is out of range, as the month of a date.
#[tactic(auto, unfolding(crate::specs::Values::meaning_of))]
pub fn read_value<'a>(column: &ColumnType<'_>, unsigned: bool, bytes: &'a [u8]) -> Value<'a>
    ensures { value_meaning result ≡ meaning_of column.now.kind column.now.metadata.now unsigned bytes.now }
{
    match value_in(kind_of(column), unsigned, bytes) {
        Some(value) => value,
        None => Value::Unknown(bytes),
    }
}

/// Appends the text of a value, as MySQL shows it, and returns true. Appends nothing and returns false if the text depends
/// on more than the value: on a character set, a time zone, or the texts of an ENUM or a SET.
pub fn put_value<A: Allocator>(out: &mut Vec<u8, A>, value: &Value<'_>) -> Result<bool, AllocError>
    ensures { IfOk result (λ appended. AppendsValue (value_meaning value.now) appended out.old.items out.new.items) }
{
    match value {
        Value::Signed(n) => put_signed(out, *n)?,
        Value::Unsigned(n) => put_unsigned(out, *n)?,
        Value::Decimal(decimal) => put_decimal(out, decimal)?,
        Value::Float(x) => put_float(out, *x)?,
        Value::Double(x) => put_double(out, *x)?,
        Value::Year(year) => put_year(out, *year)?,
        Value::Date(date) => put_date(out, date)?,
        Value::Time(time) => put_time(out, time)?,
        Value::DateTime(datetime) => put_datetime(out, datetime)?,
        Value::Bits(bits) => put_bits(out, bits)?,
        _ => return Ok(false),
    }
    Ok(true)
}
