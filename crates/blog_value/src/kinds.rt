//! What kind of values a column has.

ghost use Rattle.std.specs.Prelude.{◌≡◌};
ghost use Rattle.blog_value.specs.Kinds.{byte_kind, kind_of, pair_kind, plain_kind, string_kind};

use crate::constants::{
    MYSQL_TYPE_BIT, MYSQL_TYPE_BLOB, MYSQL_TYPE_DATE, MYSQL_TYPE_DATETIME, MYSQL_TYPE_DATETIME2,
    MYSQL_TYPE_DOUBLE, MYSQL_TYPE_ENUM, MYSQL_TYPE_FLOAT, MYSQL_TYPE_GEOMETRY, MYSQL_TYPE_INT24,
    MYSQL_TYPE_JSON, MYSQL_TYPE_LONG, MYSQL_TYPE_LONGLONG, MYSQL_TYPE_NEWDECIMAL, MYSQL_TYPE_SET,
    MYSQL_TYPE_SHORT, MYSQL_TYPE_STRING, MYSQL_TYPE_TIME, MYSQL_TYPE_TIME2, MYSQL_TYPE_TIMESTAMP,
    MYSQL_TYPE_TIMESTAMP2, MYSQL_TYPE_TINY, MYSQL_TYPE_VARCHAR, MYSQL_TYPE_YEAR,
};

/// A column of a table map (MySQL Internals manual, "Table_map_event").
#[derive(Clone, Copy, Debug, PartialEq, Eq)]
pub struct ColumnType<'a> {
    /// The type.
    pub kind: u8,
    /// The bytes of metadata.
    pub metadata: &'a [u8],
}

/// What the values of a column are.
#[derive(Clone, Copy, Debug)]
pub(crate) enum Kind {
    /// Integers of that many bytes.
    Integer(u8),
    /// Decimals of that many digits, and how many of them are behind the point.
    Decimal(u8, u8),
    /// Floats of four bytes.
    Float,
    /// Floats of eight bytes.
    Double,
    /// Years.
    Year,
    /// Dates.
    Date,
    /// Times in the format before MySQL 5.6.
    OldTime,
    /// Dates with times in the format before MySQL 5.6.
    OldDateTime,
    /// Points in time in the format before MySQL 5.6.
    OldTimestamp,
    /// Times with that many digits of a fraction.
    Time(u8),
    /// Dates with times with that many digits of a fraction.
    DateTime(u8),
    /// Points in time with that many digits of a fraction.
    Timestamp(u8),
    /// That many bits.
    Bits(u16),
    /// One of listed texts, by its number in that many bytes.
    Enum(u8),
    /// Some of listed texts, by their bits in that many bytes.
    Set(u8),
    /// Text or bytes.
    Text,
    /// Bytes or long text.
    Blob,
    /// JSON documents.
    Json,
    /// Geometries.
    Geometry,
    /// Something else.
    Other,
}

/// Returns the kind of a type whose values don't depend on metadata.
#[tactic(auto, unfolding(crate::specs::Kinds::plain_kind))]
fn plain_kind(kind: u8) -> Kind
    ensures { result ≡ plain_kind kind }
{
    match kind {
        MYSQL_TYPE_TINY => Kind::Integer(1),
        MYSQL_TYPE_SHORT => Kind::Integer(2),
        MYSQL_TYPE_LONG => Kind::Integer(4),
        MYSQL_TYPE_FLOAT => Kind::Float,
        MYSQL_TYPE_DOUBLE => Kind::Double,
        MYSQL_TYPE_TIMESTAMP => Kind::OldTimestamp,
        MYSQL_TYPE_LONGLONG => Kind::Integer(8),
        MYSQL_TYPE_INT24 => Kind::Integer(3),
        MYSQL_TYPE_DATE => Kind::Date,
        MYSQL_TYPE_TIME => Kind::OldTime,
        MYSQL_TYPE_DATETIME => Kind::OldDateTime,
        MYSQL_TYPE_YEAR => Kind::Year,
        MYSQL_TYPE_VARCHAR => Kind::Text,
        MYSQL_TYPE_JSON => Kind::Json,
        MYSQL_TYPE_BLOB => Kind::Blob,
        MYSQL_TYPE_GEOMETRY => Kind::Geometry,
        _ => Kind::Other,
    }
}

/// Returns the kind of a type with one byte of metadata.
#[tactic(auto, unfolding(crate::specs::Kinds::byte_kind))]
fn byte_kind(kind: u8, digits: u8) -> Kind
    ensures { result ≡ byte_kind kind digits }
{
    match kind {
        MYSQL_TYPE_TIMESTAMP2 => Kind::Timestamp(digits),
        MYSQL_TYPE_DATETIME2 => Kind::DateTime(digits),
        MYSQL_TYPE_TIME2 => Kind::Time(digits),
        _ => plain_kind(kind),
    }
}

/// Returns the kind of a STRING column, by its real type.
fn string_kind(real: u8, width: u8) -> Kind
    ensures { result ≡ string_kind real width }
{
    match real {
        MYSQL_TYPE_ENUM => Kind::Enum(width),
        MYSQL_TYPE_SET => Kind::Set(width),
        _ => Kind::Text,
    }
}

/// Returns the kind of a type with two bytes of metadata.
#[tactic(auto, unfolding(crate::specs::Kinds::pair_kind))]
fn pair_kind(kind: u8, first: u8, second: u8) -> Kind
    ensures { result ≡ pair_kind kind first second }
{
    match kind {
        MYSQL_TYPE_BIT => Kind::Bits(8 * u16::from(second) + u16::from(first)),
        MYSQL_TYPE_NEWDECIMAL => Kind::Decimal(first, second),
        MYSQL_TYPE_STRING => string_kind(first, second),
        _ => plain_kind(kind),
    }
}

/// Returns the kind of a column.
#[tactic(auto, unfolding(crate::specs::Kinds::kind_of))]
pub(crate) fn kind_of(column: &ColumnType<'_>) -> Kind
    ensures { result ≡ kind_of column.now.kind column.now.metadata.now }
{
    match column.metadata {
        [digits] => byte_kind(column.kind, *digits),
        [first, second] => pair_kind(column.kind, *first, *second),
        _ => plain_kind(column.kind),
    }
}
