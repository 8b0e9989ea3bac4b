//! MySQL's names of column types (MySQL Internals manual, "Table_map_event").

/// An integer of one byte.
pub(crate) const MYSQL_TYPE_TINY: u8 = 1;
/// An integer of two bytes.
pub(crate) const MYSQL_TYPE_SHORT: u8 = 2;
/// An integer of four bytes.
pub(crate) const MYSQL_TYPE_LONG: u8 = 3;
/// A float of four bytes.
pub(crate) const MYSQL_TYPE_FLOAT: u8 = 4;
/// A float of eight bytes.
pub(crate) const MYSQL_TYPE_DOUBLE: u8 = 5;
/// Seconds since 1970, in the format before MySQL 5.6.
pub(crate) const MYSQL_TYPE_TIMESTAMP: u8 = 7;
/// An integer of eight bytes.
pub(crate) const MYSQL_TYPE_LONGLONG: u8 = 8;
/// An integer of three bytes.
pub(crate) const MYSQL_TYPE_INT24: u8 = 9;
/// A date.
pub(crate) const MYSQL_TYPE_DATE: u8 = 10;
/// A time, in the format before MySQL 5.6.
pub(crate) const MYSQL_TYPE_TIME: u8 = 11;
/// A date with a time, in the format before MySQL 5.6.
pub(crate) const MYSQL_TYPE_DATETIME: u8 = 12;
/// A year.
pub(crate) const MYSQL_TYPE_YEAR: u8 = 13;
/// Text or bytes of a VARCHAR or VARBINARY column.
pub(crate) const MYSQL_TYPE_VARCHAR: u8 = 15;
/// Bits. The metadata is how many are left over, and how many whole bytes there are.
pub(crate) const MYSQL_TYPE_BIT: u8 = 16;
/// Seconds since 1970. The metadata is how many digits of a fraction there are.
pub(crate) const MYSQL_TYPE_TIMESTAMP2: u8 = 17;
/// A date with a time. The metadata is how many digits of a fraction there are.
pub(crate) const MYSQL_TYPE_DATETIME2: u8 = 18;
/// A time. The metadata is how many digits of a fraction there are.
pub(crate) const MYSQL_TYPE_TIME2: u8 = 19;
/// A JSON document.
pub(crate) const MYSQL_TYPE_JSON: u8 = 245;
/// A decimal. The metadata is how many digits there are, and how many of them are behind the point.
pub(crate) const MYSQL_TYPE_NEWDECIMAL: u8 = 246;
/// One of listed texts, as the real type of a STRING column.
pub(crate) const MYSQL_TYPE_ENUM: u8 = 247;
/// Some of listed texts, as the real type of a STRING column.
pub(crate) const MYSQL_TYPE_SET: u8 = 248;
/// Bytes of a BLOB column, or text of a TEXT column.
pub(crate) const MYSQL_TYPE_BLOB: u8 = 252;
/// Text or bytes of a CHAR or BINARY column, an ENUM, or a SET. The metadata is the real type, and a length in bytes.
pub(crate) const MYSQL_TYPE_STRING: u8 = 254;
/// A geometry.
pub(crate) const MYSQL_TYPE_GEOMETRY: u8 = 255;
