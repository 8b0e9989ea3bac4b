//! MySQL's names of the column types that a table map may have (MySQL Internals manual, "Table_map_event").

/// A signed or unsigned integer of one byte.
pub(crate) const MYSQL_TYPE_TINY: u8 = 1;
/// An integer of two bytes.
pub(crate) const MYSQL_TYPE_SHORT: u8 = 2;
/// An integer of four bytes.
pub(crate) const MYSQL_TYPE_LONG: u8 = 3;
/// A float of four bytes; its metadata says so.
pub(crate) const MYSQL_TYPE_FLOAT: u8 = 4;
/// A float of eight bytes; its metadata says so.
pub(crate) const MYSQL_TYPE_DOUBLE: u8 = 5;
/// Seconds since 1970 in four bytes.
pub(crate) const MYSQL_TYPE_TIMESTAMP: u8 = 7;
/// An integer of eight bytes.
pub(crate) const MYSQL_TYPE_LONGLONG: u8 = 8;
/// An integer of three bytes.
pub(crate) const MYSQL_TYPE_INT24: u8 = 9;
/// A date in three bytes.
pub(crate) const MYSQL_TYPE_DATE: u8 = 10;
/// A time of day in three bytes.
pub(crate) const MYSQL_TYPE_TIME: u8 = 11;
/// A date and a time in eight bytes.
pub(crate) const MYSQL_TYPE_DATETIME: u8 = 12;
/// A year in one byte.
pub(crate) const MYSQL_TYPE_YEAR: u8 = 13;
/// Text or bytes behind their length; the metadata is the greatest length in bytes, the lowest byte first.
pub(crate) const MYSQL_TYPE_VARCHAR: u8 = 15;
/// Bits; the metadata is how many of them are over, and then how many whole bytes there are.
pub(crate) const MYSQL_TYPE_BIT: u8 = 16;
/// Seconds since 1970 in four bytes, and a fraction; the metadata is the fraction's decimal digits.
pub(crate) const MYSQL_TYPE_TIMESTAMP2: u8 = 17;
/// A date and a time in five bytes, and a fraction; the metadata is the fraction's decimal digits.
pub(crate) const MYSQL_TYPE_DATETIME2: u8 = 18;
/// A time of day in three bytes, and a fraction; the metadata is the fraction's decimal digits.
pub(crate) const MYSQL_TYPE_TIME2: u8 = 19;
/// A JSON document behind its length; the metadata is how many bytes the length has.
pub(crate) const MYSQL_TYPE_JSON: u8 = 245;
/// A decimal; the metadata is its digits, and then how many of them stand behind the point.
pub(crate) const MYSQL_TYPE_NEWDECIMAL: u8 = 246;
/// One of listed texts, as the first metadata byte of a STRING; the second is how many bytes a value has.
pub(crate) const MYSQL_TYPE_ENUM: u8 = 247;
/// Some of listed texts, as the first metadata byte of a STRING; the second is how many bytes a value has.
pub(crate) const MYSQL_TYPE_SET: u8 = 248;
/// Bytes behind their length; the metadata is how many bytes the length has.
pub(crate) const MYSQL_TYPE_BLOB: u8 = 252;
/// Text or bytes behind their length, or an ENUM or a SET; the metadata is the type, in which two bits hold
/// bits 8 and 9 of the greatest length, and then the lower bits of that length in bytes.
pub(crate) const MYSQL_TYPE_STRING: u8 = 254;
/// A geometry behind its length; the metadata is how many bytes the length has.
pub(crate) const MYSQL_TYPE_GEOMETRY: u8 = 255;
