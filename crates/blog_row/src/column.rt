//! How the value of a column is stored.

ghost use Rattle.std.specs.Prelude.{◌≡◌, ◌≤◌, ◌==◌, ◌^◌, ◌-◌, [], ◌∷◌, option_map};
ghost use Rattle.blog_row.specs.Column.{Fixed, when, with_fraction, counted_in, counted_up_to, decimal_storage, string_storage, storage_by};
ghost use Rattle.blog_row.specs.code.StorageView.{prefix_seen, storage_seen};

use crate::constants::{
    MYSQL_TYPE_BIT, MYSQL_TYPE_BLOB, MYSQL_TYPE_DATE, MYSQL_TYPE_DATETIME, MYSQL_TYPE_DATETIME2,
    MYSQL_TYPE_DOUBLE, MYSQL_TYPE_ENUM, MYSQL_TYPE_FLOAT, MYSQL_TYPE_GEOMETRY, MYSQL_TYPE_INT24,
    MYSQL_TYPE_JSON, MYSQL_TYPE_LONG, MYSQL_TYPE_LONGLONG, MYSQL_TYPE_NEWDECIMAL, MYSQL_TYPE_SET,
    MYSQL_TYPE_SHORT, MYSQL_TYPE_STRING, MYSQL_TYPE_TIME, MYSQL_TYPE_TIME2, MYSQL_TYPE_TIMESTAMP,
    MYSQL_TYPE_TIMESTAMP2, MYSQL_TYPE_TINY, MYSQL_TYPE_VARCHAR, MYSQL_TYPE_YEAR,
};
use crate::type_tables::digits_bytes;

/// How many bytes the length in front of a value has.
#[derive(Clone, Copy, Debug)]
pub(crate) enum Prefix {
    /// One byte.
    One = 1,
    /// Two bytes, the lower first.
    Two = 2,
    /// Three bytes, the lowest first.
    Three = 3,
    /// Four bytes, the lowest first.
    Four = 4,
}

/// The bits that a length of 0 to 4 bytes takes in a little-endian number of four bytes.
static LENGTH_BITS: [u32; 5] = [0, 0xFF, 0xFFFF, 0xFF_FFFF, 0xFFFF_FFFF];

impl Prefix {
    /// The bytes of the length.
    #[inline(always)]
    pub(crate) fn bytes(self) -> usize
        ensures { result ≡ prefix_seen self }
    {
        self as usize
    }

    /// The bits of the length in a number of four bytes that begins with it.
    #[inline(always)]
    pub(crate) fn mask(self) -> u32
        ensures { result ≡ 256 ^ prefix_seen self - 1 }
    {
        LENGTH_BITS[self as usize]
    }
}

/// How a value is stored.
#[derive(Clone, Copy, Debug)]
pub(crate) enum Storage {
    /// In so many bytes.
    Fixed(u16),
    /// Behind its length in bytes.
    Counted(Prefix),
}

/// The bytes of a length up to the greatest length.
#[inline(always)]
fn prefix_up_to(greatest: usize) -> Storage
    ensures { storage_seen result ≡ counted_up_to greatest }
{
    if greatest <= 255 {
        Storage::Counted(Prefix::One)
    } else {
        Storage::Counted(Prefix::Two)
    }
}

/// A value behind a length of so many bytes, where that is allowed.
#[inline(always)]
fn counted(prefix: u8) -> Option<Storage>
    ensures { option_map storage_seen result ≡ counted_in prefix }
{
    match prefix {
        1 => Some(Storage::Counted(Prefix::One)),
        2 => Some(Storage::Counted(Prefix::Two)),
        3 => Some(Storage::Counted(Prefix::Three)),
        4 => Some(Storage::Counted(Prefix::Four)),
        _ => None,
    }
}

/// A value of so many bytes, where the metadata repeats how many.
#[inline(always)]
fn repeated(width: u8, metadata: u8) -> Option<Storage>
    ensures { option_map storage_seen result ≡ when (metadata == width) (Fixed width) }
{
    if metadata == width {
        Some(Storage::Fixed(u16::from(width)))
    } else {
        None
    }
}

/// Whole seconds in so many bytes, and a fraction of at most six decimal digits, two in a byte.
#[inline(always)]
fn with_fraction(seconds: u16, digits: u8) -> Option<Storage>
    requires { seconds ≤ 8 }
    ensures { option_map storage_seen result ≡ with_fraction seconds digits }
{
    if digits <= 6 {
        Some(Storage::Fixed(seconds + (u16::from(digits) + 1) / 2))
    } else {
        None
    }
}

/// The storage of a type that has no metadata.
#[inline(always)]
#[tactic(auto, unfolding(crate::specs::Column::storage_by, crate::specs::Column::column_types))]
fn plain(kind: u8) -> Option<Storage>
    ensures { option_map storage_seen result ≡ storage_by kind [] }
{
    match kind {
        MYSQL_TYPE_TINY | MYSQL_TYPE_YEAR => Some(Storage::Fixed(1)),
        MYSQL_TYPE_SHORT => Some(Storage::Fixed(2)),
        MYSQL_TYPE_INT24 | MYSQL_TYPE_DATE | MYSQL_TYPE_TIME => Some(Storage::Fixed(3)),
        MYSQL_TYPE_LONG | MYSQL_TYPE_TIMESTAMP => Some(Storage::Fixed(4)),
        MYSQL_TYPE_LONGLONG | MYSQL_TYPE_DATETIME => Some(Storage::Fixed(8)),
        _ => None,
    }
}

/// The storage of a type that has one byte of metadata.
#[inline(always)]
#[tactic(auto, unfolding(crate::specs::Column::storage_by, crate::specs::Column::column_types))]
fn of_byte(kind: u8, metadata: u8) -> Option<Storage>
    ensures { option_map storage_seen result ≡ storage_by kind (metadata ∷ []) }
{
    match kind {
        MYSQL_TYPE_FLOAT => repeated(4, metadata),
        MYSQL_TYPE_DOUBLE => repeated(8, metadata),
        MYSQL_TYPE_TIMESTAMP2 => with_fraction(4, metadata),
        MYSQL_TYPE_DATETIME2 => with_fraction(5, metadata),
        MYSQL_TYPE_TIME2 => with_fraction(3, metadata),
        MYSQL_TYPE_JSON | MYSQL_TYPE_BLOB | MYSQL_TYPE_GEOMETRY => counted(metadata),
        _ => None,
    }
}

/// The storage of a decimal of so many digits, of which `scale` stand behind the point.
#[inline(always)]
fn decimal(digits: u8, scale: u8) -> Option<Storage>
    ensures { option_map storage_seen result ≡ decimal_storage digits scale }
{
    if scale <= digits {
        Some(Storage::Fixed(digits_bytes(digits - scale) + digits_bytes(scale)))
    } else {
        None
    }
}

/// The storage of a STRING column: an ENUM or a SET of so many bytes, or text up to a greatest length.
#[inline(always)]
fn string(real: u8, low: u8) -> Storage
    ensures { storage_seen result ≡ string_storage real low }
{
    match real {
        MYSQL_TYPE_ENUM | MYSQL_TYPE_SET => Storage::Fixed(u16::from(low)),
        _ => {
            let high = (real / 16 & 3) ^ 3;
            prefix_up_to(usize::from(low) + 256 * usize::from(high))
        }
    }
}

/// The storage of a type that has two bytes of metadata.
#[inline(always)]
#[tactic(auto, unfolding(crate::specs::Column::storage_by, crate::specs::Column::column_types))]
fn of_pair(kind: u8, first: u8, second: u8) -> Option<Storage>
    ensures { option_map storage_seen result ≡ storage_by kind (first ∷ second ∷ []) }
{
    match kind {
        MYSQL_TYPE_VARCHAR => Some(prefix_up_to(usize::from(first) + 256 * usize::from(second))),
        MYSQL_TYPE_BIT => {
            let over = if first == 0 { 0 } else { 1 };
            Some(Storage::Fixed(u16::from(second) + over))
        }
        MYSQL_TYPE_NEWDECIMAL => decimal(first, second),
        MYSQL_TYPE_STRING => Some(string(first, second)),
        _ => None,
    }
}

/// How a column is stored, where its type and its metadata are allowed
/// (MySQL Internals manual, "Table_map_event", and MySQL's field.cc on the metadata of each type).
#[inline(always)]
#[tactic(auto, using(crate::proofs::ColumnTypes::stored_by_none, crate::proofs::ColumnTypes::stored_by_byte, crate::proofs::ColumnTypes::stored_by_pair, crate::proofs::ColumnTypes::stored_by_more))]
pub(crate) fn stored_as(kind: u8, metadata: &[u8]) -> Option<Storage>
    ensures { option_map storage_seen result ≡ storage_by kind metadata.now }
{
    match metadata.len() {
        0 => plain(kind),
        1 => of_byte(kind, metadata[0]),
        2 => of_pair(kind, metadata[0], metadata[1]),
        _ => None,
    }
}
