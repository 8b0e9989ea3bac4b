//! Parts of an image: null bits, and the values behind them.

ghost use Rattle.std.specs.Prelude.{◌≡◌, ◌<◌, ◌≤◌, ◌*◌, true, false, length, option_map, unwrap_or, IfSome};
ghost use Rattle.byteorder.specs.Endian.{little_number};
ghost use Rattle.blog_row.specs.Checks.{cut, cut_seen};
ghost use Rattle.blog_row.specs.Column.{value_stored};
ghost use Rattle.blog_row.specs.Image.{is_marked};
ghost use Rattle.blog_row.specs.code.PositionView.{EndsAt};
ghost use Rattle.blog_row.specs.code.StorageView.{prefix_seen, storage_seen};
ghost use Rattle.blog_row.specs.code.ImageView.{AreNull};

use crate::column::{Prefix, Storage};
use byteorder::{ByteOrder, LittleEndian};

/// The first bytes, so many of them, and those behind them.
#[inline(always)]
pub(crate) fn cut_at(len: usize, bytes: &[u8]) -> Option<(&[u8], &[u8])>
    ensures { option_map cut_seen result ≡ cut len bytes.now }
{
    if len <= bytes.len() {
        Some(bytes.split_at(len))
    } else {
        None
    }
}

/// Whether a bit of a bitmap is set, the lowest bit of a byte first.
#[inline(always)]
pub(crate) fn is_set(bitmap: &[u8], i: usize) -> bool
    requires { i < 8 * length bitmap.now }
    ensures { result ≡ is_marked bitmap.now i }
{
    (bitmap[i / 8] >> (i % 8)) % 2 == 1
}

/// The length that its bytes spell, the lowest first.
#[inline(always)]
fn length_of(prefix: Prefix, count: &[u8]) -> usize
    requires { prefix_seen prefix ≤ length count.now }
    ensures { result ≡ little_number (prefix_seen prefix) count.now }
{
    match prefix {
        Prefix::One => usize::from(count[0]),
        Prefix::Two => usize::from(LittleEndian::read_u16(count)),
        Prefix::Three => LittleEndian::read_u24(count) as usize,
        Prefix::Four => LittleEndian::read_u32(count) as usize,
    }
}

/// The value that is stored at the front, and the bytes behind it.
#[inline(always)]
pub(crate) fn stored_at(storage: Storage, bytes: &[u8]) -> Option<(&[u8], &[u8])>
    ensures { option_map cut_seen result ≡ value_stored (storage_seen storage) bytes.now }
{
    match storage {
        Storage::Fixed(width) => cut_at(usize::from(width), bytes),
        Storage::Counted(prefix) => {
            let (count, behind) = cut_at(prefix.bytes(), bytes)?;
            cut_at(length_of(prefix, count), behind)
        }
    }
}

/// Where the value ends that is stored from a position on, which may be past the bytes. The greatest number is past all
/// bytes, so no addition has to be checked.
#[inline(always)]
pub(crate) fn stored_end(storage: Storage, at: usize, bytes: &[u8]) -> Option<usize>
    ensures { EndsAt (value_stored (storage_seen storage)) at bytes.now result }
{
    match storage {
        Storage::Fixed(width) => Some(at.saturating_add(usize::from(width))),
        Storage::Counted(prefix) => {
            let (_, rest) = cut_at(at, bytes)?;
            let (count, _) = cut_at(prefix.bytes(), rest)?;
            Some((at + prefix.bytes()).saturating_add(length_of(prefix, count)))
        }
    }
}

/// The first column from `from` on that is not NULL, if there is one below `columns`. Eight columns are passed over at
/// once where they are all NULL.
#[inline(always)]
pub(crate) fn next_value(nulls: &[u8], from: usize, columns: usize) -> Option<usize>
    requires long { columns ≤ 8 * length nulls.now }
    ensures nulls { AreNull nulls.now from (unwrap_or result columns) }
    ensures value { IfSome result (λ i. (from ≤ i) × (i < columns) × (is_marked nulls.now i ≡ false)) }
{
    let mut i = from;
    while i < columns {
        if !is_set(nulls, i) {
            return Some(i);
        }
        let eight = i % 8 == 0 && 8 <= columns - i && nulls[i / 8] == 255;
        i += if eight { 8 } else { 1 };
    }
    None
}
