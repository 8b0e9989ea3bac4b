//! How the columns of a table are stored, looked up once for the images of an event.

ghost use Rattle.std.specs.Prelude.{◌≡◌, ◌<◌, ◌≤◌, ◌+◌, ◌*◌, ◌/◌, ◌%◌, ◌^◌, true, Some, length, take, drop, IfSome};
ghost use Rattle.std.specs.List.{list_all};
ghost use Rattle.byteorder.specs.Endian.{little_number};
ghost use Rattle.blog_row.specs.Column.{Layout, Counted, columns_of, is_column, value_stored};
ghost use Rattle.blog_row.specs.Image.{image_len_of};
ghost use Rattle.blog_row.specs.code.PositionView.{EndsAt, behind_from, from_position};
ghost use Rattle.blog_row.specs.code.StorageView.{AreStored, prefix_seen, storage_seen};

use crate::column::{Prefix, Storage};
use crate::image::{cut_at, stored_end};
use crate::layout::column_at;
use byteorder::{ByteOrder, LittleEndian};

/// The fewest columns for which `Rows` and `StoredLayout` look up storages. With fewer, types and metadata take no longer.
pub(crate) const LEAST_STORAGES: usize = 4;

/// The most columns of a narrow table: its images are walked with a jump over each NULL. With more, masks are faster if null
/// bits are irregular.
pub(crate) const FEW_STORAGES: usize = 6;

/// The most columns whose storages take little room, 256 bytes. They are looked up where images are read one by one, too.
pub(crate) const MOST_STORAGES: usize = 64;

/// The most columns of a wide table whose storages take 2 KB of room in place of 16 KB, which would have to be set for a few
/// images.
pub(crate) const WIDE_STORAGES: usize = 512;

/// The most columns that a table can have.
pub(crate) const ALL_STORAGES: usize = 4096;

/// The byte of null bits whose eight columns are all NULL.
const ALL_NULL: u8 = 0xFF;

/// Looks up how each column is stored. The storages behind those of the columns mean nothing.
#[inline(always)]
pub(crate) fn look_up(kinds: &[u8], metadata: &[u8], storages: &mut [Storage])
    requires few { length kinds.now ≤ length storages.old }
    requires known { list_all is_column (columns_of kinds.now metadata.now) ≡ true }
    ensures stored { AreStored (columns_of kinds.now metadata.now) (take (length kinds.now) storages.new) }
    ensures long { length storages.new ≡ length storages.old }
{
    let mut left = metadata;
    for i in 0..kinds.len() {
        let (storage, others) = column_at(kinds, i, left);
        storages[i] = storage;
        left = others;
    }
}

/// A number where a value is there, by its null bit, and 0 where it is NULL. No branch depends on the null bit, since a
/// processor can't predict irregular ones.
#[inline(always)]
pub(crate) fn if_there(number: u32, null: u8) -> u32
    requires bit { null ≤ 1 }
    ensures there { null ≡ 0 → result ≡ number }
    ensures absent { null ≡ 1 → result ≡ 0 }
{
    number & u32::from(null).wrapping_sub(1)
}

/// The length with which the bytes begin, the lowest byte first. It may have fewer bytes than are loaded.
#[inline(always)]
fn length_at(prefix: Prefix, bytes: &[u8]) -> u32
    requires long { 4 ≤ length bytes.now }
    ensures { result ≡ little_number (prefix_seen prefix) bytes.now }
{
    LittleEndian::read_u32(bytes) & prefix.mask()
}

/// Where a value ends that begins with its length at `at`, if fewer than four bytes are left there. The end of a value
/// that isn't there is past the bytes.
#[inline(never)]
fn last_counted_end(prefix: Prefix, at: usize, bytes: &[u8]) -> usize
    requires last { length bytes.now < at + 4 }
    ensures end { EndsAt (value_stored (Counted (prefix_seen prefix))) at bytes.now (Some result) }
    ensures near { result ≤ at + 4 }
{
    match stored_end(Storage::Counted(prefix), at, bytes) {
        Some(end) if end <= bytes.len() => end,
        _ => bytes.len() + 1,
    }
}

/// Where a value behind its length ends that begins at a position, and that position where it is NULL. Where the next
/// value begins is known without a length then: texts that are NULL in most rows are passed quickly.
#[inline(always)]
fn counted_end(prefix: Prefix, null: u8, at: usize, bytes: &[u8]) -> usize
    requires bit { null ≤ 1 }
    requires low { at < 2 ^ 62 }
    ensures there { null ≡ 0 → EndsAt (value_stored (Counted (prefix_seen prefix))) at bytes.now (Some result) }
    ensures absent { null ≡ 1 → result ≡ at }
    ensures near { result ≤ at + 2 ^ 33 }
{
    if null != 0 {
        return at;
    }
    if bytes.len() < at + 4 {
        return last_counted_end(prefix, at, bytes);
    }
    at + prefix.bytes() + length_at(prefix, &bytes[at..]) as usize
}

/// Where the value of a column ends that begins at a position, and that position where it is NULL, by its null bit. The
/// end of a value that isn't there is past the bytes. A NULL is jumped over where null bits are steady.
#[inline(always)]
fn value_end<const STEADY: bool>(storage: Storage, null: u8, at: usize, bytes: &[u8]) -> usize
    requires bit { null ≤ 1 }
    requires low { at < 2 ^ 62 }
    ensures there { null ≡ 0 → EndsAt (value_stored (storage_seen storage)) at bytes.now (Some result) }
    ensures absent { null ≡ 1 → result ≡ at }
    ensures near { result ≤ at + 2 ^ 33 }
{
    if STEADY && null != 0 {
        return at;
    }
    match storage {
        Storage::Fixed(width) => at + if_there(u32::from(width), null) as usize,
        Storage::Counted(prefix) => counted_end(prefix, null, at, bytes),
    }
}

/// Where the values of the next columns end, `count` of them from column `from` on, whose null bits are in one byte.
/// Each has less than 2^33 bytes, so that no addition has to be checked.
#[inline(always)]
fn columns_end<const STEADY: bool>(
    storages: &[Storage],
    from: usize,
    count: usize,
    nulls: &[u8],
    at: usize,
    bytes: &[u8],
) -> usize
    requires whole { from % 8 ≡ 0 }
    requires few { count ≤ 8 }
    requires below { from + count ≤ length storages.now }
    requires there { from / 8 < length nulls.now }
    requires low { at < 2 ^ 61 }
    ensures behind { (columns : Layout) → AreStored columns (drop from storages.now) → behind_from columns nulls.now from at bytes.now ≡ behind_from (drop count columns) nulls.now (from + count) result bytes.now }
    ensures near { result ≤ at + count * 2 ^ 33 }
{
    let bits = nulls[from / 8];
    let mut end = at;
    for k in 0..count {
        let null = (bits >> k) % 2;
        end = value_end::<STEADY>(storages[from + k], null, end, bytes);
    }
    end
}

/// Where the values of columns end that begin at a position, by their null bits, eight columns at a time. Where a value
/// isn't there, that is past the bytes; it is looked for no further then.
#[inline(always)]
fn values_end_as<const STEADY: bool>(
    storages: &[Storage],
    nulls: &[u8],
    at: usize,
    bytes: &[u8],
) -> usize
    requires long { length storages.now ≤ 8 * length nulls.now }
    requires few { length storages.now ≤ 4096 }
    requires low { at ≤ 512 }
    ensures { (columns : Layout) → AreStored columns storages.now → behind_from columns nulls.now 0 at bytes.now ≡ from_position result bytes.now }
{
    let mut end = at;
    let mut from = 0;
    'columns: while storages.len() - from >= 8 {
        // Eight NULLs take no bytes, so that sparse rows of wide tables are passed quickly.
        if nulls[from / 8] != ALL_NULL {
            end = columns_end::<STEADY>(storages, from, 8, nulls, end, bytes);
            if bytes.len() < end {
                return end;
            }
        }
        from += 8;
    }
    if from < storages.len() {
        end = columns_end::<STEADY>(storages, from, storages.len() - from, nulls, end, bytes);
    }
    end
}

/// The same, faster where null bits are steady, if `steady` says that they are.
#[inline(always)]
fn values_end(storages: &[Storage], steady: bool, nulls: &[u8], at: usize, bytes: &[u8]) -> usize
    requires long { length storages.now ≤ 8 * length nulls.now }
    requires few { length storages.now ≤ 4096 }
    requires low { at ≤ 512 }
    ensures { (columns : Layout) → AreStored columns storages.now → behind_from columns nulls.now 0 at bytes.now ≡ from_position result bytes.now }
{
    if steady {
        values_end_as::<true>(storages, nulls, at, bytes)
    } else {
        values_end_as::<false>(storages, nulls, at, bytes)
    }
}

/// How long the image is with which the bytes begin, in bytes; None where they begin with none. Its columns are stored
/// so.
#[inline(always)]
pub(crate) fn len_by(storages: &[Storage], steady: bool, bytes: &[u8]) -> Option<usize>
    requires few { length storages.now ≤ 4096 }
    ensures exact { (columns : Layout) → AreStored columns storages.now → result ≡ image_len_of columns bytes.now }
    ensures within { IfSome result (λ m. m ≤ length bytes.now) }
{
    let count = storages.len().div_ceil(8);
    let (nulls, _) = cut_at(count, bytes)?;
    let end = values_end(storages, steady, nulls, count, bytes);
    if end <= bytes.len() { Some(end) } else { None }
}

/// The same of a few columns, whose null bits are in one byte. For so few a processor predicts irregular null bits, too, so
/// each NULL is jumped over.
#[inline(always)]
pub(crate) fn few_len_by(storages: &[Storage], bytes: &[u8]) -> Option<usize>
    requires some { 0 < length storages.now }
    requires few { length storages.now ≤ 8 }
    ensures exact { (columns : Layout) → AreStored columns storages.now → result ≡ image_len_of columns bytes.now }
    ensures within { IfSome result (λ m. m ≤ length bytes.now) }
{
    let (nulls, _) = cut_at(1, bytes)?;
    let end = columns_end::<true>(storages, 0, storages.len(), nulls, 1, bytes);
    if end <= bytes.len() { Some(end) } else { None }
}
