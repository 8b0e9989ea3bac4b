//! How long an image is, by the types and the metadata of its columns. Positions are those of the bytes in which it is;
//! they may lie past their end, which is looked at where a length is read, and behind the last column.

ghost use Rattle.std.specs.Prelude.{◌≡◌, ◌<◌, ◌≤◌, ◌+◌, ◌*◌, ◌∷◌, ◌%◌, ◌/◌, None, Some, length, drop, slice_index, true, IfSome, IfNone};
ghost use Rattle.std.specs.List.{list_all};
ghost use Rattle.blog_row.specs.Column.{columns_of, is_column, storage_of, value_front};
ghost use Rattle.blog_row.specs.Image.{image_len_of};
ghost use Rattle.blog_row.specs.code.LayoutReading.{column_here};
ghost use Rattle.blog_row.specs.code.PositionView.{EndsAt, behind_from, from_position};
ghost use Rattle.blog_row.specs.code.StorageView.{storage_seen};

use crate::column::Storage;
use crate::constants::MYSQL_TYPE_VARCHAR;
use crate::image::{cut_at, next_value, stored_end};
use crate::layout::stored_here;
use crate::type_tables::{own_len, plain_width};

/// The metadata behind that of the column at `i`, with which `metadata` begins.
#[inline(always)]
fn behind_own<'a>(kinds: &[u8], i: usize, metadata: &'a [u8]) -> &'a [u8]
    requires below { i < length kinds.now }
    requires known { list_all is_column (columns_of (drop i kinds.now) metadata.now) ≡ true }
    ensures columns { columns_of (drop i kinds.now) metadata.now ≡ column_here (slice_index kinds.now i) metadata.now ∷ columns_of (drop (i + 1) kinds.now) result.now }
    ensures known { list_all is_column (columns_of (drop (i + 1) kinds.now) result.now) ≡ true }
{
    let (_, others) = metadata.split_at(own_len(kinds[i]));
    others
}

/// The same as `stored_here`, once for all columns whose types are seldom.
#[inline(never)]
fn stored_by_metadata(kind: u8, metadata: &[u8]) -> Storage
    requires { is_column (column_here kind metadata.now) ≡ true }
    ensures { storage_of (column_here kind metadata.now) ≡ Some (storage_seen result) }
{
    stored_here(kind, metadata)
}

/// The same; where the type says it, the metadata is not looked at, and the most common type with metadata comes first.
#[inline(always)]
fn storage_at(kind: u8, metadata: &[u8]) -> Storage
    requires { is_column (column_here kind metadata.now) ≡ true }
    ensures { storage_of (column_here kind metadata.now) ≡ Some (storage_seen result) }
{
    match plain_width(kind) {
        Some(width) => Storage::Fixed(width),
        None if kind == MYSQL_TYPE_VARCHAR => stored_here(MYSQL_TYPE_VARCHAR, metadata),
        None => stored_by_metadata(kind, metadata),
    }
}

/// Where the value of the column at `i` ends that begins at a position; `metadata` begins with that of the column.
#[inline(always)]
fn value_end(kinds: &[u8], i: usize, metadata: &[u8], at: usize, bytes: &[u8]) -> Option<usize>
    requires below { i < length kinds.now }
    requires known { list_all is_column (columns_of (drop i kinds.now) metadata.now) ≡ true }
    ensures { EndsAt (value_front (column_here (slice_index kinds.now i) metadata.now)) at bytes.now result }
{
    stored_end(storage_at(kinds[i], metadata), at, bytes)
}

/// Where the values of the next columns end, `count` of them from column `from` on, whose null bits are in one byte; and
/// the metadata behind theirs.
#[inline(always)]
fn columns_end<'a>(
    kinds: &[u8],
    from: usize,
    count: usize,
    nulls: &[u8],
    metadata: &'a [u8],
    at: usize,
    bytes: &[u8],
) -> Option<(usize, &'a [u8])>
    requires whole { from % 8 ≡ 0 }
    requires few { count ≤ 8 }
    requires below { from + count ≤ length kinds.now }
    requires there { from / 8 < length nulls.now }
    requires known { list_all is_column (columns_of (drop from kinds.now) metadata.now) ≡ true }
    ensures known { IfSome result (λ next. list_all is_column (columns_of (drop (from + count) kinds.now) next.1.now) ≡ true) }
    ensures some { IfSome result (λ next. behind_from (columns_of (drop from kinds.now) metadata.now) nulls.now from at bytes.now ≡ behind_from (columns_of (drop (from + count) kinds.now) next.1.now) nulls.now (from + count) next.0 bytes.now) }
    ensures none { IfNone result (behind_from (columns_of (drop from kinds.now) metadata.now) nulls.now from at bytes.now ≡ None) }
{
    let bits = nulls[from / 8];
    let mut end = at;
    let mut left = metadata;
    for k in 0..count {
        if (bits >> k) % 2 == 0 {
            end = value_end(kinds, from + k, left, end, bytes)?;
        }
        left = behind_own(kinds, from + k, left);
    }
    Some((end, left))
}

/// Where the values of all columns end that begin at a position, by their null bits, eight columns at a time.
#[inline(always)]
fn values_end(kinds: &[u8], metadata: &[u8], nulls: &[u8], at: usize, bytes: &[u8]) -> Option<usize>
    requires known { list_all is_column (columns_of kinds.now metadata.now) ≡ true }
    requires long { length kinds.now ≤ 8 * length nulls.now }
    ensures some { IfSome result (λ end. behind_from (columns_of kinds.now metadata.now) nulls.now 0 at bytes.now ≡ from_position end bytes.now) }
    ensures none { IfNone result (behind_from (columns_of kinds.now metadata.now) nulls.now 0 at bytes.now ≡ None) }
{
    let mut end = at;
    let mut left = metadata;
    let mut from = 0;
    'columns: while kinds.len() - from >= 8 {
        (end, left) = columns_end(kinds, from, 8, nulls, left, end, bytes)?;
        from += 8;
    }
    if from < kinds.len() {
        (end, _) = columns_end(kinds, from, kinds.len() - from, nulls, left, end, bytes)?;
    }
    Some(end)
}

/// How long the image is with which the bytes begin, in bytes; None where they begin with none.
#[inline(always)]
pub(crate) fn len_by_types(kinds: &[u8], metadata: &[u8], bytes: &[u8]) -> Option<usize>
    requires { list_all is_column (columns_of kinds.now metadata.now) ≡ true }
    ensures { result ≡ image_len_of (columns_of kinds.now metadata.now) bytes.now }
{
    let count = kinds.len().div_ceil(8);
    let (nulls, _) = cut_at(count, bytes)?;
    // No metadata is looked at for a row of NULL values alone.
    let Some(_) = next_value(nulls, 0, kinds.len()) else {
        return Some(count);
    };
    let end = values_end(kinds, metadata, nulls, count, bytes)?;
    if end <= bytes.len() { Some(end) } else { None }
}
