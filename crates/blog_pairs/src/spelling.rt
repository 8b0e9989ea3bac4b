//! Values as they are spelled in an image.

ghost use Rattle.std.specs.Prelude.{◌≡◌, ◌≤◌, ◌++◌, ◌∷◌, [], length, map, OnOk};
ghost use Rattle.byteorder.specs.Endian.{little_bytes};
ghost use Rattle.blog_row.specs.Column.{counted_in, counted_up_to, storage_by, string_storage};
ghost use Rattle.blog_row.specs.code.LayoutReading.{column_here};
ghost use Rattle.blog_row.specs.code.LayoutView.{layout_columns};
ghost use Rattle.blog_row.specs.code.ValuesView.{value_bytes};
ghost use Rattle.blog_pairs.specs.Spelled.{prefix_of, prefix_stored, value_text, values_text};

use blog_row::{Layout, metadata_len};
use std::alloc::{AllocError, Allocator};

const MYSQL_TYPE_VARCHAR: u8 = 15;

const MYSQL_TYPE_JSON: u8 = 245;

const MYSQL_TYPE_ENUM: u8 = 247;

const MYSQL_TYPE_SET: u8 = 248;

const MYSQL_TYPE_BLOB: u8 = 252;

const MYSQL_TYPE_STRING: u8 = 254;

const MYSQL_TYPE_GEOMETRY: u8 = 255;

/// How many bytes a length up to the greatest one has.
fn prefix_up_to(greatest: usize) -> usize
    ensures { result ≡ prefix_stored (counted_up_to greatest) }
{
    if greatest <= 255 { 1 } else { 2 }
}

/// How many bytes the length of a STRING has; none for an ENUM or a SET.
fn prefix_of_string(real: u8, low: u8) -> usize
    ensures { result ≡ prefix_stored (string_storage real low) }
{
    match real {
        MYSQL_TYPE_ENUM | MYSQL_TYPE_SET => 0,
        _ => {
            let high = (real / 16 & 3) ^ 3;
            prefix_up_to(usize::from(low) + 256 * usize::from(high))
        }
    }
}

/// How many bytes the length has that one byte of metadata says, from one to four.
fn prefix_said(count: u8) -> usize
    ensures { result ≡ prefix_of (counted_in count) }
{
    match count {
        1..=4 => usize::from(count),
        _ => 0,
    }
}

/// How many bytes a value's length has at a type with one byte of metadata.
#[tactic(auto, unfolding(blog_row::specs::Column::storage_by, blog_row::specs::Column::column_types))]
fn prefix_by_byte(kind: u8, metadata: u8) -> usize
    ensures { result ≡ prefix_of (storage_by kind (metadata ∷ [])) }
{
    match kind {
        MYSQL_TYPE_JSON | MYSQL_TYPE_BLOB | MYSQL_TYPE_GEOMETRY => prefix_said(metadata),
        _ => 0,
    }
}

/// How many bytes a value's length has at a type with two bytes of metadata.
#[tactic(auto, unfolding(blog_row::specs::Column::storage_by, blog_row::specs::Column::column_types))]
fn prefix_by_pair(kind: u8, first: u8, second: u8) -> usize
    ensures { result ≡ prefix_of (storage_by kind (first ∷ second ∷ [])) }
{
    match kind {
        MYSQL_TYPE_VARCHAR => prefix_up_to(usize::from(first) + 256 * usize::from(second)),
        MYSQL_TYPE_STRING => prefix_of_string(first, second),
        _ => 0,
    }
}

/// How many bytes the length in front of a column's value has; 0 where the value has none.
fn prefix_len(kind: u8, metadata: &[u8]) -> usize
    ensures { result ≡ prefix_of (storage_by kind metadata.now) }
{
    match metadata.len() {
        1 => prefix_by_byte(kind, metadata[0]),
        2 => prefix_by_pair(kind, metadata[0], metadata[1]),
        _ => 0,
    }
}

/// Appends a length of so many bytes, the lowest first.
fn put_length<A: Allocator>(
    image: &mut Vec<u8, A>,
    prefix: usize,
    len: usize,
) -> Result<(), AllocError>
    ensures { OnOk result (image.new.items ≡ image.old.items ++ little_bytes prefix len) }
{
    let mut left = len;
    'bytes: for _ in 0..prefix {
        image.push((left % 256) as u8)?;
        left /= 256;
    }
    Ok(())
}

/// Appends a value as its column spells it.
fn put_value<A: Allocator>(
    image: &mut Vec<u8, A>,
    kind: u8,
    metadata: &[u8],
    value: Option<&[u8]>,
) -> Result<(), AllocError>
    ensures { OnOk result (image.new.items ≡ image.old.items ++ value_text (storage_by kind metadata.now) (value_bytes value.entry)) }
{
    match value {
        Some(bytes) => {
            put_length(image, prefix_len(kind, metadata), bytes.len())?;
            image.extend_from_slice(bytes)
        }
        None => Ok(()),
    }
}

/// Appends the values of a row as their columns spell them.
pub(crate) fn put_values<A: Allocator>(
    image: &mut Vec<u8, A>,
    layout: &Layout<'_>,
    row: &[Option<&[u8]>],
) -> Result<(), AllocError>
    ensures { OnOk result (image.new.items ≡ image.old.items ++ values_text (layout_columns layout.now) (map value_bytes row.now)) }
{
    let mut kinds = layout.types();
    let mut metadata = layout.metadata();
    for value in row {
        let Some((kind, other_kinds)) = kinds.split_first() else {
            return Ok(());
        };
        let (own, others) = metadata.split_at(metadata_len(*kind));
        put_value(image, *kind, own, *value)?;
        kinds = other_kinds;
        metadata = others;
    }
    Ok(())
}
