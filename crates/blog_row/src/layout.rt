//! The columns of a table: type bytes and metadata bytes, walked together, and the parts of a table map that hold them.

ghost use Rattle.std.specs.Prelude.{◌≡◌, ◌<◌, ◌≤◌, ◌+◌, ◌∷◌, Some, length, drop, option_map, slice_index, true};
ghost use Rattle.std.specs.List.{list_all};
ghost use Rattle.blog_row.specs.Checks.{cut_seen};
ghost use Rattle.blog_row.specs.Column.{columns_of, is_column, metadata_total, own_metadata_len, storage_of};
ghost use Rattle.blog_row.specs.code.LayoutReading.{column_here, are_known, total_of, types_front, metadata_front};
ghost use Rattle.blog_row.specs.code.StorageView.{storage_seen};

use crate::column::{Storage, stored_as};
use crate::fault::RowFault;
use crate::image::cut_at;
use crate::names::names_at;
use crate::packed::packed_at;
use crate::storages::{len_by, look_up};
use crate::type_tables::{is_allowed, marked_len, own_len};
use crate::typed_walk::len_by_types;
use crate::values::Values;

/// The most bytes of metadata that 4,096 types of the profile have together.
const MOST_METADATA: usize = 8192;

/// How many bytes of metadata the types have together, where the profile has each of them.
fn metadata_len_of_all(kinds: &[u8]) -> Option<usize>
    requires { length kinds.now ≤ 4096 }
    ensures { result ≡ total_of kinds.now }
{
    let mut total = 0;
    for kind in kinds {
        total += marked_len(*kind);
        if total > MOST_METADATA {
            return None;
        }
    }
    Some(total)
}

/// Whether each column's metadata is allowed. Each column is checked by the two bytes at its place, without a branch on
/// how many of them it has; at the end the last byte stands for those that are not there.
fn are_columns(kinds: &[u8], metadata: &[u8]) -> bool
    requires known { are_known kinds.now ≡ true }
    requires whole { metadata_total kinds.now ≡ length metadata.now }
    ensures { result ≡ list_all is_column (columns_of kinds.now metadata.now) }
{
    if metadata.is_empty() {
        return true;
    }
    let last = metadata.len() - 1;
    let mut at: usize = 0;
    for kind in kinds {
        let first = metadata[at.min(last)];
        let second = metadata[(at + 1).min(last)];
        if !is_allowed(*kind, first, second) {
            return false;
        }
        at += own_len(*kind);
    }
    true
}

/// How the values of a column are stored, with whose metadata `metadata` begins.
#[inline(always)]
pub(crate) fn stored_here(kind: u8, metadata: &[u8]) -> Storage
    requires { is_column (column_here kind metadata.now) ≡ true }
    ensures { storage_of (column_here kind metadata.now) ≡ Some (storage_seen result) }
{
    let (own, _) = metadata.split_at(own_len(kind));
    let Some(storage) = stored_as(kind, own) else {
        unreachable!();
    };
    storage
}

/// How the column at `i` is stored, and the metadata of the columns after it; `metadata` begins with that of the
/// column at `i`.
#[inline(always)]
pub(crate) fn column_at<'a>(kinds: &[u8], i: usize, metadata: &'a [u8]) -> (Storage, &'a [u8])
    requires below { i < length kinds.now }
    requires known { list_all is_column (columns_of (drop i kinds.now) metadata.now) ≡ true }
    ensures columns { columns_of (drop i kinds.now) metadata.now ≡ column_here (slice_index kinds.now i) metadata.now ∷ columns_of (drop (i + 1) kinds.now) result.1.now }
    ensures stored { storage_of (column_here (slice_index kinds.now i) metadata.now) ≡ Some (storage_seen result.0) }
    ensures known { list_all is_column (columns_of (drop (i + 1) kinds.now) result.1.now) ≡ true }
{
    let kind = kinds[i];
    let storage = stored_here(kind, metadata);
    let (_, others) = metadata.split_at(own_len(kind));
    (storage, others)
}

/// The most columns that a table has.
const MOST_COLUMNS: u64 = 4096;

/// The types behind their packed count, and the bytes behind them, where there are 1 to 4,096 types.
#[tactic(auto, unfolding(crate::specs::code::LayoutReading::types_front))]
fn types_at(bytes: &[u8]) -> Option<(&[u8], &[u8])>
    ensures { option_map cut_seen result ≡ types_front bytes.now }
{
    let count = packed_at(bytes)?;
    if count.value < 1 || MOST_COLUMNS < count.value {
        return None;
    }
    cut_at(count.value as usize, count.rest)
}

/// The `len` bytes of metadata behind their packed length, and the bytes behind them, where that is the length.
#[tactic(auto, unfolding(crate::specs::code::LayoutReading::metadata_front))]
fn metadata_at(len: usize, bytes: &[u8]) -> Option<(&[u8], &[u8])>
    ensures { option_map cut_seen result ≡ metadata_front len bytes.now }
{
    let size = packed_at(bytes)?;
    if size.value != len as u64 {
        return None;
    }
    cut_at(len, size.rest)
}

/// The columns of a table, 1 to 4,096 of them: the types and the metadata bytes of its table map
/// (MySQL Internals manual, "Table_map_event").
#[derive(Clone, Copy, Debug)]
pub struct Layout<'a> {
    pub(crate) kinds: &'a [u8],
    pub(crate) metadata: &'a [u8],
    pub ghost some: { 0 < length kinds.now },
    pub ghost few: { length kinds.now ≤ 4096 },
    pub ghost whole: { metadata_total kinds.now ≡ length metadata.now },
    pub ghost known: { list_all is_column (columns_of kinds.now metadata.now) ≡ true },
}

/// How many bytes of metadata a column of a type has; 0 for a type that no column has.
pub fn metadata_len(kind: u8) -> usize
    ensures { result ≡ own_metadata_len kind }
{
    own_len(kind)
}

impl Layout<'_> {
    ghost use Rattle.std.specs.Prelude.{ℕ, take, IfSome};
    ghost use Rattle.blog_row.specs.Image.{IsSomeImage, image_len_of, value_of};
    ghost use Rattle.blog_row.specs.code.ImageView.{value_seen};
    ghost use Rattle.blog_row.specs.code.LayoutView.{layout_columns};
    ghost use Rattle.blog_row.specs.code.StorageView.{AreStored};
    ghost use Rattle.blog_row.specs.TableMap.{is_same_layout};

    /// The number of columns.
    #[tactic(auto, using(crate::proofs::Layouts::length_of_columns))]
    pub fn columns(&self) -> usize
        ensures { result ≡ length (layout_columns self.now) }
    {
        self.kinds.len()
    }

    /// Whether both have the same columns: equal types, and equal metadata.
    #[tactic(auto, using(crate::proofs::TableMapCode::same_by_bytes))]
    pub fn same(&self, other: &Layout<'_>) -> bool
        ensures same { result ≡ is_same_layout (layout_columns self.now) (layout_columns other.now) }
    {
        self.kinds == other.kinds && self.metadata == other.metadata
    }

    /// How long the image is with which the bytes begin, in bytes; None where they begin with none.
    #[tactic(auto, using(crate::proofs::PositionWalking::image_found_by, crate::proofs::Walking::image_only))]
    #[inline(always)]
    pub fn image_len(&self, bytes: &[u8]) -> Option<usize>
        ensures exact { result ≡ image_len_of (layout_columns self.now) bytes.now }
        ensures found { IfSome result (λ m. (m ≤ length bytes.now) × IsSomeImage (layout_columns self.now) (take m bytes.now)) }
        ensures only { (m : ℕ) → m ≤ length bytes.now → IsSomeImage (layout_columns self.now) (take m bytes.now) → result ≡ Some m }
    {
        len_by_types(self.kinds, self.metadata, bytes)
    }

    /// Looks up how each column is stored. The storages behind those of the columns mean nothing.
    #[tactic(auto, using(crate::proofs::Layouts::length_of_columns))]
    #[inline(always)]
    pub(crate) fn look_up(&self, storages: &mut [Storage])
        requires few { length (layout_columns self.now) ≤ length storages.old }
        ensures stored { AreStored (layout_columns self.now) (take (length (layout_columns self.now)) storages.new) }
        ensures long { length storages.new ≡ length storages.old }
    {
        look_up(self.kinds, self.metadata, storages);
    }

    /// Answers as `image_len` does, by the storages of the columns where they were looked up.
    #[inline(always)]
    pub(crate) fn image_len_by(&self, storages: Option<&[Storage]>, bytes: &[u8]) -> Option<usize>
        requires { IfSome storages (λ each. AreStored (layout_columns self.now) each.now) }
        ensures exact { result ≡ image_len_of (layout_columns self.now) bytes.now }
        ensures within { IfSome result (λ m. m ≤ length bytes.now) }
    {
        match storages {
            Some(storages) => len_by(storages, false, bytes),
            None => self.image_len(bytes),
        }
    }

    /// The value of a column, counted from 0, in the image with which the bytes begin: its bytes without their
    /// length, or None in it where it is NULL. None where they begin with no image or it has no such column.
    pub fn value<'b>(&self, image: &'b [u8], column: usize) -> Option<Option<&'b [u8]>>
        ensures value { value_seen result ≡ value_of (layout_columns self.now) image.now column }
    {
        self.values(image).nth(column)
    }
}

impl<'a> Layout<'a> {
    ghost use Rattle.std.specs.Prelude.{IsOk};
    ghost use Rattle.blog_row.specs.Column.{metadata_of, types_of};
    ghost use Rattle.blog_row.specs.Image.{row_of};
    ghost use Rattle.blog_row.specs.code.ValuesView.{values_left};
    ghost use Rattle.blog_row.specs.code.LayoutReading.{layout_behind};
    ghost use Rattle.blog_row.specs.code.LayoutView.{layout_columns, layout_seen};
    ghost use Rattle.blog_row.specs.TableMap.{layout_of};

    /// The layout behind the names of a table map, or the first check that fails
    /// (MySQL Internals manual, "Table_map_event").
    #[tactic(auto, using(crate::proofs::LayoutCode::layout_parts))]
    pub(crate) fn at(bytes: &'a [u8]) -> Result<Layout<'a>, RowFault>
        ensures { layout_seen result ≡ layout_behind bytes.now }
    {
        let Some((kinds, behind)) = types_at(bytes) else {
            return Err(RowFault::BadBody);
        };
        let Some(len) = metadata_len_of_all(kinds) else {
            return Err(RowFault::UnknownType);
        };
        let Some((metadata, behind)) = metadata_at(len, behind) else {
            return Err(RowFault::BadBody);
        };
        if !are_columns(kinds, metadata) {
            return Err(RowFault::BadBody);
        }
        if behind.len() < kinds.len().div_ceil(8) {
            return Err(RowFault::BadBody);
        }
        Ok(Layout { kinds, metadata })
    }

    /// The layout behind the names of a table map, where it is known that reading gives one.
    #[tactic(auto, using(crate::proofs::LayoutCode::layout_parts), unfolding(crate::specs::code::LayoutReading::metadata_front))]
    fn known_at(bytes: &'a [u8]) -> Layout<'a>
        requires { IsOk (layout_behind bytes.now) }
        ensures { layout_behind bytes.now ≡ Ok (layout_columns result) }
    {
        let Some((kinds, behind)) = types_at(bytes) else {
            unreachable!();
        };
        let Some(size) = packed_at(behind) else {
            unreachable!();
        };
        let (metadata, _) = size.rest.split_at(size.value as usize);
        Layout { kinds, metadata }
    }

    /// The layout of a table map's body, where it is known that reading gives one. The columns are not read again: it
    /// takes as long for many as for few.
    #[tactic(auto, using(crate::proofs::TableMapCode::layout_by_names), unfolding(crate::specs::TableMap::layout_of))]
    pub fn known(body: &'a [u8]) -> Layout<'a>
        requires { IsOk (layout_of body.now) }
        ensures { layout_of body.now ≡ Ok (layout_columns result) }
    {
        let Some(names) = names_at(body) else {
            unreachable!();
        };
        Layout::known_at(names.rest)
    }

    /// The type of each column, in order: a byte each.
    #[tactic(auto, using(crate::proofs::Layouts::types_of_columns))]
    pub fn types(&self) -> &'a [u8]
        ensures { result.now ≡ types_of (layout_columns self.now) }
    {
        self.kinds
    }

    /// The metadata of the columns, one behind the other: of each as many bytes as `metadata_len` says of its type.
    #[tactic(auto, using(crate::proofs::Layouts::metadata_of_columns))]
    pub fn metadata(&self) -> &'a [u8]
        ensures { result.now ≡ metadata_of (layout_columns self.now) }
    {
        self.metadata
    }

    /// The values of the image with which the bytes begin, in the order of the columns; none where they begin with no
    /// image. Each byte of the image is read twice, however many columns there are.
    #[tactic(auto, using(crate::proofs::ValueWalking::few_values, crate::proofs::ValueWalking::no_row, crate::proofs::Layouts::length_of_columns))]
    pub fn values<'b>(&self, image: &'b [u8]) -> Values<'a, 'b>
        ensures values { values_left result ≡ row_of (layout_columns self.now) image.now }
        ensures few { length (values_left result) ≤ 4096 }
    {
        if self.image_len(image).is_none() {
            return Values::none();
        }
        Values::of(self.kinds, self.metadata, image)
    }
}
