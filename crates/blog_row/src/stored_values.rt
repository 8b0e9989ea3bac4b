//! Going through the values of an image by how the columns are stored.

ghost use Rattle.std.specs.Prelude.{◌≡◌, ◌<◌, ◌≤◌, ◌*◌, drop, is_some, true, length, Some, IfSome};
ghost use Rattle.blog_row.specs.Image.{values_front};
ghost use Rattle.blog_row.specs.code.StoredLayoutView.{stored_columns, IsMetadataFrom};

use crate::image::{cut_at, is_set, stored_at};
use crate::stored_layout::StoredLayout;

/// The values of an image, in the order of the columns: the bytes of each without their length, or None where it is
/// NULL. Each byte of the image is read once.
#[derive(Debug, Drop)]
pub struct StoredValues<'l, 'b> {
    layout: &'l StoredLayout<'l>,
    // The number of the column that comes next, from 0.
    column: usize,
    // The metadata of that column and of those behind it, where their storages were not looked up.
    metadata: &'l [u8],
    nulls: &'b [u8],
    // The values of these columns.
    rest: &'b [u8],
    pub ghost ahead: { IsMetadataFrom layout.now column metadata.now },
    pub ghost long: { column < length (stored_columns layout.now) → length (stored_columns layout.now) ≤ 8 * length nulls.now },
    pub ghost imaged: { is_some (values_front (drop column (stored_columns layout.now)) nulls.now column rest.now) ≡ true },
}

impl<'l, 'b> StoredValues<'l, 'b> {
    ghost use Rattle.std.specs.Prelude.{[]};
    ghost use Rattle.blog_row.specs.Image.{image_front, row_of};
    ghost use Rattle.blog_row.specs.code.StoredValuesView.{stored_values_left};

    /// The values of the image with which the bytes begin.
    pub(crate) fn of(layout: &'l StoredLayout<'l>, image: &'b [u8]) -> StoredValues<'l, 'b>
        requires { is_some (image_front (stored_columns layout.now) image.now) ≡ true }
        ensures { stored_values_left result ≡ row_of (stored_columns layout.now) image.now }
    {
        let Some((nulls, rest)) = cut_at(layout.layout.columns().div_ceil(8), image) else {
            unreachable!();
        };
        StoredValues {
            layout,
            column: 0,
            metadata: layout.layout.metadata,
            nulls,
            rest,
        }
    }

    /// No values.
    pub(crate) fn none(layout: &'l StoredLayout<'l>) -> StoredValues<'l, 'b>
        ensures { stored_values_left result ≡ [] }
    {
        StoredValues {
            layout,
            column: layout.layout.columns(),
            metadata: &[],
            nulls: &[],
            rest: &[],
        }
    }
}

impl<'l, 'b> Iterator for StoredValues<'l, 'b> {
    type Item = Option<&'b [u8]>;

    ghost use Rattle.std.specs.Iterator.{UpTo, YieldsFirstBy, at_most};
    ghost use Rattle.std.specs.Iterator.SizeHint.{IsWithinCount};
    ghost use Rattle.blog_row.specs.code.ValuesView.{value_bytes};
    ghost use Rattle.blog_row.specs.code.StoredValuesView.{stored_values_left, stored_columns_left};

    ghost next_gives = { YieldsFirstBy value_bytes stored_values_left };

    ghost remaining = { λ values. at_most (stored_columns_left values) };

    fn next(&mut self) -> Option<Option<&'b [u8]>> {
        let column = self.column;
        if column >= self.layout.layout.columns() {
            return None;
        }
        let (storage, metadata) = self.layout.storage_at(column, self.metadata);
        if is_set(self.nulls, column) {
            *self = StoredValues {
                layout: self.layout,
                column: column + 1,
                metadata,
                nulls: self.nulls,
                rest: self.rest,
            };
            return Some(None);
        }
        let Some((value, rest)) = stored_at(storage, self.rest) else {
            unreachable!();
        };
        *self = StoredValues {
            layout: self.layout,
            column: column + 1,
            metadata,
            nulls: self.nulls,
            rest,
        };
        Some(Some(value))
    }

    /// How many values are left: one for each column that is left.
    fn size_hint(&self) -> (usize, Option<usize>)
        ensures exact { result ≡ (length (stored_values_left self.now), Some (length (stored_values_left self.now))) }
        ensures lower { IsWithinCount result.0 (at_most (stored_columns_left self.now)) }
        ensures upper { IfSome result.1 (UpTo (at_most (stored_columns_left self.now))) }
    {
        let left = self.layout.layout.columns().saturating_sub(self.column);
        (left, Some(left))
    }
}
