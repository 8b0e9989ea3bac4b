//! Going through the values of an image.

ghost use Rattle.std.specs.Prelude.{◌≡◌, ◌≤◌, ◌*◌, drop, is_some, true, length, Some, IfSome};
ghost use Rattle.std.specs.List.{list_all};
ghost use Rattle.blog_row.specs.Column.{columns_of, is_column};
ghost use Rattle.blog_row.specs.Image.{values_front};

use crate::image::{cut_at, is_set, stored_at};
use crate::layout::column_at;

/// The values of an image, in the order of the columns: the bytes of each without their length, or None where it is
/// NULL. Each byte of the image is read once.
#[derive(Debug, Drop)]
pub struct Values<'l, 'b> {
    kinds: &'l [u8],
    // The number of the column that comes next, from 0.
    column: usize,
    // The metadata of that column and of those behind it.
    metadata: &'l [u8],
    nulls: &'b [u8],
    // The values of these columns.
    rest: &'b [u8],
    pub ghost known: { list_all is_column (columns_of (drop column kinds.now) metadata.now) ≡ true },
    pub ghost long: { length kinds.now ≤ 8 * length nulls.now },
    pub ghost imaged: { is_some (values_front (columns_of (drop column kinds.now) metadata.now) nulls.now column rest.now) ≡ true },
}

impl<'l, 'b> Values<'l, 'b> {
    ghost use Rattle.std.specs.Prelude.{[]};
    ghost use Rattle.blog_row.specs.Image.{image_front, row_of};
    ghost use Rattle.blog_row.specs.code.ValuesView.{values_left};

    /// The values of the image with which the bytes begin.
    pub(crate) fn of(kinds: &'l [u8], metadata: &'l [u8], image: &'b [u8]) -> Values<'l, 'b>
        requires known { list_all is_column (columns_of kinds.now metadata.now) ≡ true }
        requires imaged { is_some (image_front (columns_of kinds.now metadata.now) image.now) ≡ true }
        ensures { values_left result ≡ row_of (columns_of kinds.now metadata.now) image.now }
    {
        let Some((nulls, rest)) = cut_at(kinds.len().div_ceil(8), image) else {
            unreachable!();
        };
        Values {
            kinds,
            column: 0,
            metadata,
            nulls,
            rest,
        }
    }

    /// No values.
    #[tactic(auto, unfolding(crate::specs::Image::values_front))]
    pub(crate) fn none() -> Values<'l, 'b>
        ensures { values_left result ≡ [] }
    {
        Values {
            kinds: &[],
            column: 0,
            metadata: &[],
            nulls: &[],
            rest: &[],
        }
    }
}

impl<'l, 'b> Iterator for Values<'l, 'b> {
    type Item = Option<&'b [u8]>;

    ghost use Rattle.std.specs.Iterator.{UpTo, YieldsFirstBy, at_most};
    ghost use Rattle.std.specs.Iterator.SizeHint.{IsWithinCount};
    ghost use Rattle.blog_row.specs.code.ValuesView.{values_left, columns_left, value_bytes};

    ghost next_gives = { YieldsFirstBy value_bytes values_left };

    ghost remaining = { λ values. at_most (columns_left values) };

    #[tactic(auto, using(crate::proofs::ValueWalking::null_first, crate::proofs::ValueWalking::value_first, crate::proofs::ValueWalking::value_there, crate::proofs::Walking::front_is))]
    fn next(&mut self) -> Option<Option<&'b [u8]>> {
        let column = self.column;
        if column >= self.kinds.len() {
            return None;
        }
        let (storage, metadata) = column_at(self.kinds, column, self.metadata);
        if is_set(self.nulls, column) {
            *self = Values {
                kinds: self.kinds,
                column: column + 1,
                metadata,
                nulls: self.nulls,
                rest: self.rest,
            };
            return Some(None);
        }
        let Some((value, rest)) = stored_at(storage, self.rest) else {
            unreachable!();
        };
        *self = Values {
            kinds: self.kinds,
            column: column + 1,
            metadata,
            nulls: self.nulls,
            rest,
        };
        Some(Some(value))
    }

    /// How many values are left: one for each column that is left.
    #[tactic(auto, using(crate::proofs::ValueWalking::as_many_read, crate::proofs::Layouts::length_of_columns))]
    fn size_hint(&self) -> (usize, Option<usize>)
        ensures exact { result ≡ (length (values_left self.now), Some (length (values_left self.now))) }
        ensures lower { IsWithinCount result.0 (at_most (columns_left self.now)) }
        ensures upper { IfSome result.1 (UpTo (at_most (columns_left self.now))) }
    {
        let left = self.kinds.len().saturating_sub(self.column);
        (left, Some(left))
    }
}
