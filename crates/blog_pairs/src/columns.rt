//! The columns of a table, and what is done with images of its rows.

ghost use Rattle.std.specs.Prelude.{◌≡◌};
ghost use Rattle.blog_row.specs.code.LayoutView.{layout_columns};
ghost use Rattle.blog_row.specs.code.StoredLayoutView.{stored_columns};

use crate::merging::merged_values;
use crate::nulls::put_nulls;
use crate::spelling::put_values;
use crate::values;
use blog_row::{Layout, StoredLayout};
use std::alloc::{AllocError, Allocator};

/// The columns of a table, for images of its rows.
#[derive(Drop)]
pub struct Columns<'a> {
    pub(crate) layout: Layout<'a>,
    pub(crate) stored: StoredLayout<'a>,
    pub ghost same: { stored_columns stored ≡ layout_columns layout },
}

impl<'a> Columns<'a> {
    ghost use Rattle.blog_pairs.specs.code.ColumnsView.{columns_told};

    /// Returns the columns of a layout, for images of so many bytes together.
    pub fn new(layout: &Layout<'a>, len: usize) -> Columns<'a>
        ensures { columns_told result ≡ layout_columns layout.now }
    {
        Columns {
            layout: *layout,
            stored: StoredLayout::new(layout, len),
        }
    }
}

impl Columns<'_> {
    ghost use Rattle.std.specs.Prelude.{IfOk};
    ghost use Rattle.std.specs.Cmp.Lexicographic.{pointwise};
    ghost use Rattle.blog_flash.specs.States.{is_same_value};
    ghost use Rattle.blog_merge.specs.Merge.{merged};
    ghost use Rattle.blog_row.specs.Image.{IsImage, IsSomeImage, row_of};
    ghost use Rattle.blog_pairs.specs.code.ColumnsView.{columns_told};

    /// Returns whether the rows of two images are equal.
    pub fn is_same_row(&self, one: &[u8], other: &[u8]) -> bool
        ensures { result ≡ pointwise is_same_value (row_of (columns_told self.now) one.now) (row_of (columns_told self.now) other.now) }
    {
        values::is_same_row(&self.stored, one, other)
    }

    /// Returns the image of a row after an update is made to it: of the values that the update changes it gets the new ones, and it keeps the others.
    /// `before` and `after` are the images of the update, and `other` is that of the row. The null bits that stand for no column are zero.
    /// Fails if out of memory.
    pub fn merged_image<A: Allocator + Copy>(
        &self,
        alloc: A,
        before: &[u8],
        after: &[u8],
        other: &[u8],
    ) -> Result<Vec<u8, A>, AllocError>
        ensures row { IfOk result (λ image. row_of (columns_told self.now) image.items
            ≡ merged (row_of (columns_told self.now) before.now) (row_of (columns_told self.now) after.now) (row_of (columns_told self.now) other.now)) }
        ensures image { IsSomeImage (columns_told self.now) after.now → IfOk result (λ image. IsImage (columns_told self.now)
            (merged (row_of (columns_told self.now) before.now) (row_of (columns_told self.now) after.now) (row_of (columns_told self.now) other.now)) image.items) }
    {
        let row = merged_values(alloc, &self.stored, before, after, other)?;
        let mut image = Vec::new(alloc);
        if row.len() != self.layout.columns() {
            return Ok(image);
        }
        put_nulls(&mut image, &row)?;
        put_values(&mut image, &self.layout, &row)?;
        Ok(image)
    }
}
