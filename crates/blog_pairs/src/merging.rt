//! The values of a row that an update of another row is made to.

ghost use Rattle.std.specs.Prelude.{◌≡◌, IfOk, map};
ghost use Rattle.blog_merge.specs.Merge.{merged};
ghost use Rattle.blog_row.specs.Image.{row_of};
ghost use Rattle.blog_row.specs.code.StoredLayoutView.{stored_columns};
ghost use Rattle.blog_row.specs.code.ValuesView.{value_bytes};

use crate::values::merged_value;
use blog_row::StoredLayout;
use std::alloc::{AllocError, Allocator};

/// Returns the values of a row after an update is made to it, by the images of the update's rows and of the row. Fails if out of memory.
pub(crate) fn merged_values<'b, A: Allocator>(
    alloc: A,
    layout: &StoredLayout<'_>,
    before: &'b [u8],
    after: &'b [u8],
    other: &'b [u8],
) -> Result<Vec<Option<&'b [u8]>, A>, AllocError>
    ensures { IfOk result (λ row. map value_bytes row.items ≡ merged (row_of (stored_columns layout.now) before.now) (row_of (stored_columns layout.now) after.now) (row_of (stored_columns layout.now) other.now)) }
{
    let mut row = Vec::new(alloc);
    let mut befores = layout.values(before);
    let mut others = layout.values(other);
    for value in layout.values(after) {
        let merged = merged_value(befores.next(), value, others.next());
        row.push(merged)?;
    }
    Ok(row)
}
