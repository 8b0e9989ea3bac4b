//! Values of rows, and whether they are equal.

ghost use Rattle.std.specs.Prelude.{◌≡◌, option_map};
ghost use Rattle.std.specs.Cmp.Lexicographic.{pointwise};
ghost use Rattle.blog_flash.specs.States.{is_same_value};
ghost use Rattle.blog_row.specs.Image.{row_of};
ghost use Rattle.blog_row.specs.code.StoredLayoutView.{stored_columns};
ghost use Rattle.blog_row.specs.code.ValuesView.{value_bytes};
ghost use Rattle.blog_pairs.specs.Spelled.{merged_value};

use blog_row::StoredLayout;

/// Returns whether two values are equal.
fn is_same_value(one: Option<&[u8]>, other: Option<&[u8]>) -> bool
    ensures { result ≡ is_same_value (value_bytes one.entry) (value_bytes other.entry) }
{
    match (one, other) {
        (None, None) => true,
        (Some(one), Some(other)) => one == other,
        (None, Some(_)) | (Some(_), None) => false,
    }
}

/// Returns the value that a column of another row gets by an update from one value to another. It is kept if the update leaves it.
pub(crate) fn merged_value<'b>(
    before: Option<Option<&'b [u8]>>,
    after: Option<&'b [u8]>,
    other: Option<Option<&'b [u8]>>,
) -> Option<&'b [u8]>
    ensures { value_bytes result ≡ merged_value (option_map value_bytes before.entry) (value_bytes after.entry) (option_map value_bytes other.entry) }
{
    match (before, other) {
        (Some(before), Some(other)) => {
            if is_same_value(before, after) {
                other
            } else {
                after
            }
        }
        (None, _) | (Some(_), None) => after,
    }
}

/// Returns whether the rows of two images are equal.
pub(crate) fn is_same_row(layout: &StoredLayout<'_>, one: &[u8], other: &[u8]) -> bool
    ensures { result ≡ pointwise is_same_value (row_of (stored_columns layout.now) one.now) (row_of (stored_columns layout.now) other.now) }
{
    let mut others = layout.values(other);
    for value in layout.values(one) {
        match others.next() {
            Some(other) => {
                if !is_same_value(value, other) {
                    return false;
                }
            }
            None => return false,
        }
    }
    others.next().is_none()
}
