//! The null bits of an image.

ghost use Rattle.std.specs.Prelude.{◌≡◌, ◌<◌, ◌≤◌, ◌*◌, ◌||◌, ◌==◌, ℕ, map, length, slice_index, OnOk};
ghost use Rattle.blog_row.specs.Image.{is_marked};
ghost use Rattle.blog_row.specs.code.ValuesView.{value_bytes};
ghost use Rattle.blog_pairs.specs.Spelled.{MarksOnly, PutsNulls};

use std::alloc::{AllocError, Allocator};

/// Sets a bit of a bitmap, the lowest bit of a byte first.
fn set_bit(bitmap: &mut [u8], i: usize)
    requires { i < 8 * length bitmap.old }
    ensures bits { (k : ℕ) → is_marked bitmap.new k ≡ (k == i || is_marked bitmap.old k) }
    ensures len { length bitmap.new ≡ length bitmap.old }
{
    bitmap[i / 8] |= 1 << (i % 8);
}

/// Sets the null bits of a row in a bitmap in which no bit is set.
fn mark_nulls(bitmap: &mut [u8], row: &[Option<&[u8]>])
    requires fits { length row.now ≤ 8 * length bitmap.old }
    requires none { (k : ℕ) → slice_index bitmap.old k ≡ 0 }
    ensures bits { MarksOnly bitmap.new (map value_bytes row.now) }
    ensures len { length bitmap.new ≡ length bitmap.old }
{
    let mut i = 0;
    for value in row {
        if value.is_none() {
            set_bit(bitmap, i);
        }
        i += 1;
    }
}

/// Appends the null bits of a row.
pub(crate) fn put_nulls<A: Allocator>(
    image: &mut Vec<u8, A>,
    row: &[Option<&[u8]>],
) -> Result<(), AllocError>
    requires { length row.now ≤ 4096 }
    ensures { OnOk result (PutsNulls (map value_bytes row.now) image.old.items image.new.items) }
{
    let mut bitmap = [0; 512];
    let len = row.len().div_ceil(8);
    let nulls = &mut bitmap[..len];
    mark_nulls(nulls, row);
    image.extend_from_slice(nulls)
}
