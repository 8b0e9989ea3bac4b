//! Fingerprints of rows.

ghost use Rattle.std.specs.Prelude.{◌≡◌};
ghost use Rattle.blog_row.specs.Image.{row_of};
ghost use Rattle.blog_row.specs.TableMap.{map_names};
ghost use Rattle.blog_row.specs.code.StoredLayoutView.{stored_columns};
ghost use Rattle.blog_row.specs.code.ValuesView.{value_bytes};
ghost use Rattle.blog_later.specs.Prints.{print_of, table_hasher, with_value, with_values};

use blog_row::{StoredLayout, TableMap};
use std::hash::{FoldHasher, Hasher};

/// What is hashed of a NULL.
const NULL_TEXT: &[u8] = b"this value is NULL, and has no bytes";

/// Returns a hasher of a table's rows: one that has hashed the names of its schema and of itself.
pub fn table_hasher(table: &TableMap<'_>) -> FoldHasher
    ensures { result ≡ table_hasher (map_names table.now).table }
{
    let mut hasher = FoldHasher::default();
    hasher.write(table.schema());
    hasher.write(table.table());
    hasher
}

/// Returns a hasher that goes on with a value.
fn with_value(hasher: FoldHasher, value: Option<&[u8]>) -> FoldHasher
    ensures { result ≡ with_value hasher (value_bytes value.entry) }
{
    let mut hasher = hasher;
    match value {
        Some(bytes) => hasher.write(bytes),
        None => hasher.write(NULL_TEXT),
    }
    hasher
}

/// Returns a hasher that goes on with the values of an image.
fn with_values(hasher: FoldHasher, layout: &StoredLayout<'_>, image: &[u8]) -> FoldHasher
    ensures { result ≡ with_values hasher (row_of (stored_columns layout.now) image.now) }
{
    let mut hasher = hasher;
    for value in layout.values(image) {
        hasher = with_value(hasher, value);
    }
    hasher
}

/// Returns the fingerprint of the row of an image, by the values of its columns. `hasher` is that of its table. Equal rows of a table have equal
/// fingerprints.
pub fn print_of(hasher: FoldHasher, layout: &StoredLayout<'_>, image: &[u8]) -> u64
    ensures { result ≡ (with_values hasher (row_of (stored_columns layout.now) image.now)).state }
{
    with_values(hasher, layout, image).finish()
}
