//! Tables whose rows change.

ghost use Rattle.std.specs.Prelude.{◌≡◌};
ghost use Rattle.blog_later.specs.Prints.{print_of, table_hasher};
ghost use Rattle.blog_merge.specs.Pairs.{in_table};
ghost use Rattle.blog_row.specs.Image.{row_of};
ghost use Rattle.blog_row.specs.TableMap.{Table};
ghost use Rattle.blog_pairs.specs.code.ColumnsView.{columns_told};

use crate::columns::Columns;
use blog_later::print_of;
use std::hash::FoldHasher;

/// A held table whose rows change.
#[derive(Drop)]
pub(crate) struct ChangedTable<'a> {
    /// Its number.
    pub(crate) number: usize,
    /// Its columns.
    pub(crate) columns: Columns<'a>,
    /// A hasher that has hashed its names.
    pub(crate) hasher: FoldHasher,
}

impl ChangedTable<'_> {
    /// Returns the fingerprint of a row.
    pub(crate) fn print(&self, image: &[u8]) -> u64
        ensures { (t : Table) → self.now.hasher ≡ table_hasher t → result ≡ print_of (in_table t (row_of (columns_told self.now.columns) image.now)) }
    {
        print_of(self.hasher, &self.columns.stored, image)
    }
}
