//! Tables whose rows are looked at.

ghost use Rattle.std.specs.Prelude.{◌≡◌, Ok};
ghost use Rattle.blog_later.specs.Prints.{table_hasher};
ghost use Rattle.blog_row.specs.TableMap.{layout_of};
ghost use Rattle.blog_row.specs.code.StoredLayoutView.{stored_columns};
ghost use Rattle.blog_trans.specs.Changes.{table_of};
ghost use Rattle.blog_trans.specs.code.GroupEventsView.{IsByMap};

use blog_later::{print_of, table_hasher};
use blog_row::StoredLayout;
use blog_trans::GroupRows;
use std::hash::FoldHasher;

/// A table whose rows are looked at.
#[derive(Drop)]
pub(crate) struct SeenTable<'a> {
    /// The body of its table map.
    pub(crate) body: &'a [u8],
    /// Its columns.
    pub(crate) layout: StoredLayout<'a>,
    /// A hasher that has hashed its names.
    pub(crate) hasher: FoldHasher,
    pub(crate) ghost known: { layout_of body.now ≡ Ok (stored_columns layout) },
    pub(crate) ghost hashed: { hasher ≡ table_hasher (table_of body.now) },
}

impl<'a> SeenTable<'a> {
    /// Returns the table of a rows event.
    pub(crate) fn of(group: &GroupRows<'a>) -> SeenTable<'a>
        requires { IsByMap group.now }
        ensures { result.body.now ≡ group.now.map.body.now }
    {
        SeenTable {
            body: group.map.body,
            layout: StoredLayout::new(&group.rows.layout(), group.rows.rows_len()),
            hasher: table_hasher(&group.table),
        }
    }
}

impl SeenTable<'_> {
    ghost use Rattle.blog_followed.specs.code.KeptView.{image_print};

    /// Returns the fingerprint of a row.
    pub(crate) fn print(&self, image: &[u8]) -> u64
        ensures { result ≡ image_print self.now.body.now image.now }
    {
        print_of(self.hasher, &self.layout, image)
    }
}
