//! The columns of a table with how they are stored, looked up for many images.

ghost use Rattle.std.specs.Prelude.{◌≡◌, ◌<◌, ◌≤◌, ◌+◌, length};
ghost use Rattle.blog_row.specs.code.LayoutView.{layout_columns};
ghost use Rattle.blog_row.specs.code.StorageView.{AreLookedUp};
ghost use Rattle.std.proofs.Props.{props};

use crate::column::Storage;
use crate::image_walks::{storages_for, storages_of};
use crate::layout::{Layout, column_at};
use crate::storages::MOST_STORAGES;
use crate::stored_values::StoredValues;
use std::fmt;

/// The columns of a table with how they are stored, looked up for many images.
#[derive(Drop)]
pub struct StoredLayout<'a> {
    pub(crate) layout: Layout<'a>,
    // How each column is stored, where it was looked up.
    storages: Option<[Storage; MOST_STORAGES]>,
    pub ghost stored: { AreLookedUp (layout_columns layout) storages } by { Prim.hlevel props },
}

/// The storages follow from the layout, so they aren't shown.
impl fmt::Debug for StoredLayout<'_> {
    fn fmt<W: fmt::Write>(&self, f: &mut fmt::Formatter<W>) -> fmt::Result {
        f.debug_struct("StoredLayout")
            .field("layout", &self.layout)
            .finish()
    }
}

impl<'a> StoredLayout<'a> {
    ghost use Rattle.blog_row.specs.code.StoredLayoutView.{stored_columns};

    /// The same columns, for images of so many bytes together. How the columns are stored is looked up here where that
    /// pays, and else for each image. It takes no memory.
    pub fn new(layout: &Layout<'a>, len: usize) -> StoredLayout<'a>
        ensures { stored_columns result ≡ layout_columns layout.now }
    {
        StoredLayout {
            layout: *layout,
            storages: storages_for(layout, len),
        }
    }
}

impl StoredLayout<'_> {
    ghost use Rattle.blog_row.specs.Image.{row_of};
    ghost use Rattle.blog_row.specs.code.StoredLayoutView.{stored_columns, IsStoredAt, IsMetadataFrom};
    ghost use Rattle.blog_row.specs.code.StoredValuesView.{stored_values_left};

    /// How the column at `column` is stored, and the metadata of the columns after it; `metadata` begins with that of
    /// the column. It is read only where the storages were not looked up.
    #[inline(always)]
    pub(crate) fn storage_at<'m>(&self, column: usize, metadata: &'m [u8]) -> (Storage, &'m [u8])
        requires below { column < length (stored_columns self.now) }
        requires ahead { IsMetadataFrom self.now column metadata.now }
        ensures stored { IsStoredAt (stored_columns self.now) column result.0 }
        ensures ahead { IsMetadataFrom self.now (column + 1) result.1.now }
    {
        match &self.storages {
            Some(all) => (all[column], metadata),
            None => column_at(self.layout.kinds, column, metadata),
        }
    }

    /// The values of the image with which the bytes begin, in the order of the columns; none where they begin with no
    /// image. Each byte of the image is read twice, however many columns there are.
    #[tactic(auto, using(crate::proofs::ValueWalking::few_values, crate::proofs::ValueWalking::no_row, crate::proofs::Layouts::length_of_columns))]
    pub fn values<'b>(&self, image: &'b [u8]) -> StoredValues<'_, 'b>
        ensures values { stored_values_left result ≡ row_of (stored_columns self.now) image.now }
        ensures few { length (stored_values_left result) ≤ 4096 }
    {
        let storages = storages_of(&self.layout, &self.storages);
        if self.layout.image_len_by(storages, image).is_none() {
            return StoredValues::none(self);
        }
        StoredValues::of(self, image)
    }
}
