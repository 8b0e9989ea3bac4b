//! Going through the rows of a rows event.

ghost use Rattle.std.specs.Prelude.{◌≡◌, ◌≤◌, ◌+◌, is_some, true, length, option_to_list, Some, IfSome};
ghost use Rattle.std.proofs.Props.{props};
ghost use Rattle.blog_row.specs.Image.{images_of};
ghost use Rattle.blog_row.specs.code.LayoutView.{layout_columns};
ghost use Rattle.blog_row.specs.code.StorageView.{AreLookedUp};

use crate::column::Storage;
use crate::image_walks::{storages_for, storages_of};
use crate::kind::RowsAction;
use crate::layout::Layout;
use crate::rows_event::RowsEvent;
use crate::storages::MOST_STORAGES;
use std::fmt;

/// A row of a rows event: its images as they stand in the log.
#[derive(Clone, Copy, Debug, PartialEq, Eq)]
pub struct RowChange<'a> {
    /// The image of the row before the change; None where the row is inserted.
    pub before: Option<&'a [u8]>,
    /// The image of the row after the change; None where the row is deleted.
    pub after: Option<&'a [u8]>,
}

/// The rows of a rows event, in order. An update's row is two images, the one before and the one after.
#[derive(Drop)]
pub struct Rows<'a> {
    action: RowsAction,
    layout: Layout<'a>,
    // How each column is stored, where it was looked up.
    storages: Option<[Storage; MOST_STORAGES]>,
    // The images that are left.
    rest: &'a [u8],
    pub ghost imaged: { is_some (images_of (layout_columns layout) rest.now) ≡ true },
    pub ghost stored: { AreLookedUp (layout_columns layout) storages } by { Prim.hlevel props },
}

/// The storages follow from the layout, so they aren't shown.
impl fmt::Debug for Rows<'_> {
    fn fmt<W: fmt::Write>(&self, f: &mut fmt::Formatter<W>) -> fmt::Result {
        f.debug_struct("Rows")
            .field("action", &self.action)
            .field("layout", &self.layout)
            .field("rest", &self.rest)
            .finish()
    }
}

impl<'a> RowsEvent<'a> {
    ghost use Rattle.std.specs.List.{concat};
    ghost use Rattle.blog_row.specs.RowsEvent.{rows_by};
    ghost use Rattle.blog_row.specs.code.RowsEventView.{rows_kind, rows_body};
    ghost use Rattle.blog_row.specs.code.RowsView.{rows_left, most_left};

    /// The rows, in order: of an insert each image after, of a delete each image before, and of an update the images
    /// before and after, each two of which are a row. It takes no memory, and reads each image once.
    pub fn rows(&self) -> Rows<'a>
        ensures rows { rows_left result ≡ rows_by (rows_kind self.now).action (rows_body self.now).images }
        ensures most { most_left result ≡ length (concat (rows_body self.now).images) }
    {
        let layout = self.layout();
        Rows {
            action: self.kind().action,
            layout,
            storages: storages_for(&layout, self.rows_len()),
            rest: self.images(),
        }
    }
}

impl<'a> Rows<'a> {
    ghost use Rattle.std.specs.Iterator.{YieldsFirstRef};
    ghost use Rattle.blog_row.specs.code.RowsView.{images_left};

    /// The next image.
    fn image(&mut self) -> Option<&'a [u8]>
        ensures images { YieldsFirstRef images_left self.old result self.new }
        ensures action { self.new.action ≡ self.old.action }
        ensures bytes { length self.new.rest.now + length (option_to_list result) ≤ length self.old.rest.now }
    {
        let storages = storages_of(&self.layout, &self.storages);
        let len = self.layout.image_len_by(storages, self.rest)?;
        let (image, behind) = self.rest.split_at(len);
        self.rest = behind;
        Some(image)
    }
}

impl<'a> Iterator for Rows<'a> {
    type Item = RowChange<'a>;

    ghost use Rattle.std.specs.Iterator.{UpTo, YieldsFirstBy, at_most};
    ghost use Rattle.std.specs.Iterator.SizeHint.{IsWithinCount};
    ghost use Rattle.blog_row.specs.code.RowsView.{rows_left, most_left, row_seen};

    ghost next_gives = { YieldsFirstBy row_seen rows_left };

    ghost remaining = { λ rows. at_most (most_left rows) };

    fn next(&mut self) -> Option<RowChange<'a>> {
        let image = self.image()?;
        let (before, after) = match self.action {
            RowsAction::Write => (None, Some(image)),
            RowsAction::Update => (Some(image), Some(self.image()?)),
            RowsAction::Delete => (Some(image), None),
        };
        Some(RowChange { before, after })
    }

    /// How many rows are left is known by going through them alone: at least none, and at most one for each byte.
    fn size_hint(&self) -> (usize, Option<usize>)
        ensures least { result.0 ≤ length (rows_left self.now) }
        ensures most { result.1 ≡ Some (most_left self.now) }
        ensures lower { IsWithinCount result.0 (at_most (most_left self.now)) }
        ensures upper { IfSome result.1 (UpTo (at_most (most_left self.now))) }
    {
        (0, Some(self.rest.len()))
    }
}
