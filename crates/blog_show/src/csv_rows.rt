//! Rows as lines of CSV: one for an insert or a delete, two for an update.

ghost use Rattle.std.specs.Prelude.{◌≡◌, ◌++◌, OnOk};
ghost use Rattle.blog_show.specs.Shown.{PutsNewHead, csv_head};

use crate::csv_cells::put_cell;
use crate::csv_fields::put_csv_field;
use crate::forms::RowStyle;
use crate::scratch::{Clock, Scratch};
use crate::tables::LastMap;
use blog_row::{RowChange, RowsAction, StoredLayout};
use blog_text::{put_number, put_text};
use blog_trans::GroupRows;
use std::alloc::{AllocError, Allocator};

/// The head that was written last.
#[derive(Drop)]
pub(crate) struct Head<A: Allocator> {
    /// Whether one was written.
    is_there: bool,
    /// The names of its columns, a comma in front of each.
    names: Vec<u8, A>,
}

impl<A: Allocator> Head<A> {
    /// Returns that none was written.
    pub(crate) fn none(alloc: A) -> Head<A> {
        Head {
            is_there: false,
            names: Vec::new(alloc),
        }
    }

    /// Whether the head of columns with these names was the last.
    fn is_of(&self, names: &[u8]) -> bool {
        self.is_there && self.names.as_slice() == names
    }

    /// Keeps the names of the head that is written.
    fn keep(&mut self, names: &[u8]) -> Result<(), AllocError> {
        self.names.clear();
        put_text(&mut self.names, names)?;
        self.is_there = true;
        Ok(())
    }
}

/// Appends the head of columns, of which each name has a comma in front.
fn put_csv_head<A: Allocator>(out: &mut Vec<u8, A>, names: &[u8]) -> Result<(), AllocError>
    ensures { OnOk result (out.new.items ≡ out.old.items ++ csv_head names.now) }
{
    put_text(out, b"position,time,op,schema,table")?;
    put_text(out, names)?;
    put_text(out, b"\n")
}

/// Appends the head of columns, unless it was the last.
pub(crate) fn put_new_head<A: Allocator>(
    out: &mut Vec<u8, A>,
    head: &mut Head<A>,
    names: &[u8],
) -> Result<(), AllocError>
    ensures { OnOk result (PutsNewHead out.old.items out.new.items) }
{
    if head.is_of(names) {
        return Ok(());
    }
    head.keep(names)?;
    put_csv_head(out, names)?;
    Ok(())
}

/// Appends when an event was, what it does, and the names of its schema and table.
fn put_words<A: Allocator>(
    out: &mut Vec<u8, A>,
    clock: &mut Clock<A>,
    group: &GroupRows<'_>,
    words: &[u8],
    style: &RowStyle<'_>,
) -> Result<(), AllocError> {
    clock.put(out, style, group.event.header.timestamp)?;
    put_text(out, words)?;
    put_text(out, b",")?;
    put_csv_field(out, group.table.schema())?;
    put_text(out, b",")?;
    put_csv_field(out, group.table.table())
}

/// Appends what is before the values of the first line of each row of an event.
pub(crate) fn put_told<A: Allocator>(
    out: &mut Vec<u8, A>,
    clock: &mut Clock<A>,
    group: &GroupRows<'_>,
    style: &RowStyle<'_>,
) -> Result<(), AllocError> {
    let words: &[u8] = match group.rows.kind().action {
        RowsAction::Write => b",insert",
        RowsAction::Update => b",update-before",
        RowsAction::Delete => b",delete",
    };
    put_words(out, clock, group, words, style)
}

/// Appends what is before the values of the second line of each row of an update, which begins with the place too.
pub(crate) fn put_second<A: Allocator>(
    out: &mut Vec<u8, A>,
    clock: &mut Clock<A>,
    place: u32,
    group: &GroupRows<'_>,
    style: &RowStyle<'_>,
) -> Result<(), AllocError> {
    put_number(out, u64::from(place))?;
    put_text(out, b",")?;
    put_words(out, clock, group, b",update-after", style)
}

/// Appends the values of an image.
fn put_image<A: Allocator, B: Allocator>(
    out: &mut Vec<u8, A>,
    scratch: &mut Scratch<A>,
    map: &LastMap<'_, B>,
    layout: &StoredLayout<'_>,
    image: &[u8],
    style: &RowStyle<'_>,
) -> Result<(), AllocError> {
    let mut n = 0usize;
    for value in layout.values(image) {
        if let Some(column) = map.columns.get(n) {
            put_cell(out, scratch, map, column, value, style)?;
        }
        n = n.saturating_add(1);
    }
    Ok(())
}

/// Appends the values of a row; of an update those before, and the second line with those after.
pub(crate) fn put_row<A: Allocator, B: Allocator>(
    out: &mut Vec<u8, A>,
    scratch: &mut Scratch<A>,
    second: &[u8],
    map: &LastMap<'_, B>,
    layout: &StoredLayout<'_>,
    row: &RowChange<'_>,
    style: &RowStyle<'_>,
) -> Result<(), AllocError> {
    match (row.before, row.after) {
        (Some(before), Some(after)) => {
            put_image(out, scratch, map, layout, before, style)?;
            put_text(out, b"\n")?;
            put_text(out, second)?;
            put_image(out, scratch, map, layout, after, style)
        }
        (Some(image), None) => put_image(out, scratch, map, layout, image, style),
        (None, Some(image)) => put_image(out, scratch, map, layout, image, style),
        (None, None) => Ok(()),
    }
}
