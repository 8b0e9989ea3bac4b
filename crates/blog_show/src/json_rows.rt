//! Rows as objects of JSON.

use crate::forms::RowStyle;
use crate::json_cells::put_cell;
use crate::scratch::{Clock, Scratch};
use crate::tables::LastMap;
use blog_row::{RowChange, RowsAction, StoredLayout};
use blog_text::{put_string, put_text};
use blog_trans::GroupRows;
use std::alloc::{AllocError, Allocator};

/// Appends what is before the images of each row of an event: when it was, what it does, and the table.
pub(crate) fn put_told<A: Allocator>(
    out: &mut Vec<u8, A>,
    clock: &mut Clock<A>,
    group: &GroupRows<'_>,
    style: &RowStyle<'_>,
) -> Result<(), AllocError> {
    put_text(out, b"\"time\":\"")?;
    clock.put(out, style, group.event.header.timestamp)?;
    put_text(
        out,
        match group.rows.kind().action {
            RowsAction::Write => b"\",\"op\":\"insert\",\"schema\":",
            RowsAction::Update => b"\",\"op\":\"update\",\"schema\":",
            RowsAction::Delete => b"\",\"op\":\"delete\",\"schema\":",
        },
    )?;
    put_string(out, group.table.schema())?;
    put_text(out, b",\"table\":")?;
    put_string(out, group.table.table())?;
    put_text(out, b",\"before\":")
}

/// Appends the columns of an image as an object.
fn put_columns<A: Allocator, B: Allocator>(
    out: &mut Vec<u8, A>,
    scratch: &mut Scratch<A>,
    map: &LastMap<'_, B>,
    layout: &StoredLayout<'_>,
    image: &[u8],
    style: &RowStyle<'_>,
) -> Result<(), AllocError> {
    put_text(out, b"{")?;
    let mut n = 0usize;
    for value in layout.values(image) {
        if let Some(column) = map.columns.get(n) {
            put_text(out, map.label(column))?;
            put_cell(out, scratch, map, column, value, style)?;
        }
        n = n.saturating_add(1);
    }
    put_text(out, b"}")
}

/// Appends an image, or `null`.
fn put_image<A: Allocator, B: Allocator>(
    out: &mut Vec<u8, A>,
    scratch: &mut Scratch<A>,
    map: &LastMap<'_, B>,
    layout: &StoredLayout<'_>,
    image: Option<&[u8]>,
    style: &RowStyle<'_>,
) -> Result<(), AllocError> {
    match image {
        Some(image) => put_columns(out, scratch, map, layout, image, style),
        None => put_text(out, b"null"),
    }
}

/// Appends the images of a row, and ends its object.
pub(crate) fn put_row<A: Allocator, B: Allocator>(
    out: &mut Vec<u8, A>,
    scratch: &mut Scratch<A>,
    map: &LastMap<'_, B>,
    layout: &StoredLayout<'_>,
    row: &RowChange<'_>,
    style: &RowStyle<'_>,
) -> Result<(), AllocError> {
    put_image(out, scratch, map, layout, row.before, style)?;
    put_text(out, b",\"after\":")?;
    put_image(out, scratch, map, layout, row.after, style)?;
    put_text(out, b"}")
}
