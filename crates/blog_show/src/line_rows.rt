//! Rows on lines for people: an insert or a delete with each column, an update with those that it changes.

use crate::cells::put_cell;
use crate::forms::RowStyle;
use crate::names::put_table;
use crate::scratch::{Clock, Scratch};
use crate::tables::{LastMap, ShownColumn};
use blog_row::{RowChange, RowsAction, StoredLayout};
use blog_text::{put_number, put_text};
use blog_trans::GroupRows;
use std::alloc::{AllocError, Allocator};

/// Appends what is before the columns of each row of an event: when it was, what it does, and the table.
pub(crate) fn put_told<A: Allocator>(
    out: &mut Vec<u8, A>,
    clock: &mut Clock<A>,
    group: &GroupRows<'_>,
    style: &RowStyle<'_>,
) -> Result<(), AllocError> {
    clock.put(out, style, group.event.header.timestamp)?;
    put_text(
        out,
        match group.rows.kind().action {
            RowsAction::Write => b" INSERT ",
            RowsAction::Update => b" UPDATE ",
            RowsAction::Delete => b" DELETE ",
        },
    )?;
    put_table(out, group.table.schema(), group.table.table())
}

/// Appends a column and its value.
fn put_field<'a, A: Allocator, B: Allocator>(
    out: &mut Vec<u8, A>,
    scratch: &mut Scratch<A>,
    map: &LastMap<'a, B>,
    column: &ShownColumn<'a>,
    value: Option<&[u8]>,
    style: &RowStyle<'_>,
) -> Result<(), AllocError> {
    put_text(out, map.label(column))?;
    put_cell(out, scratch, map, column, value, style)
}

/// A text without its last byte.
fn without_last(text: &[u8]) -> &[u8] {
    &text[..text.len().saturating_sub(1)]
}

/// Appends a column, and its values before and after.
fn put_change<'a, A: Allocator, B: Allocator>(
    out: &mut Vec<u8, A>,
    scratch: &mut Scratch<A>,
    map: &LastMap<'a, B>,
    column: &ShownColumn<'a>,
    before: Option<&[u8]>,
    after: Option<&[u8]>,
    style: &RowStyle<'_>,
) -> Result<(), AllocError> {
    put_text(out, without_last(map.label(column)))?;
    put_text(out, b": ")?;
    put_cell(out, scratch, map, column, before, style)?;
    put_text(out, b" -> ")?;
    put_cell(out, scratch, map, column, after, style)
}

/// Appends the columns of an image.
fn put_image<A: Allocator, B: Allocator>(
    out: &mut Vec<u8, A>,
    scratch: &mut Scratch<A>,
    map: &LastMap<'_, B>,
    layout: &StoredLayout<'_>,
    image: &[u8],
    style: &RowStyle<'_>,
) -> Result<(), AllocError> {
    let mut n = 0usize;
    for value in layout.values(image) {
        if let Some(column) = map.columns.get(n) {
            put_field(out, scratch, map, column, value, style)?;
        }
        n = n.saturating_add(1);
    }
    Ok(())
}

/// Whether two values are the same.
fn is_same(one: Option<&[u8]>, other: Option<&[u8]>) -> bool {
    match (one, other) {
        (Some(one), Some(other)) => one == other,
        (None, None) => true,
        _ => false,
    }
}

/// Appends how many columns an update leaves that aren't shown.
fn put_others<A: Allocator>(out: &mut Vec<u8, A>, others: u64) -> Result<(), AllocError> {
    if others == 0 {
        return Ok(());
    }
    put_text(out, b"  (")?;
    put_number(out, others)?;
    put_text(
        out,
        if others == 1 {
            b" column unchanged)".as_slice()
        } else {
            b" columns unchanged)".as_slice()
        },
    )
}

/// Appends the columns that an update changes, and those by which its row is known.
fn put_update<A: Allocator, B: Allocator>(
    out: &mut Vec<u8, A>,
    scratch: &mut Scratch<A>,
    map: &LastMap<'_, B>,
    layout: &StoredLayout<'_>,
    before: &[u8],
    after: &[u8],
    style: &RowStyle<'_>,
) -> Result<(), AllocError> {
    let mut n = 0usize;
    let mut others = 0u64;
    let mut afters = layout.values(after);
    for value in layout.values(before) {
        let other = match afters.next() {
            Some(other) => other,
            None => None,
        };
        if let Some(column) = map.columns.get(n) {
            if !is_same(value, other) {
                put_change(out, scratch, map, column, value, other, style)?;
            } else if style.all_columns || column.names_row {
                put_field(out, scratch, map, column, value, style)?;
            } else {
                others = others.saturating_add(1);
            }
        }
        n = n.saturating_add(1);
    }
    put_others(out, others)
}

/// Appends the columns of a row.
pub(crate) fn put_row<A: Allocator, B: Allocator>(
    out: &mut Vec<u8, A>,
    scratch: &mut Scratch<A>,
    map: &LastMap<'_, B>,
    layout: &StoredLayout<'_>,
    row: &RowChange<'_>,
    style: &RowStyle<'_>,
) -> Result<(), AllocError> {
    match (row.before, row.after) {
        (Some(before), Some(after)) => put_update(out, scratch, map, layout, before, after, style),
        (Some(image), None) => put_image(out, scratch, map, layout, image, style),
        (None, Some(image)) => put_image(out, scratch, map, layout, image, style),
        (None, None) => Ok(()),
    }
}
