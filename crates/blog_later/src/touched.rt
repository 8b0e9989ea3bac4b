//! Rows that were left, and that later changes take.

ghost use Rattle.std.specs.Prelude.{◌≡◌, IfOk, filter, if◌then◌else◌, length, nat_eq, true};
ghost use Rattle.std.specs.List.{list_any};
ghost use Rattle.blog_row.specs.TableMap.{Table};
ghost use Rattle.blog_row.specs.code.RowsView.{row_seen};
ghost use Rattle.blog_row.specs.code.StoredLayoutView.{stored_columns};
ghost use Rattle.blog_trans.specs.Changes.{changes};
ghost use Rattle.blog_trans.specs.code.GroupEventsView.{IsByMap, IsWhole, event_seen};
ghost use Rattle.blog_trans.specs.code.IndexView.{index_bytes, index_selection};
ghost use Rattle.blog_trans.specs.declared.group_events.GroupEvent.TheVariants as GroupEvent;
ghost use Rattle.blog_later.specs.Prints.{table_hasher, table_print, takes_left};
ghost use Rattle.blog_later.specs.code.EventChanges.{event_changes, image_changes};
ghost use Rattle.blog_later.specs.code.Counted.{at_most};
ghost use Rattle.blog_later.specs.code.LookedView.{left_before};

use crate::left::LeftRows;
use crate::prints::{print_of, table_hasher};
use blog_row::{Order, RowChange, RowsAction, StoredLayout};
use blog_trans::{GroupEvent, GroupRows, Index};
use std::alloc::{AllocError, Allocator};
use std::hash::{FoldHasher, Hasher};

/// A rows event that takes rows which were left.
#[derive(Clone, Copy, Debug, PartialEq, Eq)]
pub struct TouchedRows<'a> {
    /// Where it begins, in bytes from the file's start.
    pub at: u32,
    /// Its time, in seconds since 1970 in UTC.
    pub time: u32,
    /// The bytes of the name of the table's schema.
    pub schema: &'a [u8],
    /// The bytes of the table's name.
    pub table: &'a [u8],
    /// What it does to its rows: `Update` or `Delete`.
    pub action: RowsAction,
}

/// How many rows events that take left rows are kept.
const MOST: usize = 20;

/// Returns whether a change takes a row that the first lists left. `hasher` is that of its table, of which rows were left.
fn is_touched<A: Allocator>(
    left: &LeftRows<A>,
    lists: u32,
    hasher: FoldHasher,
    layout: &StoredLayout<'_>,
    row: &RowChange<'_>,
) -> bool
    ensures { (t : Table) → hasher ≡ table_hasher t → list_any (nat_eq (table_print t)) (left_before left.now lists).tables ≡ true
        → length (filter (takes_left (left_before left.now lists)) (image_changes t (stored_columns layout.now) (row_seen row.now).before (row_seen row.now).after)) ≡ (if result then 1 else 0) }
{
    match row.before {
        Some(image) => left.has(print_of(hasher, layout, image), lists),
        None => false,
    }
}

/// Counts the rows that a rows event takes, and that the first lists left.
fn touched_by_event<A: Allocator>(left: &LeftRows<A>, lists: u32, group: &GroupRows<'_>) -> u64
    requires { IsByMap group.now }
    ensures { result ≡ at_most (length (filter (takes_left (left_before left.now lists)) (event_changes (event_seen (GroupEvent.Rows group.now))))) }
{
    let layout = StoredLayout::new(&group.rows.layout(), group.rows.rows_len());
    let hasher = table_hasher(&group.table);
    if !left.has_table(hasher.finish()) {
        return 0;
    }
    let mut touched = 0u64;
    for row in group.rows.rows() {
        if is_touched(left, lists, hasher, &layout, &row) {
            touched = touched.saturating_add(1);
        }
    }
    touched
}

/// Keeps a rows event, unless enough are kept.
fn keep<'a, A: Allocator>(
    first: &mut Vec<TouchedRows<'a>, A>,
    group: &GroupRows<'a>,
) -> Result<(), AllocError> {
    if first.len() >= MOST {
        return Ok(());
    }
    first.push(TouchedRows {
        at: group.event.pos,
        time: group.event.header.timestamp,
        schema: group.table.schema(),
        table: group.table.table(),
        action: group.rows.kind().action,
    })?;
    Ok(())
}

/// Counts the rows that an event of groups takes, and that were left. Keeps it if there are such rows.
fn touched_by_one<'a, A: Allocator>(
    left: &LeftRows<A>,
    lists: u32,
    event: &GroupEvent<'a>,
    first: &mut Vec<TouchedRows<'a>, A>,
) -> Result<u64, AllocError>
    requires { IsWhole event.now }
    ensures { IfOk result (λ n. n ≡ at_most (length (filter (takes_left (left_before left.now lists)) (event_changes (event_seen event.now))))) }
{
    match event {
        GroupEvent::Rows(rows) => {
            let touched = touched_by_event(left, lists, rows);
            if touched > 0 {
                keep(first, rows)?;
            }
            Ok(touched)
        }
        GroupEvent::Begin(_) | GroupEvent::Map(_) | GroupEvent::End(_) => Ok(0),
    }
}

/// Counts the rows that the changes of an index take, and that were left. Keeps the first rows events that do.
pub(crate) fn touched_by<'a, A: Allocator, B: Allocator>(
    left: &LeftRows<A>,
    lists: u32,
    index: &Index<'a, '_, B>,
    first: &mut Vec<TouchedRows<'a>, A>,
) -> Result<u64, AllocError>
    ensures { IfOk result (λ n. n ≡ at_most (length (filter (takes_left (left_before left.now lists)) (changes (index_bytes index.now) (index_selection index.now))))) }
{
    let mut touched = 0u64;
    for event in index.in_turn(Order::Forward) {
        let more = touched_by_one(left, lists, &event, first)?;
        touched = touched.saturating_add(more);
    }
    Ok(touched)
}
