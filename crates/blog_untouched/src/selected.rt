//! The rows of the changes of an index, by their fingerprints.

ghost use Rattle.std.specs.Prelude.{◌≡◌, ◌++◌, IfOk, OnOk, map, option_to_list};
ghost use Rattle.blog_row.specs.TableMap.{Table};
ghost use Rattle.blog_row.specs.code.RowsView.{row_seen};
ghost use Rattle.blog_row.specs.code.StoredLayoutView.{stored_columns};
ghost use Rattle.blog_trans.specs.Changes.{changes};
ghost use Rattle.blog_trans.specs.code.GroupEventsView.{IsByMap, IsWhole, event_seen};
ghost use Rattle.blog_trans.specs.code.IndexView.{index_bytes, index_selection};
ghost use Rattle.blog_trans.specs.declared.group_events.GroupEvent.TheVariants as GroupEvent;
ghost use Rattle.blog_later.specs.Prints.{print_of, table_hasher};
ghost use Rattle.blog_later.specs.code.EventChanges.{event_changes, image_changes};
ghost use Rattle.blog_untouched.specs.Recorded.{row_by};

use crate::rows::SelectedRow;
use blog_later::{print_of, table_hasher};
use blog_row::{Order, RowChange, StoredLayout};
use blog_trans::{GroupEvent, GroupRows, Index};
use std::alloc::{AllocError, Allocator};
use std::hash::FoldHasher;

/// Returns the row of a change. `hasher` is that of its table.
fn row_of(hasher: FoldHasher, layout: &StoredLayout<'_>, row: &RowChange<'_>) -> Option<SelectedRow>
    ensures { (t : Table) → hasher ≡ table_hasher t
        → option_to_list result ≡ map (row_by print_of) (image_changes t (stored_columns layout.now) (row_seen row.now).before (row_seen row.now).after) }
{
    match (row.before, row.after) {
        (None, None) => None,
        (None, Some(after)) => Some(SelectedRow::Inserted(print_of(hasher, layout, after))),
        (Some(before), None) => Some(SelectedRow::Deleted(print_of(hasher, layout, before))),
        (Some(before), Some(after)) => Some(SelectedRow::Updated(
            print_of(hasher, layout, before),
            print_of(hasher, layout, after),
        )),
    }
}

/// Appends the rows of a rows event.
fn put_rows<A: Allocator>(
    rows: &mut Vec<SelectedRow, A>,
    group: &GroupRows<'_>,
) -> Result<(), AllocError>
    requires { IsByMap group.now }
    ensures { OnOk result (rows.new.items ≡ rows.old.items ++ map (row_by print_of) (event_changes (event_seen (GroupEvent.Rows group.now)))) }
{
    let layout = StoredLayout::new(&group.rows.layout(), group.rows.rows_len());
    let hasher = table_hasher(&group.table);
    for row in group.rows.rows() {
        if let Some(selected) = row_of(hasher, &layout, &row) {
            rows.push(selected)?;
        }
    }
    Ok(())
}

/// Appends the rows of an event of groups.
fn put_event<A: Allocator>(
    rows: &mut Vec<SelectedRow, A>,
    event: &GroupEvent<'_>,
) -> Result<(), AllocError>
    requires { IsWhole event.now }
    ensures { OnOk result (rows.new.items ≡ rows.old.items ++ map (row_by print_of) (event_changes (event_seen event.now))) }
{
    match event {
        GroupEvent::Rows(group) => put_rows(rows, group),
        GroupEvent::Begin(_) | GroupEvent::Map(_) | GroupEvent::End(_) => Ok(()),
    }
}

/// Returns the rows of the changes of an index, in order, by their fingerprints. Fails if out of memory.
pub fn selected_rows<A: Allocator, B: Allocator>(
    alloc: A,
    index: &Index<'_, '_, B>,
) -> Result<Vec<SelectedRow, A>, AllocError>
    ensures { IfOk result (λ rows. rows.items ≡ map (row_by print_of) (changes (index_bytes index.now) (index_selection index.now))) }
{
    let mut rows = Vec::new(alloc);
    for event in index.in_turn(Order::Forward) {
        put_event(&mut rows, &event)?;
    }
    Ok(rows)
}
