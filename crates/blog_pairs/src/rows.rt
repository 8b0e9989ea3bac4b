//! Pairs after the changes of the rows of an event.

ghost use Rattle.std.specs.Prelude.{◌≡◌, ◌∷◌, [], ℕ, List, OnOk, false, length, true};
ghost use Rattle.blog_row.specs.code.RowsView.{row_seen};
ghost use Rattle.blog_later.specs.code.EventChanges.{images_changes};
ghost use Rattle.blog_pairs.specs.Steps.{pairs_with, unmarked};
ghost use Rattle.blog_pairs.specs.code.ColumnsView.{columns_told};
ghost use Rattle.blog_pairs.specs.code.EventRows.{event_rows};
ghost use Rattle.blog_pairs.specs.code.PairsView.{Fits, pairs_in, table_at};

use crate::changed::ChangedTable;
use crate::held::HeldPairs;
use crate::steps::{add_later, add_selected};
use blog_later::first_mark;
use blog_row::{RowChange, RowsEvent};
use std::alloc::{AllocError, Allocator};

/// Adds the changes of others to the rows of an event. Fails if out of memory, after some of its rows.
pub(crate) fn add_later_rows<A: Allocator + Copy>(
    alloc: A,
    pairs: &mut HeldPairs<A>,
    table: &ChangedTable<'_>,
    rows: &RowsEvent<'_>,
) -> Result<(), AllocError>
    ensures done { (bodies : List (List ℕ)) → Fits bodies pairs.old table.now → OnOk result (pairs_in bodies pairs.new.slots.items
        ≡ pairs_with false (images_changes (table_at bodies table.now.number) (columns_told table.now.columns) (event_rows rows.now)) (pairs_in bodies pairs.old.slots.items)) }
    ensures fits { (bodies : List (List ℕ)) → Fits bodies pairs.old table.now → Fits bodies pairs.new table.now }
{
    for row in rows.rows() {
        add_later(alloc, pairs, table, &row)?;
    }
    Ok(())
}

/// Adds the selected change of a row, unless it is marked.
fn add_unmarked<A: Allocator + Copy>(
    alloc: A,
    pairs: &mut HeldPairs<A>,
    table: &ChangedTable<'_>,
    row: &RowChange<'_>,
    is_marked: bool,
) -> Result<(), AllocError>
    ensures done { (bodies : List (List ℕ)) → Fits bodies pairs.old table.now → OnOk result (pairs_in bodies pairs.new.slots.items
        ≡ pairs_with true (images_changes (table_at bodies table.now.number) (columns_told table.now.columns) (unmarked (is_marked ∷ []) (row_seen row.now ∷ []))) (pairs_in bodies pairs.old.slots.items)) }
    ensures fits { (bodies : List (List ℕ)) → Fits bodies pairs.old table.now → Fits bodies pairs.new table.now }
{
    if is_marked {
        Ok(())
    } else {
        add_selected(alloc, pairs, table, row)
    }
}

/// Adds the selected changes of those rows of an event that aren't marked. Fails if out of memory, after some of its rows.
pub(crate) fn add_selected_rows<A: Allocator + Copy>(
    alloc: A,
    pairs: &mut HeldPairs<A>,
    table: &ChangedTable<'_>,
    rows: &RowsEvent<'_>,
    marks: &[bool],
) -> Result<(), AllocError>
    requires { length marks.now ≡ length (event_rows rows.now) }
    ensures done { (bodies : List (List ℕ)) → Fits bodies pairs.old table.now → OnOk result (pairs_in bodies pairs.new.slots.items
        ≡ pairs_with true (images_changes (table_at bodies table.now.number) (columns_told table.now.columns) (unmarked marks.now (event_rows rows.now))) (pairs_in bodies pairs.old.slots.items)) }
    ensures fits { (bodies : List (List ℕ)) → Fits bodies pairs.old table.now → Fits bodies pairs.new table.now }
{
    let mut left = marks;
    for row in rows.rows() {
        let (is_marked, others) = first_mark(left);
        left = others;
        add_unmarked(alloc, pairs, table, &row, is_marked)?;
    }
    Ok(())
}
