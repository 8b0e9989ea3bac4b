//! Pairs after the change of a row.

ghost use Rattle.std.specs.Prelude.{◌≡◌, ℕ, List, OnErr, OnOk, false, true};
ghost use Rattle.blog_later.specs.code.EventChanges.{image_changes};
ghost use Rattle.blog_merge.specs.Merge.{pairs_by_later, pairs_by_selected};
ghost use Rattle.blog_row.specs.Image.{row_of};
ghost use Rattle.blog_row.specs.code.RowsView.{row_seen};
ghost use Rattle.blog_trans.specs.Changes.{Deleted, Inserted, Updated};
ghost use Rattle.blog_pairs.specs.Steps.{pairs_with};
ghost use Rattle.blog_pairs.specs.code.ColumnsView.{columns_told};
ghost use Rattle.blog_pairs.specs.code.PairsView.{Fits, pairs_in, table_at};

use crate::changed::ChangedTable;
use crate::held::{HeldPair, HeldPairs};
use crate::places::place_of;
use crate::putting::{copied, copied_would, merged_would, put, would_at};
use blog_row::RowChange;
use std::alloc::{AllocError, Allocator};

/// Adds the row that a selected insert leaves: it wouldn't be there.
fn add_selected_insert<A: Allocator + Copy>(
    alloc: A,
    pairs: &mut HeldPairs<A>,
    table: &ChangedTable<'_>,
    after: &[u8],
) -> Result<(), AllocError>
    ensures done { (bodies : List (List ℕ)) → Fits bodies pairs.old table.now → OnOk result (pairs_in bodies pairs.new.slots.items
        ≡ pairs_by_selected (Inserted (table_at bodies table.now.number) (row_of (columns_told table.now.columns) after.now)) (pairs_in bodies pairs.old.slots.items)) }
    ensures failed { OnErr result (pairs.new.slots.items ≡ pairs.old.slots.items) }
    ensures fits { (bodies : List (List ℕ)) → Fits bodies pairs.old table.now → Fits bodies pairs.new table.now }
{
    let real = copied(alloc, after)?;
    let pair = HeldPair {
        table: table.number,
        real,
        would: None,
    };
    pairs.push(table.print(after), pair)
}

/// Adds a selected update: the row that it leaves would be what the one before it would be.
fn add_selected_update<A: Allocator + Copy>(
    alloc: A,
    pairs: &mut HeldPairs<A>,
    table: &ChangedTable<'_>,
    before: &[u8],
    after: &[u8],
) -> Result<(), AllocError>
    ensures done { (bodies : List (List ℕ)) → Fits bodies pairs.old table.now → OnOk result (pairs_in bodies pairs.new.slots.items
        ≡ pairs_by_selected (Updated (table_at bodies table.now.number) (row_of (columns_told table.now.columns) before.now) (row_of (columns_told table.now.columns) after.now)) (pairs_in bodies pairs.old.slots.items)) }
    ensures failed { OnErr result (pairs.new.slots.items ≡ pairs.old.slots.items) }
    ensures fits { (bodies : List (List ℕ)) → Fits bodies pairs.old table.now → Fits bodies pairs.new table.now }
{
    let place = place_of(pairs, table, before);
    let would = copied_would(alloc, would_at(&pairs.slots, place, before))?;
    let real = copied(alloc, after)?;
    let pair = HeldPair {
        table: table.number,
        real,
        would,
    };
    put(pairs, table, place, table.print(before), pair)
}

/// Adds an update of others: it is made to the row and to what the row would be.
fn add_later_update<A: Allocator + Copy>(
    alloc: A,
    pairs: &mut HeldPairs<A>,
    table: &ChangedTable<'_>,
    before: &[u8],
    after: &[u8],
) -> Result<(), AllocError>
    ensures done { (bodies : List (List ℕ)) → Fits bodies pairs.old table.now → OnOk result (pairs_in bodies pairs.new.slots.items
        ≡ pairs_by_later (Updated (table_at bodies table.now.number) (row_of (columns_told table.now.columns) before.now) (row_of (columns_told table.now.columns) after.now)) (pairs_in bodies pairs.old.slots.items)) }
    ensures failed { OnErr result (pairs.new.slots.items ≡ pairs.old.slots.items) }
    ensures fits { (bodies : List (List ℕ)) → Fits bodies pairs.old table.now → Fits bodies pairs.new table.now }
{
    let Some(slot) = place_of(pairs, table, before) else {
        return Ok(());
    };
    let other = would_at(&pairs.slots, Some(slot), before);
    let would = merged_would(alloc, &table.columns, before, after, other)?;
    let real = copied(alloc, after)?;
    let pair = HeldPair {
        table: table.number,
        real,
        would,
    };
    put(pairs, table, Some(slot), table.print(before), pair)
}

/// Adds a delete of others: the pair of the row is taken out.
fn add_later_delete<A: Allocator + Copy>(
    pairs: &mut HeldPairs<A>,
    table: &ChangedTable<'_>,
    before: &[u8],
)
    ensures done { (bodies : List (List ℕ)) → Fits bodies pairs.old table.now → pairs_in bodies pairs.new.slots.items
        ≡ pairs_by_later (Deleted (table_at bodies table.now.number) (row_of (columns_told table.now.columns) before.now)) (pairs_in bodies pairs.old.slots.items) }
    ensures fits { (bodies : List (List ℕ)) → Fits bodies pairs.old table.now → Fits bodies pairs.new table.now }
{
    match place_of(pairs, table, before) {
        Some(slot) => pairs.clear(slot, table.print(before)),
        None => {}
    }
}

/// Adds the selected change of a row. Fails if out of memory, and then nothing changes.
pub(crate) fn add_selected<A: Allocator + Copy>(
    alloc: A,
    pairs: &mut HeldPairs<A>,
    table: &ChangedTable<'_>,
    row: &RowChange<'_>,
) -> Result<(), AllocError>
    ensures done { (bodies : List (List ℕ)) → Fits bodies pairs.old table.now → OnOk result (pairs_in bodies pairs.new.slots.items
        ≡ pairs_with true (image_changes (table_at bodies table.now.number) (columns_told table.now.columns) (row_seen row.now).before (row_seen row.now).after) (pairs_in bodies pairs.old.slots.items)) }
    ensures failed { OnErr result (pairs.new.slots.items ≡ pairs.old.slots.items) }
    ensures fits { (bodies : List (List ℕ)) → Fits bodies pairs.old table.now → Fits bodies pairs.new table.now }
{
    match (row.before, row.after) {
        (None, None) | (Some(_), None) => Ok(()),
        (None, Some(after)) => add_selected_insert(alloc, pairs, table, after),
        (Some(before), Some(after)) => add_selected_update(alloc, pairs, table, before, after),
    }
}

/// Adds a change of others to a row. Fails if out of memory, and then nothing changes.
pub(crate) fn add_later<A: Allocator + Copy>(
    alloc: A,
    pairs: &mut HeldPairs<A>,
    table: &ChangedTable<'_>,
    row: &RowChange<'_>,
) -> Result<(), AllocError>
    ensures done { (bodies : List (List ℕ)) → Fits bodies pairs.old table.now → OnOk result (pairs_in bodies pairs.new.slots.items
        ≡ pairs_with false (image_changes (table_at bodies table.now.number) (columns_told table.now.columns) (row_seen row.now).before (row_seen row.now).after) (pairs_in bodies pairs.old.slots.items)) }
    ensures failed { OnErr result (pairs.new.slots.items ≡ pairs.old.slots.items) }
    ensures fits { (bodies : List (List ℕ)) → Fits bodies pairs.old table.now → Fits bodies pairs.new table.now }
{
    match (row.before, row.after) {
        (None, None) | (None, Some(_)) => Ok(()),
        (Some(before), None) => {
            add_later_delete(pairs, table, before);
            Ok(())
        }
        (Some(before), Some(after)) => add_later_update(alloc, pairs, table, before, after),
    }
}
