//! The rows of tables by time.

ghost use Rattle.std.specs.Prelude.{◌≡◌, IfOk, OnOk, [], nat_eq, unwrap_or};
ghost use Rattle.indexmap.specs.IndexMap.{get};
ghost use Rattle.blog_report.specs.Cells.{added_at, cell_key, doubled, halved, interval_of, table_of};
ghost use Rattle.blog_report.specs.Sums.{none};

use crate::seeded::SeededState;
use crate::sums::RowSums;
use indexmap::IndexMap;
use std::alloc::{AllocError, Allocator};

/// The rows of tables in intervals of time, by keys that have the numbers of both.
pub(crate) type Cells<A> = IndexMap<u64, RowSums, SeededState, A>;

/// How many numbers of tables there are.
const TABLES: u64 = 1 << 32;

/// Returns the key of an interval, counted from 1970 on, and a table.
pub(crate) fn cell_key(interval: u32, table: u32) -> u64
    ensures { result ≡ cell_key interval table }
{
    u64::from(interval) * TABLES + u64::from(table)
}

/// Returns the interval of a key.
pub(crate) fn interval_of(key: u64) -> u32
    ensures { result ≡ interval_of key }
{
    (key / TABLES) as u32
}

/// Returns the table of a key.
pub(crate) fn table_of(key: u64) -> u32
    ensures { result ≡ table_of key }
{
    (key % TABLES) as u32
}

/// Returns the key of the same table in an interval twice as long.
fn halved(key: u64) -> u64
    ensures { result ≡ halved key }
{
    cell_key(interval_of(key) / 2, table_of(key))
}

/// No rows.
pub(crate) fn no_cells<A: Allocator + Copy>(alloc: A, seed: u64) -> Cells<A>
    ensures { result.entries ≡ [] }
{
    IndexMap::with_hasher(alloc, SeededState { seed })
}

/// Returns the rows at a key.
fn rows_at<A: Allocator>(cells: &Cells<A>, key: u64) -> RowSums
    ensures { result ≡ unwrap_or (get nat_eq cells.now key) none }
{
    match cells.get(&key) {
        Some(sums) => *sums,
        None => RowSums::none(),
    }
}

/// Adds rows at a key.
pub(crate) fn add_cell<A: Allocator + Copy>(
    cells: &mut Cells<A>,
    key: u64,
    rows: RowSums,
) -> Result<(), AllocError>
    ensures { OnOk result (cells.new.entries ≡ added_at nat_eq cells.old.entries key rows) }
{
    let had = rows_at(cells, key);
    cells.insert(key, had.plus(rows))?;
    Ok(())
}

/// Returns the same rows in intervals twice as long.
pub(crate) fn doubled<A: Allocator + Copy>(
    alloc: A,
    seed: u64,
    cells: &Cells<A>,
) -> Result<Cells<A>, AllocError>
    ensures { IfOk result (λ longer. longer.entries ≡ doubled cells.now.entries) }
{
    let mut longer = no_cells(alloc, seed);
    'cells: for (key, rows) in cells.iter() {
        add_cell(&mut longer, halved(*key), *rows)?;
    }
    Ok(longer)
}
