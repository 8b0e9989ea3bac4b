//! The rows of a unit by table, in the room of a line: the largest first, and as many as fit.

ghost use Rattle.std.specs.Prelude.{◌≡◌, ◌≤◌, ◌<◌, ◌+◌, ◌-◌, ◌++◌, IfOk, OnOk, length, map, min, take};
ghost use Rattle.std.specs.Option.{SomeIff};
ghost use Rattle.std.specs.List.{insert};
ghost use Rattle.blog_trans.specs.code.IndexView.{table_counted};
ghost use Rattle.blog_text.specs.Tables.{count_columns, count_text, counts_text, largest_first, many_text, more_text, next_columns, placed, rows_in, rows_text, tables_text};
ghost use Rattle.blog_text.specs.code.Counted.{counts_in};

use crate::escapes::{left_beside_name, put_table};
use crate::texts::{put_number, put_text};
use blog_trans::{Index, TableCount};
use itoa::Buffer;
use std::alloc::{AllocError, Allocator};

/// More tables than fit: each takes at least seven columns of at most 63.
const MOST_TABLES: usize = 10;

/// Appends the numbers of rows by table, in at most this many columns if the first table and the number of the others fit.
pub fn put_rows<A: Allocator + Copy, B: Allocator>(
    out: &mut Vec<u8, A>,
    room: usize,
    index: &Index<'_, '_, B>,
) -> Result<(), AllocError>
    requires { room ≤ 63 }
    ensures { OnOk result (out.new.items ≡ out.old.items ++ counts_text room (counts_in index.now)) }
{
    match index.tables() {
        0 => put_text(out, b"no rows"),
        1 => put_count(out, &index.table(0)),
        _ => {
            let largest = largest_of(*out.allocator(), index)?;
            put_largest(out, room, &largest, index)
        }
    }
}

/// Returns the largest tables, the largest first.
fn largest_of<'a, A: Allocator, B: Allocator>(
    alloc: A,
    index: &Index<'a, '_, B>,
) -> Result<Vec<TableCount<'a>, A>, AllocError>
    ensures largest { IfOk result (λ largest. map table_counted largest.items ≡ take 10 (largest_first (counts_in index.now))) }
    ensures len { IfOk result (λ largest. length largest.items ≡ min 10 (length (counts_in index.now))) }
{
    let tables = index.tables();
    let mut largest = Vec::with_capacity(alloc, MOST_TABLES + 1)?;
    'tables: for n in 0..tables {
        // from the last one on, so that of tables with as many rows the first comes first
        put_in_place(&mut largest, index.table(tables - 1 - n))?;
    }
    Ok(largest)
}

/// Puts a table in front of those of no more rows, and drops what is more than `MOST_TABLES`.
fn put_in_place<'a, A: Allocator>(
    largest: &mut Vec<TableCount<'a>, A>,
    count: TableCount<'a>,
) -> Result<(), AllocError>
    ensures { OnOk result (map table_counted largest.new.items ≡ take 10 (placed (table_counted count.entry) (map table_counted largest.old.items))) }
{
    let place = place_in(largest, &count);
    largest.insert(place, count)?;
    largest.truncate(MOST_TABLES);
    Ok(())
}

/// Returns how many tables stay in front of a table, in a list with the largest first.
fn place_in(largest: &[TableCount<'_>], count: &TableCount<'_>) -> usize
    ensures placed { insert (map table_counted largest.now) result (table_counted count.now) ≡ placed (table_counted count.now) (map table_counted largest.now) }
    ensures within { result ≤ length largest.now }
{
    let rows = rows_in(count);
    'place: for i in 0..largest.len() {
        if rows_in(&largest[i]) <= rows {
            return i;
        }
    }
    largest.len()
}

/// Returns how many rows of a table are changed.
fn rows_in(count: &TableCount<'_>) -> u128
    ensures { result ≡ rows_in (table_counted count.now) }
{
    count.inserts as u128 + count.updates as u128 + count.deletes as u128
}

/// Appends the first of the largest tables, as many more as fit, and how many others there are.
fn put_largest<A: Allocator, B: Allocator>(
    out: &mut Vec<u8, A>,
    room: usize,
    largest: &[TableCount<'_>],
    index: &Index<'_, '_, B>,
) -> Result<(), AllocError>
    requires room { room ≤ 63 }
    requires some { 0 < length (counts_in index.now) }
    requires len { length largest.now ≡ min 10 (length (counts_in index.now)) }
    requires largest { map table_counted largest.now ≡ take 10 (largest_first (counts_in index.now)) }
    ensures { OnOk result (out.new.items ≡ out.old.items ++ counts_text room (counts_in index.now)) }
{
    let tables = index.tables();
    put_count(out, &largest[0])?;
    let mut left = left_beside(room, &largest[0]).unwrap_or(0);
    'further: for n in 1..largest.len() {
        let Some(more) = left_beside_next(left, &largest[n], tables - n - 1) else {
            return put_more(out, tables - n);
        };
        put_text(out, b"; ")?;
        put_count(out, &largest[n])?;
        left = more;
    }
    put_more(out, tables - largest.len())
}

/// Returns how many columns of these are left beside a further table, if it fits with the number of the others behind it.
fn left_beside_next(columns: usize, count: &TableCount<'_>, others: usize) -> Option<usize>
    ensures { SomeIff result (next_columns (table_counted count.now) + length (more_text others) ≤ columns) (columns - next_columns (table_counted count.now)) }
{
    let left = left_beside(columns.checked_sub(2)?, count)?;
    if more_len(others) <= left {
        Some(left)
    } else {
        None
    }
}

/// Returns how many columns of these are left beside a table, if it fits.
fn left_beside(columns: usize, count: &TableCount<'_>) -> Option<usize>
    ensures { SomeIff result (count_columns (table_counted count.now) ≤ columns) (columns - count_columns (table_counted count.now)) }
{
    let left = left_beside_name(columns, count.schema)?;
    let left = left_beside_name(left.checked_sub(1)?, count.table)?;
    let left = left.checked_sub(some_len(b" inserts ", count.inserts))?;
    let left = left.checked_sub(some_len(b" updates ", count.updates))?;
    left.checked_sub(some_len(b" deletes ", count.deletes))
}

/// Returns how long words and a number are, where that isn't 0.
fn some_len(words: &[u8], n: u64) -> usize
    ensures { result ≡ length (rows_text words.now n) }
{
    if n == 0 {
        return 0;
    }
    let mut buffer = Buffer::new();
    words.len() + buffer.format(n).len()
}

/// Returns how long the number of tables is that aren't shown.
fn more_len(tables: usize) -> usize
    ensures { result ≡ length (more_text tables) }
{
    match tables {
        0 => 0,
        1 => 14,
        _ => {
            let mut buffer = Buffer::new();
            14 + buffer.format(tables).len()
        }
    }
}

/// Appends how many tables aren't shown, if there are any.
fn put_more<A: Allocator>(out: &mut Vec<u8, A>, tables: usize) -> Result<(), AllocError>
    ensures { OnOk result (out.new.items ≡ out.old.items ++ more_text tables) }
{
    match tables {
        0 => Ok(()),
        1 => put_text(out, b"; 1 more table"),
        _ => put_many(out, tables),
    }
}

/// Appends how many tables aren't shown, where these are several.
fn put_many<A: Allocator>(out: &mut Vec<u8, A>, tables: usize) -> Result<(), AllocError>
    ensures { OnOk result (out.new.items ≡ out.old.items ++ many_text tables) }
{
    put_text(out, b"; ")?;
    put_number(out, tables as u64)?;
    put_text(out, b" more tables")
}

/// Appends the names of a table, and the numbers of its rows.
pub fn put_count<A: Allocator>(
    out: &mut Vec<u8, A>,
    count: &TableCount<'_>,
) -> Result<(), AllocError>
    ensures { OnOk result (out.new.items ≡ out.old.items ++ count_text (table_counted count.now)) }
{
    put_table(out, count.schema, count.table)?;
    put_some(out, b" inserts ", count.inserts)?;
    put_some(out, b" updates ", count.updates)?;
    put_some(out, b" deletes ", count.deletes)
}

/// Appends words and a number, where it isn't 0.
fn put_some<A: Allocator>(out: &mut Vec<u8, A>, words: &[u8], n: u64) -> Result<(), AllocError>
    ensures { OnOk result (out.new.items ≡ out.old.items ++ rows_text words.now n) }
{
    if n == 0 {
        return Ok(());
    }
    put_text(out, words)?;
    put_number(out, n)
}
