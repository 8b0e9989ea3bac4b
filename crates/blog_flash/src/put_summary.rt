//! How many rows of each table groups insert, update and delete, as text.

ghost use Rattle.std.specs.Prelude.{◌≡◌, ◌+◌, ◌≤◌, ◌++◌, length, IfOk, OnOk, IsOk, vec_len, vec_capacity};
ghost use Rattle.std.specs.Fmt.{decimal};
ghost use Rattle.std.specs.List.{flat_map};
ghost use Rattle.blog_trans.specs.Changes.{counts_of};
ghost use Rattle.blog_trans.specs.Groups.{groups};
ghost use Rattle.blog_trans.specs.code.IndexView.{index_bytes, index_selection, table_counted};
ghost use Rattle.blog_flash.specs.Printed.{line, count_line, summary_text};

use crate::printed::{put_number, put_table, put_text};
use blog_trans::{Index, TableCount};
use std::alloc::{AllocError, Allocator};

/// Appends words, a number and the end of the line.
fn put_total<A: Allocator>(out: &mut Vec<u8, A>, words: &[u8], n: usize) -> Result<(), AllocError>
    ensures ok { OnOk result (out.new.items ≡ out.old.items ++ line (words.now ++ decimal n)) }
    ensures room { vec_len out.old + length (line (words.now ++ decimal n)) ≤ vec_capacity out.old → IsOk result }
    ensures capacity { vec_capacity out.old ≤ vec_capacity out.new }
{
    put_text(out, words)?;
    put_number(out, n as u64)?;
    put_text(out, b"\n")
}

/// Appends words and a number.
fn put_count<A: Allocator>(out: &mut Vec<u8, A>, words: &[u8], n: u64) -> Result<(), AllocError>
    ensures ok { OnOk result (out.new.items ≡ out.old.items ++ (words.now ++ decimal n)) }
    ensures room { vec_len out.old + length (words.now ++ decimal n) ≤ vec_capacity out.old → IsOk result }
    ensures capacity { vec_capacity out.old ≤ vec_capacity out.new }
{
    put_text(out, words)?;
    put_number(out, n)
}

/// Appends the numbers of a table's rows.
fn put_table_count<A: Allocator>(
    out: &mut Vec<u8, A>,
    count: &TableCount<'_>,
) -> Result<(), AllocError>
    ensures ok { OnOk result (out.new.items ≡ out.old.items ++ count_line (table_counted count.now)) }
    ensures room { vec_len out.old + length (count_line (table_counted count.now)) ≤ vec_capacity out.old → IsOk result }
    ensures capacity { vec_capacity out.old ≤ vec_capacity out.new }
{
    put_table(out, count.schema, count.table)?;
    put_count(out, b" inserts ", count.inserts)?;
    put_count(out, b" updates ", count.updates)?;
    put_count(out, b" deletes ", count.deletes)?;
    put_text(out, b"\n")
}

/// Appends the numbers of each table's rows.
fn put_counts<A: Allocator, B: Allocator>(
    out: &mut Vec<u8, A>,
    index: &Index<'_, '_, B>,
) -> Result<(), AllocError>
    ensures ok { OnOk result (out.new.items ≡ out.old.items ++ flat_map count_line (counts_of (groups (index_bytes index.now) (index_selection index.now)))) }
    ensures room { vec_len out.old + length (flat_map count_line (counts_of (groups (index_bytes index.now) (index_selection index.now)))) ≤ vec_capacity out.old → IsOk result }
    ensures capacity { vec_capacity out.old ≤ vec_capacity out.new }
{
    for n in 0..index.tables() {
        put_table_count(out, &index.table(n))?;
    }
    Ok(())
}

/// The groups of an index in numbers; an error where memory was refused.
pub(crate) fn put_summary<A: Allocator, B: Allocator>(
    alloc: A,
    index: &Index<'_, '_, B>,
) -> Result<Vec<u8, A>, AllocError>
    ensures { IfOk result (λ text. text.items ≡ summary_text (groups (index_bytes index.now) (index_selection index.now))) }
{
    let mut out = Vec::new(alloc);
    put_total(&mut out, b"transactions ", index.transactions())?;
    put_total(&mut out, b"statements ", index.all_statements())?;
    put_counts(&mut out, index)?;
    Ok(out)
}
