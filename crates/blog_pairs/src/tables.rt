//! The tables of held pairs.

ghost use Rattle.std.specs.Prelude.{◌≡◌, ◌≢◌, ◌<◌, ◌∷◌, ◌++◌, [], ℕ, IfOk, IsOk, List, MatchOption, Ok, OnErr, OnOk, length};
ghost use Rattle.blog_row.specs.TableMap.{layout_of, map_names};
ghost use Rattle.blog_row.specs.code.LayoutView.{layout_columns};
ghost use Rattle.blog_trans.specs.Acceptance.{is_same_table};
ghost use Rattle.blog_trans.specs.Changes.{table_of};
ghost use Rattle.blog_pairs.specs.Tables.{AreApart, HasMore, IsNewTable, IsNumberOf};
ghost use Rattle.blog_pairs.specs.code.PairsView.{bodies_of, table_at};
ghost use Rattle.blog_pairs.specs.code.ChangedView.{IsTableOf};

use crate::changed::ChangedTable;
use crate::columns::Columns;
use crate::fault::PairFault;
use crate::held::HeldTable;
use crate::putting::copied;
use blog_later::table_hasher;
use blog_row::{Layout, TableMap};
use std::alloc::{AllocError, Allocator};

/// Returns whether a held table has the name of another.
#[tactic(auto, using(crate::proofs::Holding::has_names))]
fn is_same<A: Allocator>(held: &HeldTable<A>, table: &TableMap<'_>) -> bool
    ensures { result ≡ is_same_table (table_of held.now.body.items) (map_names table.now).table }
{
    let map = TableMap::known(&held.body);
    map.schema() == table.schema() && map.table() == table.table()
}

/// Returns the number of the held table with the name of another.
fn find_table<A: Allocator>(tables: &[HeldTable<A>], table: &TableMap<'_>) -> Option<usize>
    ensures { MatchOption result ((i : ℕ) → i < length tables.now → table_at (bodies_of tables.now) i ≢ (map_names table.now).table)
        (λ n. (n < length tables.now) × (table_at (bodies_of tables.now) n ≡ (map_names table.now).table)) }
{
    let mut n = 0;
    for held in tables {
        if is_same(held, table) {
            return Some(n);
        }
        n += 1;
    }
    None
}

/// Adds a table, by the body of its table map. Fails if out of memory, and then nothing changes.
fn add_table<A: Allocator + Copy>(
    alloc: A,
    tables: &mut Vec<HeldTable<A>, A>,
    body: &[u8],
) -> Result<(), AllocError>
    requires { IsOk (layout_of body.now) }
    ensures done { OnOk result (bodies_of tables.new.items ≡ bodies_of tables.old.items ++ body.now ∷ []) }
    ensures failed { OnErr result (bodies_of tables.new.items ≡ bodies_of tables.old.items) }
{
    let body = copied(alloc, body)?;
    tables.push(HeldTable { body, update: None })?;
    Ok(())
}

/// Returns the number of a held table, by the body of its table map; None if it isn't held. Fails with `OtherLayout` if it is held with other columns.
#[tactic(auto, using(crate::proofs::Holding::has_names))]
fn number_of<A: Allocator>(tables: &[HeldTable<A>], body: &[u8]) -> Result<Option<usize>, PairFault>
    requires { IsOk (layout_of body.now) }
    ensures { IfOk result (λ number. MatchOption number (IsNewTable (bodies_of tables.now) body.now) (IsNumberOf (bodies_of tables.now) body.now)) }
{
    let table = TableMap::known(body);
    match find_table(tables, &table) {
        Some(n) => {
            if Layout::known(&tables[n].body).same(&Layout::known(body)) {
                Ok(Some(n))
            } else {
                Err(PairFault::OtherLayout)
            }
        }
        None => Ok(None),
    }
}

/// Returns the number of a table, by the body of its table map. It is held from then on. Fails with `OtherLayout` if it is held with other columns, or
/// if out of memory.
fn hold_table<A: Allocator + Copy>(
    alloc: A,
    tables: &mut Vec<HeldTable<A>, A>,
    body: &[u8],
) -> Result<usize, PairFault>
    requires known { IsOk (layout_of body.now) }
    requires apart { AreApart (bodies_of tables.old.items) }
    ensures apart { AreApart (bodies_of tables.new.items) }
    ensures more { HasMore (bodies_of tables.old.items) (bodies_of tables.new.items) }
    ensures number { IfOk result (λ n. IsNumberOf (bodies_of tables.new.items) body.now n) }
{
    match number_of(tables, body)? {
        Some(n) => Ok(n),
        None => {
            let n = tables.len();
            add_table(alloc, tables, body)?;
            Ok(n)
        }
    }
}

/// Returns a table whose rows change, by its number, the body of its table map and its columns, for images of so many bytes together.
#[tactic(auto, using(crate::proofs::Holding::has_names))]
fn table_with<'b>(number: usize, body: &[u8], layout: &Layout<'b>, len: usize) -> ChangedTable<'b>
    requires { layout_of body.now ≡ Ok (layout_columns layout.now) }
    ensures { (bodies : List (List ℕ)) → IsNumberOf bodies body.now number → IsTableOf bodies body.now (layout_columns layout.now) result }
{
    ChangedTable {
        number,
        columns: Columns::new(layout, len),
        hasher: table_hasher(&TableMap::known(body)),
    }
}

/// Returns a table whose rows change, by the body of its table map and by its columns, for images of so many bytes together. It is held from then on.
/// Fails with `OtherLayout` if it is held with other columns, or if out of memory.
pub(crate) fn changed_table<'b, A: Allocator + Copy>(
    alloc: A,
    tables: &mut Vec<HeldTable<A>, A>,
    body: &[u8],
    layout: &Layout<'b>,
    len: usize,
) -> Result<ChangedTable<'b>, PairFault>
    requires known { layout_of body.now ≡ Ok (layout_columns layout.now) }
    requires apart { AreApart (bodies_of tables.old.items) }
    ensures apart { AreApart (bodies_of tables.new.items) }
    ensures more { HasMore (bodies_of tables.old.items) (bodies_of tables.new.items) }
    ensures table { IfOk result (λ table. IsTableOf (bodies_of tables.new.items) body.now (layout_columns layout.now) table) }
{
    let number = hold_table(alloc, tables, body)?;
    Ok(table_with(number, body, layout, len))
}

/// Returns a held table whose rows change, by the body of its table map and by its columns, for images of so many bytes together; None if it isn't
/// held. Fails with `OtherLayout` if it is held with other columns.
pub(crate) fn held_table<'b, A: Allocator>(
    tables: &[HeldTable<A>],
    body: &[u8],
    layout: &Layout<'b>,
    len: usize,
) -> Result<Option<ChangedTable<'b>>, PairFault>
    requires { layout_of body.now ≡ Ok (layout_columns layout.now) }
    ensures { IfOk result (λ held. MatchOption held (IsNewTable (bodies_of tables.now) body.now) (IsTableOf (bodies_of tables.now) body.now (layout_columns layout.now))) }
{
    match number_of(tables, body)? {
        Some(number) => Ok(Some(table_with(number, body, layout, len))),
        None => Ok(None),
    }
}
