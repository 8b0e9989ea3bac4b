//! Tables of logs whose names come close to one that is asked for.

ghost use Rattle.std.specs.Prelude.{◌≡◌, ◌≤◌, Contains, IfOk, List, OnOk, length};
ghost use Rattle.blog_row.specs.TableMap.{Table};
ghost use Rattle.blog_reasons.specs.code.NamedView.{table_value};
ghost use Rattle.blog_reasons.specs.Near.{AreNear, near_table};

use crate::named::NamedTable;
use std::alloc::{AllocError, Allocator, Global};

/// How many tables are offered at most.
const MOST: usize = 5;

/// A table of a log whose name comes close to one that is asked for.
#[derive(Drop)]
pub struct NearTable<A: Allocator = Global> {
    schema: Vec<u8, A>,
    table: Vec<u8, A>,
    // How far it is from what is asked for: the nearest has the least.
    rank: usize,
}

impl<A: Allocator> NearTable<A> {
    /// Returns the bytes of the name of its schema.
    pub fn schema(&self) -> &[u8]
        ensures { result.now ≡ (near_table self.now).schema }
    {
        &self.schema
    }

    /// Returns the bytes of its own name.
    pub fn table(&self) -> &[u8]
        ensures { result.now ≡ (near_table self.now).name }
    {
        &self.table
    }
}

/// Copies a table's names.
fn copied<A: Allocator + Copy>(
    alloc: A,
    table: &NamedTable<'_>,
    rank: usize,
) -> Result<NearTable<A>, AllocError>
    ensures { IfOk result (λ near. near_table near ≡ table_value table.now) }
{
    Ok(NearTable {
        schema: table.schema.to_vec(alloc)?,
        table: table.table.to_vec(alloc)?,
        rank,
    })
}

/// Returns before which of the near tables one of this rank is: after those that are as near.
fn place_of<A: Allocator>(near: &[NearTable<A>], rank: usize) -> usize
    ensures { result ≤ length near.now }
{
    match near.iter().position(|other| rank < other.rank) {
        Some(place) => place,
        None => near.len(),
    }
}

/// Returns whether a table is among the near ones; where schemas alone are compared, whether one of its schema is.
fn has<A: Allocator>(near: &[NearTable<A>], table: &NamedTable<'_>, schemas_alone: bool) -> bool {
    near.iter().any(|other| {
        table.schema == other.schema.as_slice()
            && (schemas_alone || table.table == other.table.as_slice())
    })
}

/// Keeps a table of this rank if it is one of the nearest. Where schemas alone are compared, one table of each is kept.
pub(crate) fn keep_near<A: Allocator + Copy>(
    alloc: A,
    near: &mut Vec<NearTable<A>, A>,
    table: &NamedTable<'_>,
    rank: usize,
    schemas_alone: bool,
) -> Result<(), AllocError>
    ensures { (tables : List Table) → Contains tables (table_value table.now) → AreNear tables near.old.items → OnOk result (AreNear tables near.new.items) }
{
    let place = place_of(near, rank);
    if place >= MOST || has(near, table, schemas_alone) {
        return Ok(());
    }
    let copy = copied(alloc, table, rank)?;
    near.truncate(MOST - 1);
    near.insert(place, copy)?;
    Ok(())
}
