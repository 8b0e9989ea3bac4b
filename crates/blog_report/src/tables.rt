//! The rows of tables.

ghost use Rattle.std.specs.Prelude.{◌≡◌, IfOk};
ghost use Rattle.blog_report.specs.code.TablesView.{table_key};

use crate::facts::TableRows;
use crate::seeded::SeededState;
use crate::sums::RowSums;
use indexmap::IndexMap;
use std::alloc::{AllocError, Allocator};

/// The bytes in front of the names in a table's key: how long the schema's name is.
const LENGTH_BYTES: usize = 8;

/// The rows of tables by their names, in the order in which they came.
#[derive(Drop)]
pub(crate) struct Tables<A: Allocator> {
    sums: IndexMap<Vec<u8, A>, RowSums, SeededState, A>,
}

/// A table, and its rows.
#[derive(Clone, Copy, Debug)]
pub(crate) struct TableLine {
    /// How many rows it lacks of the greatest number of 64 bits.
    pub(crate) fewer: u64,
    /// Its number, by the order in which the tables came.
    pub(crate) number: usize,
}

/// Returns the key of a table: the length of its schema's name, that name, and its own.
fn key_of<A: Allocator>(alloc: A, schema: &[u8], table: &[u8]) -> Result<Vec<u8, A>, AllocError>
    ensures { IfOk result (λ key. key.items ≡ table_key schema.now table.now) }
{
    let mut key = Vec::new(alloc);
    key.extend_from_slice(&(schema.len() as u64).to_be_bytes())?;
    key.extend_from_slice(schema)?;
    key.extend_from_slice(table)?;
    Ok(key)
}

impl<A: Allocator + Copy> Tables<A> {
    ghost use Rattle.std.specs.Prelude.{[], OnOk, unwrap_or};
    ghost use Rattle.indexmap.specs.IndexMap.{get};
    ghost use Rattle.blog_report.specs.Sums.{none};
    ghost use Rattle.blog_report.specs.code.TablesView.{AddsRows, same_key};

    /// No table.
    pub(crate) fn new(alloc: A, seed: u64) -> Tables<A>
        ensures { result.sums.entries ≡ [] }
    {
        Tables {
            sums: IndexMap::with_hasher(alloc, SeededState { seed }),
        }
    }

    /// How many tables there are.
    pub(crate) fn len(&self) -> usize {
        self.sums.len()
    }

    /// Returns the rows at a key.
    fn rows_at(&self, key: &Vec<u8, A>) -> RowSums
        ensures { result ≡ unwrap_or (get same_key self.now.sums key.now) none }
    {
        match self.sums.get(key) {
            Some(sums) => *sums,
            None => RowSums::none(),
        }
    }

    /// Adds rows of a table. Returns the table's number.
    pub(crate) fn add(&mut self, alloc: A, rows: &TableRows<'_>) -> Result<u32, AllocError>
        ensures { OnOk result (AddsRows (table_key rows.now.schema.now rows.now.table.now) rows.now.rows self.old self.new) }
    {
        let key = key_of(alloc, rows.schema, rows.table)?;
        let had = self.rows_at(&key);
        let (number, _) = self.sums.insert_full(key, had.plus(rows.rows))?;
        Ok(u32::try_from(number).unwrap_or(u32::MAX))
    }

    /// The table of a number, if there is one.
    pub(crate) fn table(&self, number: usize) -> Option<TableRows<'_>> {
        let (key, rows) = self.sums.get_index(number)?;
        let (length, names) = key.split_at_checked(LENGTH_BYTES)?;
        let length = u64::from_be_bytes(*length.first_chunk::<LENGTH_BYTES>()?);
        let (schema, table) = names.split_at_checked(length as usize)?;
        Some(TableRows {
            schema,
            table,
            rows: *rows,
        })
    }

    /// The tables, those with the most rows first.
    pub(crate) fn lines(&self, alloc: A) -> Result<Vec<TableLine, A>, AllocError> {
        let mut lines = Vec::new(alloc);
        let mut number = 0_usize;
        for rows in self.sums.values() {
            lines.push(TableLine {
                fewer: u64::MAX - rows.rows(),
                number,
            })?;
            number = number.saturating_add(1);
        }
        lines.sort_by_key(|line| line.fewer)?;
        Ok(lines)
    }
}
