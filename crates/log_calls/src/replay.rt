//! Tables of rows, to which the changes of a log are applied.

use blog_event::Log;
use blog_row::{Layout, Order, TableMap};
use blog_trans::{GroupEvent, GroupRows, Selection, index};
use std::alloc::{AllocError, Global};
use std::collections::BTreeMap;
use std::test::Fail;

/// A row of a table: the values of its columns, none where one is NULL.
#[derive(Debug, PartialEq, Eq, PartialOrd, Ord, Drop)]
pub struct Row<'a> {
    schema: &'a [u8],
    table: &'a [u8],
    values: Vec<Option<&'a [u8]>>,
}

/// A change of a row: what is taken away, and what is added.
#[derive(Debug, Drop)]
pub struct Change<'a> {
    before: Option<Row<'a>>,
    after: Option<Row<'a>>,
}

/// Why changes can't be applied.
#[derive(Clone, Copy, Debug, PartialEq, Eq)]
pub enum ReplayFault {
    /// A row is to be taken away that isn't there.
    MissingRow,
    /// Memory was refused.
    OutOfMemory,
}

impl From<AllocError> for ReplayFault {
    fn from(_refused: AllocError) -> ReplayFault {
        ReplayFault::OutOfMemory
    }
}

/// How many copies of each row there are. A row without copies isn't in it.
#[derive(PartialEq, Drop)]
pub struct Tables<'r, 'a> {
    copies: BTreeMap<&'r Row<'a>, u64>,
}

/// The changes of a log's groups, by transaction and in order.
pub fn changes_of<'a>(
    alloc: Global,
    bytes: &'a [u8],
    sel: &Selection<'_>,
) -> Result<Vec<Vec<Change<'a>>>, Fail> {
    let log = Log::open(bytes)?;
    let index = index(alloc, &log, sel)?;
    let mut transactions = Vec::new(alloc);
    for event in index.in_turn(Order::Forward) {
        match event {
            GroupEvent::Begin(_) => transactions.push(Vec::new(alloc))?,
            GroupEvent::Rows(rows) => {
                let changes = transactions.last_mut().ok_or("rows before any BEGIN")?;
                put_changes(changes, &rows)?;
            }
            GroupEvent::Map(_) | GroupEvent::End(_) => {}
        }
    }
    Ok(transactions)
}

/// Appends the changes of a rows event.
fn put_changes<'a>(changes: &mut Vec<Change<'a>>, rows: &GroupRows<'a>) -> Result<(), Fail> {
    let alloc = *changes.allocator();
    let layout = rows.rows.layout();
    for row in rows.rows.rows() {
        let before = row_of(alloc, &rows.table, &layout, row.before)?;
        let after = row_of(alloc, &rows.table, &layout, row.after)?;
        changes.push(Change { before, after })?;
    }
    Ok(())
}

/// The row of an image, none where there is no image.
fn row_of<'a>(
    alloc: Global,
    map: &TableMap<'a>,
    layout: &Layout<'a>,
    image: Option<&'a [u8]>,
) -> Result<Option<Row<'a>>, Fail> {
    let Some(image) = image else {
        return Ok(None);
    };
    let mut values = Vec::new(alloc);
    for column in 0..layout.columns() {
        let value = layout.value(image, column).ok_or("no such column")?;
        values.push(value)?;
    }
    Ok(Some(Row {
        schema: map.schema(),
        table: map.table(),
        values,
    }))
}

impl<'r, 'a> Tables<'r, 'a> {
    /// No rows.
    pub fn new(alloc: Global) -> Self {
        Tables {
            copies: BTreeMap::new(alloc),
        }
    }

    /// Adds a copy of a row.
    fn add(&mut self, row: &'r Row<'a>) -> Result<(), AllocError> {
        let copies = self.copies.entry(row)?.or_insert(0);
        *copies = copies.saturating_add(1);
        Ok(())
    }

    /// Takes a copy of a row away, and answers whether there was one.
    fn remove(&mut self, row: &'r Row<'a>) -> bool {
        let Some(copies) = self.copies.get_mut(&row) else {
            return false;
        };
        *copies = copies.saturating_sub(1);
        if *copies == 0 {
            let _ = self.copies.remove(&row);
        }
        true
    }

    /// Applies the changes of transactions in order.
    pub fn apply(&mut self, transactions: &'r [Vec<Change<'a>>]) -> Result<(), ReplayFault> {
        for change in transactions.iter().flatten() {
            self.change(change)?;
        }
        Ok(())
    }

    fn change(&mut self, change: &'r Change<'a>) -> Result<(), ReplayFault> {
        if let Some(row) = &change.before {
            if !self.remove(row) {
                return Err(ReplayFault::MissingRow);
            }
        }
        if let Some(row) = &change.after {
            self.add(row)?;
        }
        Ok(())
    }

    /// The fewest rows to which the changes of transactions can be applied.
    pub fn least(alloc: Global, transactions: &'r [Vec<Change<'a>>]) -> Result<Self, ReplayFault> {
        let mut least = Tables::new(alloc);
        let mut tables = Tables::new(alloc);
        for change in transactions.iter().flatten() {
            tables.change_with(&mut least, change)?;
        }
        Ok(least)
    }

    /// Applies a change; a row that isn't there is added to those that must have been there before.
    fn change_with(
        &mut self,
        least: &mut Tables<'r, 'a>,
        change: &'r Change<'a>,
    ) -> Result<(), ReplayFault> {
        if let Some(row) = &change.before {
            if !self.remove(row) {
                least.add(row)?;
            }
        }
        if let Some(row) = &change.after {
            self.add(row)?;
        }
        Ok(())
    }

    /// How many copies there are of each row of one column, by its value, in the order of the rows.
    pub fn counts(&self, alloc: Global) -> Result<Vec<(u8, u64)>, AllocError> {
        let mut counts = Vec::new(alloc);
        for (row, copies) in &self.copies {
            if let [Some([value, ..])] = row.values.as_slice() {
                counts.push((*value, *copies))?;
            }
        }
        Ok(counts)
    }
}
