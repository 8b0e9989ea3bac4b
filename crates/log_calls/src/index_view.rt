//! What the index of a log shows, in one list.

ghost use Rattle.std.specs.Prelude.{IsSome};
ghost use Rattle.blog_trans.specs.code.IndexView.{index_groups, statement_at};

use blog_event::{Fault, Log};
use blog_row::RowsAction;
use blog_trans::{Index, Selection, TableCount, index};
use std::alloc::Global;

/// A part of the groups, with where its event begins.
#[derive(Clone, Copy, Debug, PartialEq, Eq)]
pub enum Shown {
    Begin(u32),
    Statement,
    /// A table map, with its table id.
    Map(u32, u64),
    /// A rows event, with the table id of its map, what it does and how many rows it has.
    Rows(u32, u64, RowsAction, usize),
    End(u32),
}

/// The groups of a log under a selection, one part after the other, or the log's fault.
pub fn groups_of(
    rt: &impl AllocGlobal,
    bytes: &[u8],
    sel: &Selection<'_>,
) -> Result<Vec<Shown>, Fault> {
    let log = Log::open(bytes)?;
    let index = index(rt.alloc(), &log, sel)?;
    let mut groups = Vec::new(rt.alloc());
    for t in 0..index.transactions() {
        groups.push(Shown::Begin(index.begin(t).pos))?;
        for s in 0..index.statements(t) {
            groups.push(Shown::Statement)?;
            show_statement(&mut groups, &index, t, s)?;
        }
        groups.push(Shown::End(index.end(t).pos))?;
    }
    Ok(groups)
}

fn show_statement(
    groups: &mut Vec<Shown>,
    index: &Index<'_, '_, Global>,
    t: usize,
    s: usize,
) -> Result<(), Fault>
    requires { IsSome (statement_at (index_groups index.now) t s) }
{
    for m in 0..index.maps(t, s) {
        let (event, map) = index.map(t, s, m);
        groups.push(Shown::Map(event.pos, map.id()))?;
    }
    for r in 0..index.rows(t, s) {
        let (event, map, rows) = index.rows_event(t, s, r);
        let count = rows.rows().count();
        groups.push(Shown::Rows(event.pos, map.id(), rows.kind().action, count))?;
    }
    Ok(())
}

/// The fault of a log under a selection, none where it is accepted.
pub fn fault_of(rt: &impl AllocGlobal, bytes: &[u8], sel: &Selection<'_>) -> Option<Fault> {
    groups_of(rt, bytes, sel).err()
}

/// Where the entries of a log's index begin.
pub fn entries_of(
    rt: &impl AllocGlobal,
    bytes: &[u8],
    sel: &Selection<'_>,
) -> Result<Vec<u32>, Fault> {
    let log = Log::open(bytes)?;
    let index = index(rt.alloc(), &log, sel)?;
    let mut starts = Vec::new(rt.alloc());
    for entry in index.entries() {
        starts.push(entry.at())?;
    }
    Ok(starts)
}

/// The tables of a log's groups, with their numbers of rows.
pub fn tables_of<'a>(
    rt: &impl AllocGlobal,
    bytes: &'a [u8],
    sel: &Selection<'_>,
) -> Result<Vec<TableCount<'a>>, Fault> {
    let log = Log::open(bytes)?;
    let index = index(rt.alloc(), &log, sel)?;
    let mut tables = Vec::new(rt.alloc());
    for n in 0..index.tables() {
        tables.push(index.table(n))?;
    }
    Ok(tables)
}
