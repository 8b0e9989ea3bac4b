//! What a report knows of logs.

use crate::facts::{TableRows, UnitFact};
use crate::ranking::Ranking;
use crate::sums::RowSums;
use crate::tables::Tables;
use crate::timeline::Timeline;
use std::alloc::{AllocError, Allocator};

/// So many units that can't be undone are listed.
const MOST_REFUSED: usize = 20;

/// A unit that can't be undone, and why.
#[derive(Drop)]
pub(crate) struct Refused<A: Allocator> {
    /// The unit.
    pub(crate) unit: UnitFact,
    /// The name of its fault.
    pub(crate) why: Vec<u8, A>,
}

/// Numbers of units and of rows, each at most the greatest number of 64 bits.
#[derive(Clone, Copy, Debug, PartialEq, Eq)]
pub struct ReportTotals {
    /// How many units can be undone.
    pub units: u64,
    /// How many can't.
    pub refused: u64,
    /// How many rows the units change.
    pub rows: RowSums,
}

/// What a report knows of logs: when rows were inserted, updated and deleted, and of which table, and which units are the
/// largest, the longest, or can't be undone. It takes no more memory for more units, but for more tables.
#[derive(Drop)]
pub struct Report<A: Allocator> {
    pub(crate) alloc: A,
    pub(crate) totals: ReportTotals,
    pub(crate) tables: Tables<A>,
    pub(crate) timeline: Timeline<A>,
    pub(crate) largest: Ranking<A>,
    pub(crate) longest: Ranking<A>,
    pub(crate) refused: Vec<Refused<A>, A>,
}

impl<A: Allocator + Copy> Report<A> {
    ghost use Rattle.std.specs.Prelude.{◌≡◌, ◌+◌, OnOk};
    ghost use Rattle.blog_report.specs.Ranking.{kept};
    ghost use Rattle.blog_report.specs.Said.{nothing_said, with_refusal, with_rows, with_unit};
    ghost use Rattle.blog_report.specs.Sums.{at_most, none, plus, rows_in};
    ghost use Rattle.blog_report.specs.code.RankingView.{measured, ranked_units};
    ghost use Rattle.blog_report.specs.code.ReportView.{HasTotals, IsWhole, said_of, told_of, with_refused};
    ghost use Rattle.blog_report.specs.code.TablesView.{AddsRows, table_key};

    /// Of no log. `seed` is the seed of the hashes of tables. The picture's bars stand for intervals of so many seconds, or of
    /// one; these are doubled where there would be more than 2,000 bars, or more than 240.
    pub fn new(alloc: A, seed: u64, interval: Option<u32>) -> Report<A>
        ensures totals { HasTotals 0 0 none result }
        ensures whole { IsWhole result }
        ensures said { said_of result ≡ nothing_said }
    {
        Report {
            alloc,
            totals: ReportTotals {
                units: 0,
                refused: 0,
                rows: RowSums::none(),
            },
            tables: Tables::new(alloc, seed),
            timeline: Timeline::new(alloc, seed, interval),
            largest: Ranking::new(alloc),
            longest: Ranking::new(alloc),
            refused: Vec::new(alloc),
        }
    }

    /// What was added, in numbers.
    pub fn totals(&self) -> ReportTotals
        ensures { result ≡ self.now.totals }
    {
        self.totals
    }

    /// Adds the rows of a table that a unit changes, whose first statement was written at a time, in seconds since 1970; 0 where
    /// that isn't known. Fails if out of memory; then the report may have a part of them.
    pub fn add_rows(&mut self, time: u32, rows: &TableRows<'_>) -> Result<(), AllocError>
        ensures totals { OnOk result (HasTotals self.old.totals.units self.old.totals.refused (plus self.old.totals.rows rows.now.rows) self.new) }
        ensures whole { IsWhole self.old → OnOk result (IsWhole self.new) }
        ensures tables { OnOk result (AddsRows (table_key rows.now.schema.now rows.now.table.now) rows.now.rows self.old.tables self.new.tables) }
        ensures said { OnOk result (said_of self.new ≡ with_rows (table_key rows.now.schema.now rows.now.table.now) rows.now.rows (said_of self.old)) }
    {
        let table = self.tables.add(self.alloc, rows)?;
        self.timeline.add(time, table, rows.rows)?;
        self.totals.rows = self.totals.rows.plus(rows.rows);
        Ok(())
    }

    /// Adds a unit. Its rows count for its rank alone. Fails if out of memory.
    pub fn add_unit(&mut self, unit: &UnitFact) -> Result<(), AllocError>
        ensures totals { OnOk result (HasTotals (at_most (self.old.totals.units + 1)) self.old.totals.refused self.old.totals.rows self.new) }
        ensures whole { IsWhole self.old → IsWhole self.new }
        ensures largest { OnOk result (ranked_units self.new.largest ≡ kept (measured (rows_in unit.now.rows) unit.now) (ranked_units self.old.largest)) }
        ensures longest { OnOk result (ranked_units self.new.longest ≡ kept (measured unit.now.seconds unit.now) (ranked_units self.old.longest)) }
        ensures said { OnOk result (said_of self.new ≡ with_unit unit.now (said_of self.old)) }
    {
        self.timeline.note(unit.time)?;
        self.largest.add(unit.rows.rows(), unit)?;
        self.longest.add(u64::from(unit.seconds), unit)?;
        self.totals.units = self.totals.units.saturating_add(1);
        Ok(())
    }

    /// Adds a unit that can't be undone, and the name of its fault. Fails if out of memory.
    pub fn add_refused(&mut self, unit: &UnitFact, why: &[u8]) -> Result<(), AllocError>
        ensures totals { OnOk result (HasTotals self.old.totals.units (at_most (self.old.totals.refused + 1)) self.old.totals.rows self.new) }
        ensures whole { IsWhole self.old → IsWhole self.new }
        ensures first { OnOk result (told_of self.new.refused.items ≡ with_refused unit.now why.now (told_of self.old.refused.items)) }
        ensures said { OnOk result (said_of self.new ≡ with_refusal unit.now (said_of self.old)) }
    {
        self.timeline.note(unit.time)?;
        if self.refused.len() < MOST_REFUSED {
            let why = Vec::from_slice(self.alloc, why)?;
            self.refused.push(Refused { unit: *unit, why })?;
        }
        self.totals.refused = self.totals.refused.saturating_add(1);
        Ok(())
    }
}
