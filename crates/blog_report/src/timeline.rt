//! The rows of tables in intervals of time that grow with the log.

use crate::cells::{Cells, add_cell, cell_key, doubled, no_cells};
use crate::sums::RowSums;
use std::alloc::{AllocError, Allocator};

/// An interval is doubled where there are more intervals than this, if the caller gave none.
const MOST_INTERVALS: u32 = 240;

/// The same, if the caller gave one.
const MOST_GIVEN: u32 = 2_000;

/// No interval of seconds of 32 bits is doubled more often.
const MOST_DOUBLINGS: u32 = 32;

/// The rows of tables in intervals of time.
#[derive(Drop)]
pub(crate) struct Timeline<A: Allocator> {
    alloc: A,
    seed: u64,
    /// The rows whose time is known.
    cells: Cells<A>,
    /// The others.
    untimed: RowSums,
    /// How many seconds an interval has.
    interval: u32,
    /// How many intervals there are at most.
    most: u32,
    /// The first time and the last one, if any is known.
    range: Option<(u32, u32)>,
}

/// How many intervals of so many seconds there are from one time to another.
fn count_of(first: u32, last: u32, interval: u32) -> u32 {
    if interval == 0 {
        return 0;
    }
    (last / interval)
        .saturating_sub(first / interval)
        .saturating_add(1)
}

impl<A: Allocator + Copy> Timeline<A> {
    ghost use Rattle.std.specs.Prelude.{◌≡◌, OnOk};
    ghost use Rattle.blog_report.specs.Sums.{none, plus};
    ghost use Rattle.blog_report.specs.code.TimelineView.{timeline_rows};

    /// Without rows. It begins with intervals of so many seconds, or of one.
    pub(crate) fn new(alloc: A, seed: u64, interval: Option<u32>) -> Timeline<A>
        ensures { timeline_rows result ≡ none }
    {
        let (interval, most) = match interval {
            Some(seconds) => (seconds.max(1), MOST_GIVEN),
            None => (1, MOST_INTERVALS),
        };
        Timeline {
            alloc,
            seed,
            cells: no_cells(alloc, seed),
            untimed: RowSums::none(),
            interval,
            most,
            range: None,
        }
    }

    /// The first time and the last one, if any is known.
    pub(crate) fn range(&self) -> Option<(u32, u32)> {
        self.range
    }

    /// The rows whose time isn't known.
    pub(crate) fn untimed(&self) -> RowSums {
        self.untimed
    }

    /// How many seconds an interval has.
    pub(crate) fn interval(&self) -> u32 {
        self.interval
    }

    /// The rows by interval and table.
    pub(crate) fn cells(&self) -> &Cells<A> {
        &self.cells
    }

    /// Takes a time into the range, if it is known, and doubles the interval until there aren't too many.
    pub(crate) fn note(&mut self, time: u32) -> Result<(), AllocError>
        ensures { timeline_rows self.new ≡ timeline_rows self.old }
    {
        if time == 0 {
            return Ok(());
        }
        let (first, last) = match self.range {
            Some((first, last)) => (first.min(time), last.max(time)),
            None => (time, time),
        };
        self.range = Some((first, last));
        'doublings: for _ in 0..MOST_DOUBLINGS {
            if count_of(first, last, self.interval) <= self.most {
                return Ok(());
            }
            self.double()?;
        }
        Ok(())
    }

    /// Doubles the interval. If memory runs out, nothing changes.
    #[tactic(auto, using(crate::proofs::AllRows::doubled_rows))]
    fn double(&mut self) -> Result<(), AllocError>
        ensures { timeline_rows self.new ≡ timeline_rows self.old }
    {
        self.cells = doubled(self.alloc, self.seed, &self.cells)?;
        self.interval = self.interval.saturating_mul(2);
        Ok(())
    }

    /// Adds rows of the table of a number at a time.
    #[tactic(auto, using(crate::proofs::AllRows::cell_drawn, crate::proofs::AllRows::untimed_drawn))]
    pub(crate) fn add(&mut self, time: u32, table: u32, rows: RowSums) -> Result<(), AllocError>
        ensures { OnOk result (timeline_rows self.new ≡ plus (timeline_rows self.old) rows) }
    {
        self.note(time)?;
        if time == 0 || self.interval == 0 {
            self.untimed = self.untimed.plus(rows);
            return Ok(());
        }
        let key = cell_key(time / self.interval, table);
        add_cell(&mut self.cells, key, rows)
    }
}
