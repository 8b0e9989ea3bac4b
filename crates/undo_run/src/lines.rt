//! The lines that say where a part was changed since, and what of it isn't known.

use crate::log_names::Names;
use crate::since::Place;
use blog_later::{Looked, TouchedRows};
use blog_list::time_text;
use blog_row::RowsAction;
use blog_source::Source;
use blog_text::{put_escaped, put_number, put_table, put_text};
use jiff::tz::TimeZone;
use std::alloc::{AllocError, Allocator};

/// How many rows events have a line, and how many units that may concern the tables.
const MOST: usize = 20;

/// The lines that say where a part was changed since, and what of it isn't known.
#[derive(Drop)]
pub(crate) struct Lines<'z, A: Allocator> {
    /// In which times are told.
    zone: TimeZone<'z>,
    /// Those of rows events that take rows of the part.
    touched: Vec<u8, A>,
    /// How many these are.
    events: usize,
    /// Those of units that may concern the part's tables.
    unknown: Vec<u8, A>,
    /// How many these are.
    units: usize,
    /// How many more units there are.
    more: u64,
    /// Those of logs that are damaged.
    damage: Vec<u8, A>,
}

impl<'z, A: Allocator + Copy> Lines<'z, A> {
    /// None. Times will be told in a zone.
    pub(crate) fn none(alloc: A, zone: TimeZone<'z>) -> Lines<'z, A> {
        Lines {
            zone,
            touched: Vec::new(alloc),
            events: 0,
            unknown: Vec::new(alloc),
            units: 0,
            more: 0,
            damage: Vec::new(alloc),
        }
    }

    /// Appends the lines of one more log, or of several that are read as one.
    pub(crate) fn put<N: Allocator, B: Allocator, C: Allocator>(
        &mut self,
        logs: &Names<'_, N>,
        source: &Source<B>,
        looked: &Looked<'_, C>,
    ) -> Result<(), AllocError> {
        for rows in &looked.first {
            self.put_rows(&logs.place(source.place(rows.at)), rows)?;
        }
        for at in &looked.unknown {
            self.put_unit(&logs.place(source.place(*at)))?;
        }
        if source.fault().is_some() {
            put_place(&mut self.damage, &logs.place(source.end()))?;
            put_text(
                &mut self.damage,
                b": the log is damaged, or ends inside an event\n",
            )?;
        }
        Ok(())
    }

    /// Appends the line of a rows event, unless enough have one.
    fn put_rows(&mut self, place: &Place<'_>, rows: &TouchedRows<'_>) -> Result<(), AllocError> {
        if self.events >= MOST {
            return Ok(());
        }
        self.events = self.events.saturating_add(1);
        put_touched(&mut self.touched, self.zone, place, rows)
    }

    /// Appends the line of a unit, or counts it if enough have one.
    fn put_unit(&mut self, place: &Place<'_>) -> Result<(), AllocError> {
        if self.units >= MOST {
            self.more = self.more.saturating_add(1);
            return Ok(());
        }
        self.units = self.units.saturating_add(1);
        put_unknown(&mut self.unknown, place)
    }

    /// Returns them all.
    pub(crate) fn text(&self, alloc: A) -> Result<Vec<u8, A>, AllocError> {
        let mut out = Vec::new(alloc);
        put_text(&mut out, &self.touched)?;
        put_text(&mut out, &self.unknown)?;
        if self.more > 0 {
            put_text(&mut out, b"and ")?;
            put_number(&mut out, self.more)?;
            put_text(&mut out, b" more\n")?;
        }
        put_text(&mut out, &self.damage)?;
        Ok(out)
    }
}

/// What is done to rows that were changed since.
fn action_text(action: RowsAction) -> &'static [u8] {
    match action {
        RowsAction::Write => b": insert\n",
        RowsAction::Update => b": update\n",
        RowsAction::Delete => b": delete\n",
    }
}

/// Appends the name of a log, and a place in it.
fn put_place<A: Allocator>(out: &mut Vec<u8, A>, place: &Place<'_>) -> Result<(), AllocError> {
    put_escaped(out, place.name)?;
    put_text(out, b" ")?;
    put_number(out, u64::from(place.at))
}

/// Appends the line of a rows event that takes rows of a part, with its time.
fn put_touched<A: Allocator>(
    out: &mut Vec<u8, A>,
    zone: TimeZone<'_>,
    place: &Place<'_>,
    rows: &TouchedRows<'_>,
) -> Result<(), AllocError> {
    put_place(out, place)?;
    put_text(out, b" ")?;
    put_text(out, time_text(zone, rows.time).as_str().as_bytes())?;
    put_text(out, b" ")?;
    put_table(out, rows.schema, rows.table)?;
    put_text(out, action_text(rows.action))
}

/// Appends the line of a unit that may concern the tables of a part.
fn put_unknown<A: Allocator>(out: &mut Vec<u8, A>, place: &Place<'_>) -> Result<(), AllocError> {
    put_place(out, place)?;
    put_text(
        out,
        b": may change these tables, and can't be looked into\n",
    )
}
