//! A report as lines for a terminal.

use crate::bars::{Bars, bars_of};
use crate::line_units::put_unit_lines;
use crate::page_tables::MOST_TABLES;
use crate::report::Report;
use crate::sums::RowSums;
use crate::tables::TableLine;
use blog_list::time_text;
use blog_text::{put_escaped, put_number, put_table, put_text};
use itoa::Buffer;
use jiff::tz::TimeZone;
use std::alloc::{AllocError, Allocator};

/// At most so many lines show rows by time.
const MOST_LINES: u32 = 60;

/// How many columns the longest bar has: beside a time and three numbers of 20 digits a line has 120 columns.
const BAR_COLUMNS: u64 = 33;

/// How many columns a number has at least.
const NUMBER_COLUMNS: usize = 9;

impl<A: Allocator + Copy> Report<A> {
    /// Appends the report as lines, with the names of the logs, in the order of their numbers, and with times as a clock in a
    /// time zone shows them. No control character is among them. Fails if out of memory; then a part may be appended.
    pub fn put_lines(
        &self,
        out: &mut Vec<u8, A>,
        logs: &[&str],
        zone: TimeZone<'_>,
    ) -> Result<(), AllocError> {
        let bars = bars_of(self.alloc, &self.timeline, MOST_LINES)?;
        let lines = self.tables.lines(self.alloc)?;
        put_logs(out, logs)?;
        put_totals(out, self)?;
        put_range(out, self, zone)?;
        put_times(out, self, &bars, zone)?;
        put_tables(out, self, &lines)?;
        put_unit_lines(out, self, logs, zone)
    }
}

/// Appends the names of the logs.
fn put_logs<A: Allocator>(out: &mut Vec<u8, A>, logs: &[&str]) -> Result<(), AllocError> {
    for log in logs {
        put_text(out, b"log ")?;
        put_escaped(out, log.as_bytes())?;
        put_text(out, b"\n")?;
    }
    Ok(())
}

/// Appends words and a number.
fn put_numbered<A: Allocator>(
    out: &mut Vec<u8, A>,
    words: &[u8],
    n: u64,
) -> Result<(), AllocError> {
    put_text(out, words)?;
    put_number(out, n)
}

/// Appends the totals.
fn put_totals<A: Allocator>(out: &mut Vec<u8, A>, report: &Report<A>) -> Result<(), AllocError> {
    let totals = report.totals;
    put_numbered(out, b"transactions ", totals.units)?;
    put_numbered(out, b", not undoable ", totals.refused)?;
    put_numbered(out, b"\nrows inserted ", totals.rows.inserts)?;
    put_numbered(out, b", updated ", totals.rows.updates)?;
    put_numbered(out, b", deleted ", totals.rows.deletes)?;
    put_text(out, b"\n")
}

/// Appends the first time and the last one, and which clock shows them.
fn put_range<A: Allocator + Copy>(
    out: &mut Vec<u8, A>,
    report: &Report<A>,
    zone: TimeZone<'_>,
) -> Result<(), AllocError> {
    let Some((first, last)) = report.timeline.range() else {
        return put_text(out, b"no time is known\n");
    };
    put_text(out, b"from ")?;
    put_text(out, time_text(zone, first).as_str().as_bytes())?;
    put_text(out, b" to ")?;
    put_text(out, time_text(zone, last).as_str().as_bytes())?;
    match zone.iana_name() {
        Some(name) => {
            put_text(out, b" (")?;
            put_escaped(out, name.as_bytes())?;
            put_text(out, b")\n")
        }
        None => put_text(out, b" (local time)\n"),
    }
}

/// Appends a number behind blanks.
fn put_padded<A: Allocator>(out: &mut Vec<u8, A>, n: u64) -> Result<(), AllocError> {
    let mut buffer = Buffer::new();
    let digits = buffer.format(n).as_bytes();
    'blanks: for _ in digits.len()..NUMBER_COLUMNS {
        put_text(out, b" ")?;
    }
    put_text(out, digits)
}

/// Appends numbers of rows in columns.
fn put_columns<A: Allocator>(out: &mut Vec<u8, A>, rows: RowSums) -> Result<(), AllocError> {
    put_padded(out, rows.inserts)?;
    put_text(out, b" ")?;
    put_padded(out, rows.updates)?;
    put_text(out, b" ")?;
    put_padded(out, rows.deletes)
}

/// Returns how many columns the bar of so many rows has, where the most are that of the longest.
fn bar_of(rows: u64, most: u64) -> u64 {
    if rows == 0 || most == 0 {
        return 0;
    }
    let columns = match rows.checked_mul(BAR_COLUMNS) {
        Some(scaled) => scaled / most,
        None => rows / (most / BAR_COLUMNS).max(1),
    };
    columns.max(1).min(BAR_COLUMNS)
}

/// Appends the rows by time.
fn put_times<A: Allocator + Copy>(
    out: &mut Vec<u8, A>,
    report: &Report<A>,
    bars: &Bars<A>,
    zone: TimeZone<'_>,
) -> Result<(), AllocError> {
    put_numbered(out, b"\nRows by time, a line for ", u64::from(bars.seconds))?;
    put_text(
        out,
        if bars.seconds == 1 {
            b" second\n"
        } else {
            b" seconds\n"
        },
    )?;
    put_text(out, b"time                 inserted   updated   deleted\n")?;
    let most = bars.most_rows();
    'bars: for n in 0..bars.sums.len() {
        put_text(out, time_text(zone, bars.start_of(n)).as_str().as_bytes())?;
        put_text(out, b" ")?;
        put_columns(out, bars.sums[n])?;
        put_bar(out, bar_of(bars.sums[n].rows(), most))?;
    }
    put_untimed(out, report.timeline.untimed())
}

/// Appends a bar, and ends the line.
fn put_bar<A: Allocator>(out: &mut Vec<u8, A>, columns: u64) -> Result<(), AllocError> {
    if columns > 0 {
        put_text(out, b" ")?;
    }
    'bar: for _ in 0..columns {
        put_text(out, b"#")?;
    }
    put_text(out, b"\n")
}

/// Appends the rows whose time isn't known, if there are any.
fn put_untimed<A: Allocator>(out: &mut Vec<u8, A>, rows: RowSums) -> Result<(), AllocError> {
    if rows.rows() == 0 {
        return Ok(());
    }
    put_text(out, b"time unknown        ")?;
    put_columns(out, rows)?;
    put_text(out, b"\n")
}

/// Appends the rows by table, those with the most rows first.
fn put_tables<A: Allocator + Copy>(
    out: &mut Vec<u8, A>,
    report: &Report<A>,
    lines: &[TableLine],
) -> Result<(), AllocError> {
    put_text(
        out,
        b"\nRows by table\n inserted   updated   deleted  table\n",
    )?;
    let mut others = RowSums::none();
    let mut left_out = 0_u64;
    'lines: for n in 0..lines.len() {
        if let Some(table) = report.tables.table(lines[n].number) {
            if n < MOST_TABLES {
                put_columns(out, table.rows)?;
                put_text(out, b"  ")?;
                put_table(out, table.schema, table.table)?;
                put_text(out, b"\n")?;
            } else {
                others = others.plus(table.rows);
                left_out = left_out.saturating_add(1);
            }
        }
    }
    if left_out > 0 {
        put_columns(out, others)?;
        put_numbered(out, b"  ", left_out)?;
        put_text(out, b" more tables\n")?;
    }
    Ok(())
}
