//! The picture on the page: a bar for each interval, and what a script needs to draw a part of it.

use crate::bars::{Bars, add_at};
use crate::cells::{interval_of, table_of};
use crate::html::put_grouped;
use crate::page_tables::put_table_name;
use crate::report::Report;
use crate::sums::RowSums;
use crate::tables::TableLine;
use blog_list::time_text;
use blog_text::{put_number, put_text};
use jiff::tz::TimeZone;
use std::alloc::{AllocError, Allocator};

/// So many tables can be looked at one by one; the others stand together.
const MOST_CHOICES: usize = 12;

/// How many of them that are, with the others together.
const SLOTS: usize = 13;

/// How high the picture is.
const HEIGHT: u64 = 1_000;

/// How high a bar of any rows is at least.
const LEAST: u64 = 12;

/// There is room for at least so many bars.
const LEAST_BARS: usize = 12;

/// How many times stand below the picture, without the last one.
const TICKS: usize = 4;

/// Appends the picture.
pub(crate) fn put_picture<A: Allocator + Copy>(
    out: &mut Vec<u8, A>,
    report: &Report<A>,
    bars: &Bars<A>,
    lines: &[TableLine],
    zone: TimeZone<'_>,
) -> Result<(), AllocError> {
    put_text(out, b"<section>\n<h2>Rows by time</h2>\n")?;
    if bars.sums.is_empty() || lines.is_empty() {
        return put_text(
            out,
            b"<p>No rows are changed at a time that is known.</p>\n</section>\n",
        );
    }
    put_legend(out)?;
    put_controls(out, report, lines)?;
    put_text(out, b"<div class=\"chart\">\n")?;
    let top = top_of(bars.most_rows());
    put_rows_axis(out, top)?;
    put_bars(out, bars, top, zone)?;
    put_time_axis(out, bars, zone)?;
    put_text(out, b"</div>\n")?;
    put_caption(out, report, bars)?;
    put_data(out, report, bars, lines, zone)?;
    put_text(out, b"</section>\n")
}

/// Appends what the colours mean.
fn put_legend<A: Allocator>(out: &mut Vec<u8, A>) -> Result<(), AllocError> {
    put_text(
        out,
        b"<p class=\"legend\">From the bottom: <span><span class=\"key d\"></span>deleted</span> ",
    )?;
    put_text(out, b"<span><span class=\"key u\"></span>updated</span> ")?;
    put_text(
        out,
        b"<span><span class=\"key i\"></span>inserted</span></p>\n",
    )
}

/// Appends the choices of a part, which are shown only where scripts run.
fn put_controls<A: Allocator + Copy>(
    out: &mut Vec<u8, A>,
    report: &Report<A>,
    lines: &[TableLine],
) -> Result<(), AllocError> {
    put_text(
        out,
        b"<form id=\"part\" hidden>\n<label>Table <select name=\"table\"><option value=\"-1\">all tables</option>",
    )?;
    'lines: for n in 0..lines.len().min(MOST_CHOICES) {
        if let Some(table) = report.tables.table(lines[n].number) {
            put_text(out, b"<option value=\"")?;
            put_number(out, n as u64)?;
            put_text(out, b"\">")?;
            put_table_name(out, table.schema, table.table)?;
            put_text(out, b"</option>")?;
        }
    }
    if lines.len() > MOST_CHOICES {
        put_text(out, b"<option value=\"12\">all other tables</option>")?;
    }
    put_text(
        out,
        b"</select></label>\n<span class=\"kinds\"><label><input type=\"checkbox\" name=\"d\" checked> deleted</label>\n",
    )?;
    put_text(
        out,
        b"<label><input type=\"checkbox\" name=\"u\" checked> updated</label>\n",
    )?;
    put_text(
        out,
        b"<label><input type=\"checkbox\" name=\"i\" checked> inserted</label></span>\n",
    )?;
    put_text(
        out,
        b"<label>From <input type=\"range\" name=\"from\"> <output name=\"start\"></output></label>\n",
    )?;
    put_text(
        out,
        b"<label>To <input type=\"range\" name=\"to\"> <output name=\"end\"></output></label>\n",
    )?;
    put_text(out, b"<button type=\"reset\">Show all</button>\n</form>\n")
}

/// Returns the number of rows at the top of the picture: a digit and zeros, and at least this many.
fn top_of(most: u64) -> u64 {
    let mut power = 1_u64;
    for _ in 0..20_u32 {
        if most <= power.saturating_mul(9) {
            return first_multiple(most, power);
        }
        power = power.saturating_mul(10);
    }
    power
}

/// Returns the least of the first nine multiples of a power of ten that isn't less than a number, without 7 and 9.
fn first_multiple(most: u64, power: u64) -> u64 {
    for times in [1, 2, 3, 4, 5, 6, 8_u64] {
        if most <= power.saturating_mul(times) {
            return power.saturating_mul(times);
        }
    }
    power.saturating_mul(10)
}

/// Returns how high a bar of so many rows is.
fn height_of(rows: u64, top: u64) -> u64 {
    if rows == 0 || top == 0 {
        return 0;
    }
    let height = match rows.checked_mul(HEIGHT) {
        Some(scaled) => scaled / top,
        None => rows / (top / HEIGHT).max(1),
    };
    height.max(LEAST).min(HEIGHT)
}

/// Appends the numbers of rows beside the picture.
fn put_rows_axis<A: Allocator>(out: &mut Vec<u8, A>, top: u64) -> Result<(), AllocError> {
    put_text(out, b"<div class=\"rows-axis\" aria-hidden=\"true\"><span>")?;
    put_grouped(out, top)?;
    put_text(out, b"</span><span>")?;
    if top % 2 == 0 {
        put_grouped(out, top / 2)?;
    }
    put_text(out, b"</span><span>0</span></div>\n")
}

/// Appends the bars.
fn put_bars<A: Allocator>(
    out: &mut Vec<u8, A>,
    bars: &Bars<A>,
    top: u64,
    zone: TimeZone<'_>,
) -> Result<(), AllocError> {
    put_text(out, b"<svg class=\"plot\" viewBox=\"0 -36 ")?;
    put_number(out, bars.sums.len().max(LEAST_BARS) as u64)?;
    put_text(
        out,
        b" 1036\" preserveAspectRatio=\"none\" role=\"img\" aria-label=\"Rows deleted, updated and inserted by time\">\n",
    )?;
    'bars: for n in 0..bars.sums.len() {
        let sums = bars.sums[n];
        if sums.rows() > 0 {
            put_bar(out, n, sums, bars.start_of(n), top, zone)?;
        }
    }
    put_text(out, b"</svg>\n")
}

/// Appends a bar.
fn put_bar<A: Allocator>(
    out: &mut Vec<u8, A>,
    place: usize,
    sums: RowSums,
    start: u32,
    top: u64,
    zone: TimeZone<'_>,
) -> Result<(), AllocError> {
    put_text(out, b"<g><title>")?;
    put_text(out, time_text(zone, start).as_str().as_bytes())?;
    put_text(out, b": ")?;
    put_grouped(out, sums.deletes)?;
    put_text(out, b" deleted, ")?;
    put_grouped(out, sums.updates)?;
    put_text(out, b" updated, ")?;
    put_grouped(out, sums.inserts)?;
    put_text(out, b" inserted</title>")?;
    put_block(out, b"h", place, HEIGHT, HEIGHT)?;
    let base = put_part(out, b"d", place, HEIGHT, height_of(sums.deletes, top))?;
    let base = put_part(out, b"u", place, base, height_of(sums.updates, top))?;
    put_part(out, b"i", place, base, height_of(sums.inserts, top))?;
    put_text(out, b"</g>\n")
}

/// Appends a part of a bar, of a height, above a base that is counted from the top. Returns the next part's base.
fn put_part<A: Allocator>(
    out: &mut Vec<u8, A>,
    kind: &[u8],
    place: usize,
    base: u64,
    height: u64,
) -> Result<u64, AllocError> {
    if height > 0 {
        put_block(out, kind, place, base, height)?;
    }
    Ok(base.saturating_sub(height))
}

/// Appends a rectangle.
fn put_block<A: Allocator>(
    out: &mut Vec<u8, A>,
    kind: &[u8],
    place: usize,
    base: u64,
    height: u64,
) -> Result<(), AllocError> {
    put_text(out, b"<path class=\"")?;
    put_text(out, kind)?;
    put_text(out, b"\" d=\"M")?;
    put_number(out, place as u64)?;
    put_text(out, b" ")?;
    put_number(out, base)?;
    put_text(out, b"v-")?;
    put_number(out, height)?;
    put_text(out, b"h.86v")?;
    put_number(out, height)?;
    put_text(out, b"z\"/>")
}

/// Appends the times below the picture.
fn put_time_axis<A: Allocator>(
    out: &mut Vec<u8, A>,
    bars: &Bars<A>,
    zone: TimeZone<'_>,
) -> Result<(), AllocError> {
    let count = bars.sums.len().max(LEAST_BARS);
    put_text(out, b"<div class=\"time-axis\" aria-hidden=\"true\">")?;
    'ticks: for n in 0..=TICKS {
        put_text(out, b"<span>")?;
        let bar = count.saturating_mul(n) / TICKS;
        put_text(out, time_text(zone, bars.start_of(bar)).as_str().as_bytes())?;
        put_text(out, b"</span>")?;
    }
    put_text(out, b"</div>\n")
}

/// Appends what a bar stands for.
fn put_caption<A: Allocator + Copy>(
    out: &mut Vec<u8, A>,
    report: &Report<A>,
    bars: &Bars<A>,
) -> Result<(), AllocError> {
    put_text(out, b"<p class=\"caption\">A bar stands for ")?;
    put_grouped(out, u64::from(bars.seconds))?;
    put_text(
        out,
        if bars.seconds == 1 {
            b" second."
        } else {
            b" seconds"
        },
    )?;
    put_text(out, if bars.seconds == 1 { b"" } else { b"." })?;
    put_text(
        out,
        b" Parts with few rows are drawn higher than they are, so that they can be seen.",
    )?;
    let untimed = report.timeline.untimed().rows();
    if untimed > 0 {
        put_text(out, b" The time of ")?;
        put_grouped(out, untimed)?;
        put_text(
            out,
            b" rows isn\xE2\x80\x99t known: they aren\xE2\x80\x99t in the picture.",
        )?;
    }
    put_text(out, b" <span id=\"sum\" role=\"status\"></span></p>\n")
}

/// Returns which choice each table belongs to.
fn slots_of<A: Allocator + Copy>(
    alloc: A,
    report: &Report<A>,
    lines: &[TableLine],
) -> Result<Vec<usize, A>, AllocError> {
    let mut slots = vec![in alloc; MOST_CHOICES; report.tables.len()]?;
    'lines: for n in 0..lines.len().min(MOST_CHOICES) {
        if let Some(slot) = slots.get_mut(lines[n].number) {
            *slot = n;
        }
    }
    Ok(slots)
}

/// Appends the rows by bar and choice, and when each bar begins, for the script. There are no names in it.
fn put_data<A: Allocator + Copy>(
    out: &mut Vec<u8, A>,
    report: &Report<A>,
    bars: &Bars<A>,
    lines: &[TableLine],
    zone: TimeZone<'_>,
) -> Result<(), AllocError> {
    let count = bars.sums.len();
    let slots = slots_of(report.alloc, report, lines)?;
    let mut parts = vec![in report.alloc; RowSums::none(); count.saturating_mul(SLOTS)]?;
    for (key, rows) in report.timeline.cells().iter() {
        let slot = slots
            .get(table_of(*key) as usize)
            .copied()
            .unwrap_or(MOST_CHOICES);
        let bar = bars.place_of(interval_of(*key));
        add_at(
            &mut parts,
            bar.saturating_mul(SLOTS).saturating_add(slot),
            *rows,
        );
    }
    put_text(
        out,
        b"<script type=\"application/json\" id=\"data\">{\"times\":[",
    )?;
    'times: for n in 0..=count.max(LEAST_BARS) {
        put_text(out, if n > 0 { b",\"" } else { b"\"" })?;
        put_text(out, time_text(zone, bars.start_of(n)).as_str().as_bytes())?;
        put_text(out, b"\"")?;
    }
    put_text(out, b"],\"bars\":")?;
    put_number(out, count as u64)?;
    put_text(out, b",\"parts\":[\n")?;
    put_parts(out, &parts)?;
    put_text(out, b"]}</script>\n")
}

/// Appends the rows by bar and choice.
fn put_parts<A: Allocator>(out: &mut Vec<u8, A>, parts: &[RowSums]) -> Result<(), AllocError> {
    let mut is_first = true;
    'parts: for n in 0..parts.len() {
        let rows = parts[n];
        if rows.rows() > 0 {
            if !is_first {
                put_text(out, b",\n")?;
            }
            is_first = false;
            put_one_part(out, n, rows)?;
        }
    }
    Ok(())
}

/// Appends the rows of a choice in a bar.
fn put_one_part<A: Allocator>(
    out: &mut Vec<u8, A>,
    n: usize,
    rows: RowSums,
) -> Result<(), AllocError> {
    put_text(out, b"[")?;
    put_number(out, (n / SLOTS) as u64)?;
    put_text(out, b",")?;
    put_number(out, (n % SLOTS) as u64)?;
    put_text(out, b",")?;
    put_number(out, rows.deletes)?;
    put_text(out, b",")?;
    put_number(out, rows.updates)?;
    put_text(out, b",")?;
    put_number(out, rows.inserts)?;
    put_text(out, b"]")
}
