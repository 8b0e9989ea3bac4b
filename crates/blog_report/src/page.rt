//! A report as a page of HTML.

use crate::bars::bars_of;
use crate::html::{put_escaped, put_grouped};
use crate::page_picture::put_picture;
use crate::page_script::SCRIPT;
use crate::page_style::STYLE;
use crate::page_tables::put_tables;
use crate::page_units::put_units;
use crate::report::Report;
use blog_list::time_text;
use blog_text::{put_number, put_text};
use jiff::tz::TimeZone;
use std::alloc::{AllocError, Allocator};

/// At most so many bars are drawn.
const MOST_BARS: u32 = 2_000;

impl<A: Allocator + Copy> Report<A> {
    /// Appends the report as a page of HTML, with the names of the logs, in the order of their numbers, and with times as a
    /// clock in a time zone shows them. Fails if out of memory; then a part of the page may be appended.
    pub fn put_html(
        &self,
        out: &mut Vec<u8, A>,
        logs: &[&str],
        zone: TimeZone<'_>,
    ) -> Result<(), AllocError> {
        let bars = bars_of(self.alloc, &self.timeline, MOST_BARS)?;
        let lines = self.tables.lines(self.alloc)?;
        put_head(out, logs)?;
        put_heading(out, logs, zone)?;
        put_text(out, b"<main>\n")?;
        put_totals(out, self, zone)?;
        put_picture(out, self, &bars, &lines, zone)?;
        put_tables(out, self, &lines)?;
        put_units(out, self, logs, zone)?;
        put_text(out, b"</main>\n<script>\n")?;
        put_text(out, SCRIPT.as_bytes())?;
        put_text(out, b"</script>\n</body>\n</html>\n")
    }
}

/// Appends what stands in front of the page's text.
fn put_head<A: Allocator>(out: &mut Vec<u8, A>, logs: &[&str]) -> Result<(), AllocError> {
    put_text(
        out,
        b"<!DOCTYPE html>\n<html lang=\"en\">\n<head>\n<meta charset=\"utf-8\">\n",
    )?;
    put_text(
        out,
        b"<meta name=\"viewport\" content=\"width=device-width, initial-scale=1\">\n",
    )?;
    put_text(out, b"<title>Binary log report")?;
    if let Some(first) = logs.first() {
        put_text(out, b": ")?;
        put_escaped(out, first.as_bytes())?;
    }
    if logs.len() > 1 {
        put_text(out, b" and ")?;
        put_number(out, (logs.len() - 1) as u64)?;
        put_text(out, b" more")?;
    }
    put_text(out, b"</title>\n<style>\n")?;
    put_text(out, STYLE.as_bytes())?;
    put_text(out, b"</style>\n</head>\n<body>\n")
}

/// Appends the page's heading, the names of the logs, and which clock shows the times.
fn put_heading<A: Allocator>(
    out: &mut Vec<u8, A>,
    logs: &[&str],
    zone: TimeZone<'_>,
) -> Result<(), AllocError> {
    put_text(out, b"<header>\n<h1>Binary log report</h1>\n<p>")?;
    put_text(out, if logs.len() == 1 { b"Log: " } else { b"Logs:" })?;
    for log in logs {
        put_text(out, b" <code>")?;
        put_escaped(out, log.as_bytes())?;
        put_text(out, b"</code>")?;
    }
    put_text(out, b"</p>\n<p>")?;
    put_clock(out, zone)?;
    put_text(out, b"</p>\n</header>\n")
}

/// Appends which clock shows the times.
fn put_clock<A: Allocator>(out: &mut Vec<u8, A>, zone: TimeZone<'_>) -> Result<(), AllocError> {
    match zone.iana_name() {
        Some(name) => {
            put_text(out, b"Times are those of a clock in the time zone ")?;
            put_escaped(out, name.as_bytes())?;
            put_text(out, b".")
        }
        None => put_text(out, b"Times are those of the local clock."),
    }
}

/// Appends the totals.
fn put_totals<A: Allocator + Copy>(
    out: &mut Vec<u8, A>,
    report: &Report<A>,
    zone: TimeZone<'_>,
) -> Result<(), AllocError> {
    let totals = report.totals;
    put_text(out, b"<dl class=\"totals\">\n")?;
    put_total(out, b"", b"Transactions", totals.units)?;
    put_total(out, b"i", b"Rows inserted", totals.rows.inserts)?;
    put_total(out, b"u", b"Rows updated", totals.rows.updates)?;
    put_total(out, b"d", b"Rows deleted", totals.rows.deletes)?;
    put_total(out, b"", b"Can\xE2\x80\x99t be undone", totals.refused)?;
    if let Some((first, last)) = report.timeline.range() {
        put_end(out, b"First", first, zone)?;
        put_end(out, b"Last", last, zone)?;
    }
    put_text(out, b"</dl>\n")
}

/// Appends a number with its name, and a mark of its colour in the picture if it has one.
fn put_total<A: Allocator>(
    out: &mut Vec<u8, A>,
    kind: &[u8],
    name: &[u8],
    n: u64,
) -> Result<(), AllocError> {
    put_text(out, b"<div><dt>")?;
    if !kind.is_empty() {
        put_text(out, b"<span class=\"key ")?;
        put_text(out, kind)?;
        put_text(out, b"\"></span>")?;
    }
    put_text(out, name)?;
    put_text(out, b"</dt><dd>")?;
    put_grouped(out, n)?;
    put_text(out, b"</dd></div>\n")
}

/// Appends the first time or the last one.
fn put_end<A: Allocator>(
    out: &mut Vec<u8, A>,
    name: &[u8],
    time: u32,
    zone: TimeZone<'_>,
) -> Result<(), AllocError> {
    put_text(out, b"<div><dt>")?;
    put_text(out, name)?;
    put_text(out, b"</dt><dd class=\"time\">")?;
    put_text(out, time_text(zone, time).as_str().as_bytes())?;
    put_text(out, b"</dd></div>\n")
}
