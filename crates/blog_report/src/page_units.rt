//! The largest and the longest units on the page, and those that can't be undone.

use crate::facts::UnitFact;
use crate::html::{put_escaped, put_grouped};
use crate::ranking::Ranked;
use crate::report::{Refused, Report};
use crate::shell::{put_show, put_undo};
use crate::sums::RowSums;
use blog_list::time_text;
use blog_text::{put_number, put_text};
use jiff::tz::TimeZone;
use std::alloc::{AllocError, Allocator};

/// Appends the lists of units.
pub(crate) fn put_units<A: Allocator + Copy>(
    out: &mut Vec<u8, A>,
    report: &Report<A>,
    logs: &[&str],
    zone: TimeZone<'_>,
) -> Result<(), AllocError> {
    put_text(out, b"<section>\n<h2>Largest transactions</h2>\n")?;
    put_ranked(out, report.alloc, report.largest.ranked(), logs, zone)?;
    put_text(
        out,
        b"</section>\n<section>\n<h2>Longest transactions</h2>\n",
    )?;
    put_ranked(out, report.alloc, report.longest.ranked(), logs, zone)?;
    put_text(
        out,
        b"</section>\n<section>\n<h2>What can\xE2\x80\x99t be undone</h2>\n",
    )?;
    put_refused(out, report, logs, zone)?;
    put_text(out, b"</section>\n")
}

/// Appends units of a ranking.
fn put_ranked<A: Allocator + Copy>(
    out: &mut Vec<u8, A>,
    alloc: A,
    ranked: &[Ranked],
    logs: &[&str],
    zone: TimeZone<'_>,
) -> Result<(), AllocError> {
    if ranked.is_empty() {
        return put_text(out, b"<p>None.</p>\n");
    }
    put_text(out, b"<ol class=\"units\">\n")?;
    for one in ranked {
        let log = log_of(logs, one.unit.log);
        put_text(out, b"<li>\n")?;
        put_facts(out, &one.unit, log, zone)?;
        put_numbers(out, one.unit.rows)?;
        put_command(out, alloc, Command::Show, &one.unit, log)?;
        put_command(out, alloc, Command::Undo, &one.unit, log)?;
        put_text(out, b"</li>\n")?;
    }
    put_text(out, b"</ol>\n")
}

/// Returns the name of a log, or no text if there is none of the number.
pub(crate) fn log_of<'l>(logs: &[&'l str], number: usize) -> &'l str {
    match logs.get(number) {
        Some(name) => name,
        None => "",
    }
}

/// Appends the units that can't be undone.
fn put_refused<A: Allocator + Copy>(
    out: &mut Vec<u8, A>,
    report: &Report<A>,
    logs: &[&str],
    zone: TimeZone<'_>,
) -> Result<(), AllocError> {
    if report.refused.is_empty() {
        return put_text(out, b"<p>Each transaction can be undone.</p>\n");
    }
    if report.totals.refused > report.refused.len() as u64 {
        put_text(out, b"<p>The first ")?;
        put_number(out, report.refused.len() as u64)?;
        put_text(out, b" of ")?;
        put_grouped(out, report.totals.refused)?;
        put_text(out, b":</p>\n")?;
    }
    put_text(out, b"<ol class=\"units\">\n")?;
    for one in &report.refused {
        put_one_refused(out, report.alloc, one, logs, zone)?;
    }
    put_text(out, b"</ol>\n")
}

/// Appends a unit that can't be undone.
fn put_one_refused<A: Allocator + Copy>(
    out: &mut Vec<u8, A>,
    alloc: A,
    one: &Refused<A>,
    logs: &[&str],
    zone: TimeZone<'_>,
) -> Result<(), AllocError> {
    let log = log_of(logs, one.unit.log);
    put_text(out, b"<li>\n")?;
    put_facts(out, &one.unit, log, zone)?;
    put_text(out, b"<p class=\"why\">")?;
    put_escaped(out, &one.why)?;
    put_text(out, b"</p>\n")?;
    put_command(out, alloc, Command::Show, &one.unit, log)?;
    put_text(out, b"</li>\n")
}

/// Appends when and where a unit is, its connection, how long it took and how large it is.
fn put_facts<A: Allocator>(
    out: &mut Vec<u8, A>,
    unit: &UnitFact,
    log: &str,
    zone: TimeZone<'_>,
) -> Result<(), AllocError> {
    put_text(out, b"<p class=\"facts\"><b class=\"time\">")?;
    if unit.time == 0 {
        put_text(out, b"time unknown")?;
    } else {
        put_text(out, time_text(zone, unit.time).as_str().as_bytes())?;
    }
    put_text(out, b"</b> <span>at ")?;
    put_number(out, u64::from(unit.position))?;
    put_text(out, b" of <bdi>")?;
    put_escaped(out, log.as_bytes())?;
    put_text(out, b"</bdi></span>")?;
    if let Some(thread) = unit.thread {
        put_text(out, b" <span>thread ")?;
        put_number(out, u64::from(thread))?;
        put_text(out, b"</span>")?;
    }
    put_text(out, b" <span>took ")?;
    put_duration(out, unit.seconds)?;
    put_text(out, b"</span> <span>")?;
    put_grouped(out, unit.bytes)?;
    put_text(out, b" bytes</span></p>\n")
}

/// Appends a number of seconds as hours, minutes and seconds.
pub(crate) fn put_duration<A: Allocator>(
    out: &mut Vec<u8, A>,
    seconds: u32,
) -> Result<(), AllocError> {
    if seconds >= 3600 {
        put_number(out, u64::from(seconds / 3600))?;
        put_text(out, b" h ")?;
    }
    if seconds >= 60 {
        put_number(out, u64::from(seconds / 60 % 60))?;
        put_text(out, b" min ")?;
    }
    put_number(out, u64::from(seconds % 60))?;
    put_text(out, b" s")
}

/// Appends how many rows a unit changes.
fn put_numbers<A: Allocator>(out: &mut Vec<u8, A>, rows: RowSums) -> Result<(), AllocError> {
    put_text(out, b"<p class=\"rows\">")?;
    put_kind(out, b"i", rows.inserts, b"inserted")?;
    put_kind(out, b"u", rows.updates, b"updated")?;
    put_kind(out, b"d", rows.deletes, b"deleted")?;
    put_text(out, b"</p>\n")
}

/// Appends how many rows are changed in one way.
fn put_kind<A: Allocator>(
    out: &mut Vec<u8, A>,
    kind: &[u8],
    n: u64,
    word: &[u8],
) -> Result<(), AllocError> {
    put_text(out, b"<span><span class=\"key ")?;
    put_text(out, kind)?;
    put_text(out, b"\"></span>")?;
    put_grouped(out, n)?;
    put_text(out, b" ")?;
    put_text(out, word)?;
    put_text(out, b"</span> ")
}

/// Which command is printed.
#[derive(Clone, Copy)]
enum Command {
    /// The one that shows a unit.
    Show,
    /// The one that writes SQL that undoes it.
    Undo,
}

/// Appends a command to copy.
fn put_command<A: Allocator + Copy>(
    out: &mut Vec<u8, A>,
    alloc: A,
    command: Command,
    unit: &UnitFact,
    log: &str,
) -> Result<(), AllocError> {
    let mut line = Vec::new(alloc);
    match command {
        Command::Show => put_show(&mut line, unit.position, log.as_bytes())?,
        Command::Undo => put_undo(&mut line, unit.position, log.as_bytes())?,
    }
    put_text(out, b"<p class=\"command\"><code>")?;
    put_escaped(out, &line)?;
    put_text(out, b"</code></p>\n")
}
