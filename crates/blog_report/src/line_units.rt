//! The largest and the longest units as lines for a terminal, and those that can't be undone.

use crate::facts::UnitFact;
use crate::page_units::{log_of, put_duration};
use crate::ranking::Ranked;
use crate::report::{Refused, Report};
use crate::shell::{put_show, put_undo};
use blog_list::time_text;
use blog_text::{put_escaped, put_number, put_text};
use bstr::ByteSlice;
use jiff::tz::TimeZone;
use std::alloc::{AllocError, Allocator};

/// Appends the lists of units.
pub(crate) fn put_unit_lines<A: Allocator + Copy>(
    out: &mut Vec<u8, A>,
    report: &Report<A>,
    logs: &[&str],
    zone: TimeZone<'_>,
) -> Result<(), AllocError> {
    put_text(out, b"\nLargest transactions\n")?;
    put_ranked(out, report.alloc, report.largest.ranked(), logs, zone)?;
    put_text(out, b"\nLongest transactions\n")?;
    put_ranked(out, report.alloc, report.longest.ranked(), logs, zone)?;
    put_text(out, b"\nWhat can't be undone\n")?;
    put_refused(out, report, logs, zone)
}

/// Appends units of a ranking.
fn put_ranked<A: Allocator + Copy>(
    out: &mut Vec<u8, A>,
    alloc: A,
    ranked: &[Ranked],
    logs: &[&str],
    zone: TimeZone<'_>,
) -> Result<(), AllocError> {
    if ranked.is_empty() {
        return put_text(out, b"none\n");
    }
    for one in ranked {
        let log = log_of(logs, one.unit.log);
        put_facts(out, &one.unit, zone)?;
        put_rows(out, &one.unit)?;
        put_show_line(out, alloc, &one.unit, log)?;
        put_undo_line(out, alloc, &one.unit, log)?;
    }
    Ok(())
}

/// Appends the units that can't be undone.
fn put_refused<A: Allocator + Copy>(
    out: &mut Vec<u8, A>,
    report: &Report<A>,
    logs: &[&str],
    zone: TimeZone<'_>,
) -> Result<(), AllocError> {
    if report.refused.is_empty() {
        return put_text(out, b"none\n");
    }
    for one in &report.refused {
        put_one_refused(out, report.alloc, one, logs, zone)?;
    }
    let more = report
        .totals
        .refused
        .saturating_sub(report.refused.len() as u64);
    if more > 0 {
        put_text(out, b"and ")?;
        put_number(out, more)?;
        put_text(out, b" more\n")?;
    }
    Ok(())
}

/// Appends a unit that can't be undone.
fn put_one_refused<A: Allocator + Copy>(
    out: &mut Vec<u8, A>,
    alloc: A,
    one: &Refused<A>,
    logs: &[&str],
    zone: TimeZone<'_>,
) -> Result<(), AllocError> {
    put_facts(out, &one.unit, zone)?;
    put_text(out, b"  ")?;
    put_escaped(out, &one.why)?;
    put_text(out, b"\n")?;
    put_show_line(out, alloc, &one.unit, log_of(logs, one.unit.log))
}

/// Appends when a unit was, its connection, how long it took and how large it is.
fn put_facts<A: Allocator>(
    out: &mut Vec<u8, A>,
    unit: &UnitFact,
    zone: TimeZone<'_>,
) -> Result<(), AllocError> {
    if unit.time == 0 {
        put_text(out, b"time unknown       ")?;
    } else {
        put_text(out, time_text(zone, unit.time).as_str().as_bytes())?;
    }
    put_text(out, b"  at ")?;
    put_number(out, u64::from(unit.position))?;
    if let Some(thread) = unit.thread {
        put_text(out, b"  thread ")?;
        put_number(out, u64::from(thread))?;
    }
    put_text(out, b"  ")?;
    put_duration(out, unit.seconds)?;
    put_text(out, b"  ")?;
    put_number(out, unit.bytes)?;
    put_text(out, b" bytes\n")
}

/// Appends how many rows a unit changes.
fn put_rows<A: Allocator>(out: &mut Vec<u8, A>, unit: &UnitFact) -> Result<(), AllocError> {
    put_text(out, b"  inserted ")?;
    put_number(out, unit.rows.inserts)?;
    put_text(out, b", updated ")?;
    put_number(out, unit.rows.updates)?;
    put_text(out, b", deleted ")?;
    put_number(out, unit.rows.deletes)?;
    put_text(out, b"\n")
}

/// Appends the command that shows a unit, as a line.
fn put_show_line<A: Allocator + Copy>(
    out: &mut Vec<u8, A>,
    alloc: A,
    unit: &UnitFact,
    log: &str,
) -> Result<(), AllocError> {
    let mut line = Vec::new(alloc);
    put_show(&mut line, unit.position, log.as_bytes())?;
    put_command(out, &line)
}

/// Appends the command that writes SQL that undoes a unit, as a line.
fn put_undo_line<A: Allocator + Copy>(
    out: &mut Vec<u8, A>,
    alloc: A,
    unit: &UnitFact,
    log: &str,
) -> Result<(), AllocError> {
    let mut line = Vec::new(alloc);
    put_undo(&mut line, unit.position, log.as_bytes())?;
    put_command(out, &line)
}

/// Whether a character hides, joins or turns what stands beside it, or is a control character.
fn is_hidden(c: char) -> bool {
    c.is_control()
        || matches!(c, '\u{61C}' | '\u{200B}'..='\u{200F}' | '\u{2028}'..='\u{202E}' | '\u{2060}'..='\u{2069}' | '\u{FEFF}')
}

/// Appends a command as a line, with `?` for each character that a terminal wouldn't show.
fn put_command<A: Allocator>(out: &mut Vec<u8, A>, command: &[u8]) -> Result<(), AllocError> {
    put_text(out, b"  ")?;
    for c in command.chars() {
        if is_hidden(c) {
            put_text(out, b"?")?;
        } else {
            put_text(out, c.encode_utf8(&mut [0; 4]).as_bytes())?;
        }
    }
    put_text(out, b"\n")
}
