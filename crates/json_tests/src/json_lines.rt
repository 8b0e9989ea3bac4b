//! The lines of lists in JSON as serde writes them: the lists' own are compared with these, byte for byte.

mod beginning;
mod escapes;
mod fault_events;
mod ids;
mod marks;
mod texts;

use crate::json_lines::beginning::Beginning;
use crate::json_lines::fault_events::{name_in, statement_of, words_of};
use crate::json_lines::ids::put_id;
use blog_event::Log;
use blog_list::{Totals, rfc_3339_text};
use blog_source::Source;
use blog_trans::TableCount;
use blog_units::{GlobalId, Unit, Units};
use bstr::ByteSlice;
use jiff::tz::TimeZone;
use serde::Serialize;
use std::alloc::{AllocError, Allocator, Global};
use std::test::Fail;

/// How many columns of a statement's text are printed.
const TEXT_COLUMNS: usize = 1000;

/// The numbers of a table's rows. Names that aren't UTF-8 stand in hexadecimal digits as well.
#[derive(Drop, Serialize)]
struct TableLine {
    schema: String,
    #[serde(skip_serializing_if = "Option::is_none")]
    schema_hex: Option<String>,
    table: String,
    #[serde(skip_serializing_if = "Option::is_none")]
    table_hex: Option<String>,
    inserts: u64,
    updates: u64,
    deletes: u64,
}

#[derive(Drop, Serialize)]
struct UnitLine {
    #[serde(skip_serializing_if = "Option::is_none")]
    log: Option<String>,
    #[serde(skip_serializing_if = "Option::is_none")]
    log_hex: Option<String>,
    start: u32,
    stop: u32,
    time: String,
    timestamp: u32,
    thread: Option<u32>,
    gtid: Option<String>,
    #[serde(skip_serializing_if = "Option::is_none")]
    tables: Option<Vec<TableLine>>,
    #[serde(skip_serializing_if = "Option::is_none")]
    fault: Option<&'static str>,
    #[serde(skip_serializing_if = "Option::is_none")]
    position: Option<u32>,
    #[serde(skip_serializing_if = "Option::is_none")]
    statement: Option<String>,
    #[serde(skip_serializing_if = "Option::is_none")]
    event: Option<&'static str>,
}

#[derive(Drop, Serialize)]
struct TotalsLine {
    units: u64,
    not_undoable: u64,
    rows: u64,
    passed_over: u64,
}

#[derive(Drop, Serialize)]
struct DamagedLine {
    damaged_events: u64,
}

/// Returns the lines of all units of a log, with its name, if there is one.
pub fn lines_of(
    global: Global,
    zone: TimeZone<'_>,
    source: &Source,
    name: Option<&[u8]>,
) -> Result<Vec<u8>, Fail> {
    let log = Log::open(source.bytes())?;
    let mut lines = Vec::new(global);
    for unit in Units::new(&log) {
        let judged = unit.with_groups(global);
        put_unit(global, &mut lines, zone, source, &log, name, &judged)?;
    }
    Ok(lines)
}

/// Appends the line of a unit, with positions of the server's log, and with the log's name, if there is one.
pub(crate) fn put_unit<A: Allocator + Copy, B: Allocator>(
    global: Global,
    out: &mut Vec<u8, A>,
    zone: TimeZone<'_>,
    source: &Source<B>,
    log: &Log<'_>,
    name: Option<&[u8]>,
    unit: &Unit<'_, B>,
) -> Result<(), AllocError> {
    let gtid = match unit.facts.id {
        Some(id) => Some(id_text(global, &id)?),
        None => None,
    };
    let (log_text, log_hex) = name_of(global, name)?;
    let mut line = UnitLine {
        log: log_text,
        log_hex,
        start: source.place(unit.facts.start),
        stop: source.place(unit.facts.stop),
        time: String::from_str(global, rfc_3339_text(zone, unit.facts.time).as_str())?,
        timestamp: unit.facts.time,
        thread: unit.facts.thread,
        gtid,
        tables: None,
        fault: None,
        position: None,
        statement: None,
        event: None,
    };
    match &unit.groups {
        Ok(groups) => {
            let mut tables = Vec::new(global);
            for n in 0..groups.tables() {
                tables.push(table_line(global, &groups.table(n))?)?;
            }
            line.tables = Some(tables);
        }
        Err(fault) => {
            line.fault = Some(name_in(log, fault, unit.facts.stop));
            line.position = source.at_place(fault).at();
            line.statement = match statement_of(log, fault, unit.facts.stop) {
                Some(text) => {
                    let columns = TEXT_COLUMNS;
                    Some(format!(in global; "{}", Beginning { text, columns })?)
                }
                None => None,
            };
            line.event = words_of(log, fault, unit.facts.stop);
        }
    }
    put_line(global, out, &line)
}

/// Appends the last lines.
pub(crate) fn put_totals<A: Allocator>(
    global: Global,
    out: &mut Vec<u8, A>,
    totals: &Totals,
) -> Result<(), AllocError> {
    let line = TotalsLine {
        units: totals.units,
        not_undoable: totals.refused,
        rows: totals.rows,
        passed_over: totals.passed_over,
    };
    put_line(global, out, &line)?;
    if totals.damaged == 0 {
        return Ok(());
    }
    let damaged_events = totals.damaged;
    put_line(global, out, &DamagedLine { damaged_events })
}

fn put_line<A: Allocator, T: Serialize>(
    global: Global,
    out: &mut Vec<u8, A>,
    line: &T,
) -> Result<(), AllocError> {
    let Ok(text) = serde_json::to_string(global, line) else {
        return Err(AllocError);
    };
    out.extend_from_slice(text.as_bytes())?;
    out.extend_from_slice(b"\n")
}

fn table_line(global: Global, count: &TableCount<'_>) -> Result<TableLine, AllocError> {
    Ok(TableLine {
        schema: lossy(global, count.schema)?,
        schema_hex: digits(global, count.schema)?,
        table: lossy(global, count.table)?,
        table_hex: digits(global, count.table)?,
        inserts: count.inserts,
        updates: count.updates,
        deletes: count.deletes,
    })
}

/// The name of a log as text, and in hexadecimal digits if it isn't UTF-8.
fn name_of(
    global: Global,
    name: Option<&[u8]>,
) -> Result<(Option<String>, Option<String>), AllocError> {
    match name {
        Some(name) => Ok((Some(lossy(global, name)?), digits(global, name)?)),
        None => Ok((None, None)),
    }
}

/// A global transaction id as text.
fn id_text(global: Global, id: &GlobalId<'_>) -> Result<String, AllocError> {
    let mut text = Vec::new(global);
    put_id(&mut text, id)?;
    lossy(global, text.as_slice())
}

/// The text of bytes, with U+FFFD for what is no character.
fn lossy(global: Global, bytes: &[u8]) -> Result<String, AllocError> {
    let mut text = String::new(global);
    bytes.to_str_lossy_into(&mut text)?;
    Ok(text)
}

/// The hexadecimal digits of bytes that aren't UTF-8.
fn digits(global: Global, bytes: &[u8]) -> Result<Option<String>, AllocError> {
    if str::from_utf8(bytes).is_ok() {
        return Ok(None);
    }
    Ok(Some(hex::encode_upper(global, bytes)?))
}
