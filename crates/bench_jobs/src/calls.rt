//! Calls of the product. What they write and return goes into a digest.

use crate::digest::Digest;
use crate::failure::Failure;
use blog_choice::{TableChoice, TableName};
use blog_device::{RunFault, Watched, put, read_log};
use blog_flash::{Mode, Selection, flashback, run};
use blog_list::{Form, Sorting, Style, list};
use blog_request::Wanted;
use blog_row::Order;
use blog_run::{Writing, write_changes};
use blog_source::{Reading, Source, plain};
use blog_sql::SqlOptions;
use jiff::tz::TimeZone;
use std::alloc::Global;
use std::fmt::Debug;

/// How many bytes the rows events of a cut statement have at most: the programs' default.
const LIMIT: usize = 1_000_000;

/// The rule of the zone of times that are written.
const ZONE: &str = "CET-1CEST,M3.5.0,M10.5.0/3";

/// Where all outputs go.
pub type Output = Watched<Digest>;

/// A selection by positions.
pub fn of_range(start: u32, stop: u32) -> Selection<'static> {
    Selection {
        start,
        stop: Some(stop),
        database: None,
        table: None,
    }
}

/// A selection by table.
pub fn of_table<'n>(schema: &'n [u8], table: &'n [u8]) -> Selection<'n> {
    Selection {
        start: 4,
        stop: None,
        database: Some(schema),
        table: Some(table),
    }
}

/// Units of all tables, or of these if there are any.
fn of_tables<'n>(tables: &'n [TableName<'n>]) -> Wanted<'n> {
    Wanted {
        start: None,
        stop: None,
        from_time: None,
        to_time: None,
        threads: &[],
        gtids: &[],
        choice: TableChoice {
            database: None,
            tables,
            excluded: &[],
        },
    }
}

/// Takes what a call returned into the digest, after what it wrote.
fn put_answer<T: Debug>(alloc: Global, answer: &T, output: &mut Output) -> Result<(), Failure> {
    let text = format!(in alloc; "{answer:?}\n")?;
    Ok(put(output, text.as_bytes())?)
}

/// Runs `flashback` on a log.
pub fn undo(
    alloc: Global,
    log: &[u8],
    mode: Mode,
    selection: &Selection<'_>,
    output: &mut Output,
) -> Result<(), Failure> {
    let mut reader = Watched::new(log);
    let done = run(alloc, &mut reader, mode, selection, output)?;
    put_answer(alloc, &done, output)
}

/// Takes where and why the reading of a source ended into the digest, and how many damaged events were passed over.
fn put_end(alloc: Global, source: &Source, output: &mut Output) -> Result<(), Failure> {
    put_answer(alloc, &source.end(), output)?;
    put_answer(alloc, &source.fault(), output)?;
    put_answer(alloc, &source.damaged(), output)
}

/// Reads a log as a source, to its end.
fn open(alloc: Global, log: &[u8], output: &mut Output) -> Result<Source, Failure> {
    let bytes = read_log(alloc, &mut Watched::new(log))?;
    let source = Source::open(bytes, Reading::ALL)?;
    put_end(alloc, &source, output)?;
    Ok(source)
}

/// Reads a log as a source that is whole.
fn open_whole(alloc: Global, log: &[u8], output: &mut Output) -> Result<Source, Failure> {
    let bytes = read_log(alloc, &mut Watched::new(log))?;
    let source = Source::open_whole(bytes)?;
    put_end(alloc, &source, output)?;
    Ok(source)
}

/// The zone of times that are written.
pub fn zone() -> Result<TimeZone<'static>, Failure> {
    TimeZone::posix(ZONE).map_err(|_| Failure::Zone)
}

/// Runs `binlog list` on a log: all units, with their GTIDs.
pub fn list_all(
    alloc: Global,
    log: &[u8],
    zone: TimeZone<'static>,
    form: Form,
    output: &mut Output,
) -> Result<(), Failure> {
    let source = open(alloc, log, output)?;
    let style = Style {
        form,
        zone,
        gtids: true,
        sorting: Sorting::Place,
        seed: 0,
    };
    let end = list(alloc, alloc, &source, &of_tables(&[]), &style, output)?;
    put_answer(alloc, &end, output)
}

/// Runs `binlog list` on a log: the units of a table.
pub fn list_table<'n>(
    alloc: Global,
    log: &[u8],
    schema: &'n [u8],
    table: &'n [u8],
    output: &mut Output,
) -> Result<(), Failure> {
    let source = open(alloc, log, output)?;
    let tables = [TableName {
        schema: Some(schema),
        table,
    }];
    let wanted = of_tables(&tables);
    let style = Style {
        form: Form::Text,
        zone: TimeZone::UTC,
        gtids: false,
        sorting: Sorting::Place,
        seed: 0,
    };
    let end = list(alloc, alloc, &source, &wanted, &style, output)?;
    put_answer(alloc, &end, output)
}

/// Runs `binlog plain` on a log.
pub fn make_plain(alloc: Global, log: &[u8], output: &mut Output) -> Result<(), Failure> {
    let bytes = read_log(alloc, &mut Watched::new(log))?;
    let text = plain(bytes)?;
    let done = put(output, &text)?;
    put_answer(alloc, &done, output)
}

/// Runs `binlog split` on a log.
pub fn cut(alloc: Global, log: &[u8], output: &mut Output) -> Result<(), Failure> {
    let source = open_whole(alloc, log, output)?;
    let writing = Writing {
        order: Order::Forward,
        limit: LIMIT,
        sql: None,
    };
    let done = write_changes(
        alloc,
        output,
        source.bytes(),
        &Selection::all(),
        0,
        &writing,
    )?;
    put_answer(alloc, &done, output)
}

/// Runs `binlog sql` on a log.
pub fn print(
    alloc: Global,
    log: &[u8],
    each_transaction: bool,
    output: &mut Output,
) -> Result<(), Failure> {
    let source = open_whole(alloc, log, output)?;
    let how = SqlOptions {
        each_transaction,
        time: Some(1_780_000_000),
        schemas: &[],
    };
    let writing = Writing {
        order: Order::Forward,
        limit: LIMIT,
        sql: Some(how),
    };
    let done = write_changes(
        alloc,
        output,
        source.bytes(),
        &Selection::all(),
        0,
        &writing,
    )?;
    put_answer(alloc, &done, output)
}

/// The log that undoes changes of a log.
pub fn undone(
    alloc: Global,
    log: &[u8],
    selection: &Selection<'_>,
    output: &mut Output,
) -> Result<Vec<u8>, Failure> {
    let undo = flashback(alloc, log, selection).map_err(RunFault::Log)?;
    put(output, &undo)?;
    Ok(undo)
}
