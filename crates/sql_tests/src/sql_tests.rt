//! Small logs as SQL. The texts that are expected were made from the bytes of the logs by another program.

ghost use Rattle.blog_sql.specs.Changed.{HasShortNames, HaveShortNames};

use base64::engine::general_purpose::STANDARD;
use blog_device::Watched;
use blog_event::Fault;
use blog_flash::{Selection, flashback};
use blog_row::Order;
use blog_run::{Writing, WritingFault, write_changes};
use blog_sql::{NAME_AND_VERSION, Renamed, SqlOptions};
use linked_list_allocator::LocalHeap;
use refusing::Refusing;
use sample_logs::builder::{BEGIN, Part, T, XID, build, delete, insert};
use sample_logs::logs::{no_changes, two_statements, two_transactions};
use std::alloc::Allocator;
use std::io;
use std::io::Write;
use std::process::Abort;
use std::test::Fail;
use testkit::devices::{ALL, Failure, SlowWriter};

/// Two statements of one transaction.
#[rattlefmt::skip]
const TWO_STATEMENTS: &[u8] = b"-- flashback 0.1.0\nSET @undo_errors = 0;\nBINLOG '\nAAAAAA8BAAAAdAAAAHgAAAAAAAQANS42LjUxAAAAAAAAAAAAAAAAAAAAAAAAAAAAAAAAAAAAAAAA\nAAAAAAAAAAAAAAAAAAAAAAAAEzgNAAgAEgAEBAQEEgAAXAAEGggAAAAICAgCAAAACgoKGRkAAAAA\nAAA=\n';\n/*!50700 SET @@SESSION.GTID_NEXT='AUTOMATIC' */;\nBEGIN;\nBINLOG '\nAAAAABMBAAAAJQAAAMQAAAAAAAEAAAAAAAEAAWQAAXQAAQMAAQAAAAAeAQAAACQAAADoAAAAAAAB\nAAAAAAABAAIAAf/+AQAAAA==\n';\nSET @undo_errors = @undo_errors + @@error_count;\nBINLOG '\nAAAAABMBAAAAJQAAAA0BAAAAAAEAAAAAAAEAAWQAAXQAAQMAAQAAAAAgAQAAACQAAAAxAQAAAAAB\nAAAAAAABAAIAAf/+AgAAAA==\n';\nSET @undo_errors = @undo_errors + @@error_count;\nSET @undo_end = IF(@undo_errors = 0, 'COMMIT', 'ROLLBACK');\nPREPARE undo_end FROM @undo_end;\nEXECUTE undo_end;\nDEALLOCATE PREPARE undo_end;\nSELECT @undo_end AS ended_with, @undo_errors AS errors;\n";

/// The same changes as one statement.
#[rattlefmt::skip]
const ONE_STATEMENT: &[u8] = b"-- flashback 0.1.0\nSET @undo_errors = 0;\nBINLOG '\nAAAAAA8BAAAAdAAAAHgAAAAAAAQANS42LjUxAAAAAAAAAAAAAAAAAAAAAAAAAAAAAAAAAAAAAAAA\nAAAAAAAAAAAAAAAAAAAAAAAAEzgNAAgAEgAEBAQEEgAAXAAEGggAAAAICAgCAAAACgoKGRkAAAAA\nAAA=\n';\n/*!50700 SET @@SESSION.GTID_NEXT='AUTOMATIC' */;\nBEGIN;\nBINLOG '\nAAAAABMBAAAAJQAAAMQAAAAAAAEAAAAAAAEAAWQAAXQAAQMAAQAAAAAeAQAAACQAAADoAAAAAAAB\nAAAAAAAAAAIAAf/+AQAAAAAAAAAgAQAAACQAAAAMAQAAAAABAAAAAAABAAIAAf/+AgAAAA==\n';\nSET @undo_errors = @undo_errors + @@error_count;\nSET @undo_end = IF(@undo_errors = 0, 'COMMIT', 'ROLLBACK');\nPREPARE undo_end FROM @undo_end;\nEXECUTE undo_end;\nDEALLOCATE PREPARE undo_end;\nSELECT @undo_end AS ended_with, @undo_errors AS errors;\n";

/// Where the lines of its second BINLOG begin.
const BINLOG_START: usize = 277;

/// Where they end.
const BINLOG_END: usize = 427;

/// Two transactions, each with its own end, with schema `d` named `other` and all timestamps 1.
#[rattlefmt::skip]
const TWO_TRANSACTIONS: &[u8] = b"-- flashback 0.1.0\nSET @undo_errors = 0;\nBINLOG '\nAAAAAA8BAAAAdAAAAHgAAAAAAAQANS42LjUxAAAAAAAAAAAAAAAAAAAAAAAAAAAAAAAAAAAAAAAA\nAAAAAAAAAAAAAAAAAAAAAAAAEzgNAAgAEgAEBAQEEgAAXAAEGggAAAAICAgCAAAACgoKGRkAAAAA\nAAA=\n';\n/*!50700 SET @@SESSION.GTID_NEXT='AUTOMATIC' */;\nSET @undo_end = 'COMMIT';\nBEGIN;\nBINLOG '\nAQAAABMBAAAAKQAAAMgAAAAAAAEAAAAAAAEABW90aGVyAAF0AAEDAAEBAAAAHgEAAAAkAAAA7AAA\nAAAAAQAAAAAAAQACAAH//gcAAAA=\n';\nSET @undo_errors = @undo_errors + @@error_count;\nSET @undo_end = IF(@undo_errors = 0, 'COMMIT', 'ROLLBACK');\nPREPARE undo_end FROM @undo_end;\nEXECUTE undo_end;\nDEALLOCATE PREPARE undo_end;\nBEGIN;\nBINLOG '\nAQAAABMBAAAAKQAAAGQBAAAAAAEAAAAAAAEABW90aGVyAAF0AAEDAAEBAAAAIAEAAAAkAAAAiAEA\nAAAAAQAAAAAAAQACAAH//ggAAAA=\n';\nSET @undo_errors = @undo_errors + @@error_count;\nSET @undo_end = IF(@undo_errors = 0, 'COMMIT', 'ROLLBACK');\nPREPARE undo_end FROM @undo_end;\nEXECUTE undo_end;\nDEALLOCATE PREPARE undo_end;\nSELECT @undo_end AS ended_with, @undo_errors AS errors;\n";

/// No transaction.
#[rattlefmt::skip]
const NO_TRANSACTION: &[u8] = b"-- flashback 0.1.0\nSET @undo_errors = 0;\nBINLOG '\nAAAAAA8BAAAAdAAAAHgAAAAAAAQANS42LjUxAAAAAAAAAAAAAAAAAAAAAAAAAAAAAAAAAAAAAAAA\nAAAAAAAAAAAAAAAAAAAAAAAAEzgNAAgAEgAEBAQEEgAAXAAEGggAAAAICAgCAAAACgoKGRkAAAAA\nAAA=\n';\n/*!50700 SET @@SESSION.GTID_NEXT='AUTOMATIC' */;\nSET @undo_end = 'COMMIT';\nSELECT @undo_end AS ended_with, @undo_errors AS errors;\n";

/// All transactions as one, and no event changed.
const UNCHANGED: SqlOptions<'static> = SqlOptions {
    each_transaction: false,
    time: None,
    schemas: &[],
};

/// A limit that no statement here exceeds.
const LIMIT: usize = 1 << 20;

/// Prints a log as SQL.
fn sql_of_log<A: Allocator + Copy, W: Write>(
    alloc: A,
    writer: &mut Watched<W>,
    log: &[u8],
    limit: usize,
    how: &SqlOptions<'_>,
) -> Result<(), WritingFault>
    requires { HasShortNames how.now }
{
    let writing = Writing {
        order: Order::Forward,
        limit,
        sql: Some(*how),
    };
    write_changes(alloc, writer, log, &Selection::all(), 0, &writing)
}

/// The log is printed as this text.
fn check<R: AllocGlobal + Abort>(
    rt: &R,
    log: &[u8],
    limit: usize,
    how: &SqlOptions<'_>,
    text: &[u8],
)
    requires { HasShortNames how.now }
{
    let mut writer = Watched::new(Vec::new(rt.alloc()));
    let done = sql_of_log(rt.alloc(), &mut writer, log, limit, how);
    assert!(rt; done.is_ok());
    assert!(rt; writer.device().as_slice() == text);
}

#[test]
fn all_transactions_are_one(rt: HostRuntime) -> Result<(), Fail> {
    check(
        &rt,
        &two_statements(&rt)?,
        LIMIT,
        &UNCHANGED,
        TWO_STATEMENTS,
    );
    Ok(())
}

#[test]
fn a_statement_over_the_limit_is_cut(rt: HostRuntime) -> Result<(), Fail> {
    // Two rows events of 36 bytes.
    let rows = [insert(1, &[1]).open(), delete(1, &[2])];
    let log = build(&rt, &[BEGIN, Part::Map(T), rows[0], rows[1], XID])?;
    check(&rt, &log, 109, &UNCHANGED, ONE_STATEMENT);
    check(&rt, &log, 108, &UNCHANGED, TWO_STATEMENTS);
    Ok(())
}

#[test]
fn each_transaction_ends_by_itself(rt: HostRuntime) -> Result<(), Fail> {
    let schemas = [Renamed {
        from: b"d",
        to: b"other",
    }];
    let how = SqlOptions {
        each_transaction: true,
        time: Some(1),
        schemas: &schemas,
    };
    check(&rt, &two_transactions(&rt)?, LIMIT, &how, TWO_TRANSACTIONS);
    let how = SqlOptions {
        schemas: &[],
        ..how
    };
    check(&rt, &no_changes(&rt)?, LIMIT, &how, NO_TRANSACTION);
    Ok(())
}

/// The schema of the pair of this number isn't in the log, and nothing is written.
fn check_no_schema<R: AllocGlobal + Abort>(
    rt: &R,
    log: &[u8],
    schemas: &[Renamed<'_>],
    number: usize,
)
    requires { HaveShortNames schemas.now }
{
    let how = SqlOptions {
        schemas,
        ..UNCHANGED
    };
    let mut writer = Watched::new(SlowWriter::new(rt, ALL, Failure::Never));
    let done = sql_of_log(rt.alloc(), &mut writer, log, LIMIT, &how);
    assert!(rt; done == Err(WritingFault::NoSchema(number)));
    assert!(rt; writer.device().calls == 0);
}

/// The table of the log is `t` of `d`. Names are compared byte by byte.
#[test]
fn each_schema_has_to_be_in_the_log(rt: HostRuntime) -> Result<(), Fail> {
    let to = b"other".as_slice();
    let there = Renamed { from: b"d", to };
    let log = two_transactions(&rt)?;
    let absent = ["", "D", "dd", "t", "other"];
    for name in absent {
        let from = name.as_bytes();
        check_no_schema(&rt, &log, &[Renamed { from, to }], 0);
        check_no_schema(&rt, &log, &[there, there, Renamed { from, to }], 2);
    }
    check_no_schema(&rt, &no_changes(&rt)?, &[there], 0);
    Ok(())
}

#[test]
fn the_first_line_has_name_and_version(rt: HostRuntime) {
    let line = TWO_STATEMENTS.get(3..18);
    assert!(rt; line == Some(NAME_AND_VERSION.as_bytes()));
}

/// The log of one statement that inserts these values, and its text.
fn log_and_text(rt: &HostRuntime, values: &[u8]) -> Result<(Vec<u8>, Vec<u8>), Fail> {
    let log = build(rt, &[BEGIN, Part::Map(T), insert(1, values), XID])?;
    // The front has 120 bytes, `BEGIN` 39, and the end event 27.
    let end = log.len().wrapping_sub(27);
    let events = log.get(159..end).ok_or("a short log")?;
    let encoded = STANDARD.encode(rt.alloc(), events)?;
    let mut text = ONE_STATEMENT[..BINLOG_START].to_vec(rt.alloc())?;
    for line in encoded.as_bytes().chunks(76) {
        text.extend_from_slice(line)?;
        text.push(b'\n')?;
    }
    text.extend_from_slice(&ONE_STATEMENT[BINLOG_END..])?;
    Ok((log, text))
}

#[test]
fn a_long_text_is_written_by_chunks(rt: HostRuntime) -> Result<(), Fail> {
    let mut values = Vec::new(rt.alloc());
    for _ in 0..40_000 {
        values.push(5)?;
    }
    let (log, text) = log_and_text(&rt, &values)?;
    let mut writer = Watched::new(SlowWriter::new(&rt, ALL, Failure::Never));
    let done = sql_of_log(rt.alloc(), &mut writer, &log, LIMIT, &UNCHANGED);
    assert!(rt; done.is_ok());
    assert!(rt; writer.device().taken.as_slice() == text.as_slice());
    // Two writes and a flush.
    assert!(rt; writer.device().calls == 3);
    Ok(())
}

/// The characters of base64.
const CHARACTERS: &[u8] = b"ABCDEFGHIJKLMNOPQRSTUVWXYZabcdefghijklmnopqrstuvwxyz0123456789+/";

/// A row is two bytes of the log and a line is 57, so each byte of a line has each value.
#[test]
fn a_full_line_has_each_character(rt: HostRuntime) -> Result<(), Fail> {
    let mut values = Vec::new(rt.alloc());
    for _ in 0..57 {
        for value in 0..=u8::MAX {
            values.push(value)?;
        }
    }
    let (log, text) = log_and_text(&rt, &values)?;
    let after = ONE_STATEMENT[BINLOG_END..].len();
    let end = text.len().wrapping_sub(after);
    let lines = text.get(BINLOG_START..end).ok_or("a short text")?;
    assert!(rt; CHARACTERS.iter().all(|character| lines.contains(character)));
    check(&rt, &log, LIMIT, &UNCHANGED, &text);
    Ok(())
}

/// The line between two statements, and the one that begins the second.
const NEXT_BINLOG: &[u8] = b"';\nSET @undo_errors = @undo_errors + @@error_count;\nBINLOG '\n";

/// The table map and the rows event of a statement that inserts a row, in bytes.
const STATEMENT_LEN: usize = 73;

#[test]
fn each_of_many_statements_has_its_binlog(rt: HostRuntime) -> Result<(), Fail> {
    let mut parts = Vec::new(rt.alloc());
    parts.push(BEGIN)?;
    for _ in 0..300 {
        parts.push(Part::Map(T))?;
        parts.push(insert(1, &[5]))?;
    }
    parts.push(XID)?;
    let log = build(&rt, &parts)?;
    let end = log.len().wrapping_sub(27);
    let events = log.get(159..end).ok_or("a short log")?;
    let mut text = ONE_STATEMENT[..BINLOG_START].to_vec(rt.alloc())?;
    let mut is_first = true;
    for statement in events.chunks(STATEMENT_LEN) {
        if !is_first {
            text.extend_from_slice(NEXT_BINLOG)?;
        }
        is_first = false;
        for line in STANDARD
            .encode(rt.alloc(), statement)?
            .as_bytes()
            .chunks(76)
        {
            text.extend_from_slice(line)?;
            text.push(b'\n')?;
        }
    }
    text.extend_from_slice(&ONE_STATEMENT[BINLOG_END..])?;
    let mut writer = Watched::new(Vec::new(rt.alloc()));
    let done = sql_of_log(rt.alloc(), &mut writer, &log, LIMIT, &UNCHANGED);
    assert!(rt; done.is_ok());
    assert!(rt; writer.device().as_slice() == text.as_slice());
    assert!(rt; events.len() == 300 * STATEMENT_LEN);
    Ok(())
}

/// A heap with room for the call, in bytes.
const ROOM: usize = 1 << 19;

/// At most this many requests are refused, in turn.
const MOST_REQUESTS: usize = 100;

#[test]
fn a_refused_request_writes_nothing(rt: HostRuntime) -> Result<(), Fail> {
    let log = two_statements(&rt)?;
    let heap = LocalHeap::new(rt.alloc(), ROOM)?;
    for number in 0..MOST_REQUESTS {
        let alloc = Refusing::new(&heap, number + 1);
        let mut writer = Watched::new(SlowWriter::new(&rt, ALL, Failure::Never));
        let done = sql_of_log(&alloc, &mut writer, &log, LIMIT, &UNCHANGED);
        if done.is_ok() {
            assert!(rt; !alloc.has_refused());
            assert!(rt; writer.device().taken.as_slice() == TWO_STATEMENTS);
            assert!(rt; number >= 5);
            return Ok(());
        }
        assert!(rt; done == Err(WritingFault::Log(Fault::OutOfMemory)));
        assert!(rt; alloc.has_refused());
        assert!(rt; writer.device().calls == 0);
    }
    Err("more requests than are tried".into())
}

/// The most bytes that a slow writer takes a call.
const STEP: usize = 100;

/// With this failure the call reports a failed write, and the writer has this text.
fn check_failure<R: AllocGlobal + Abort>(
    rt: &R,
    log: &[u8],
    failure: Failure,
    text: Option<&[u8]>,
) {
    let mut writer = Watched::new(SlowWriter::new(rt, STEP, failure));
    let done = sql_of_log(rt.alloc(), &mut writer, log, LIMIT, &UNCHANGED);
    assert!(rt; done == Err(WritingFault::Write));
    assert!(rt; Some(writer.device().taken.as_slice()) == text);
    assert!(rt; writer.device().failed_calls == 1);
    assert!(rt; writer.failed());
}

#[test]
fn a_failed_write_is_reported(rt: HostRuntime) -> Result<(), Fail> {
    let log = two_statements(&rt)?;
    // 790 bytes are eight calls.
    for call in 0..8 {
        let failure = Failure::At(call + 1, io::ErrorKind::Interrupted);
        let text = TWO_STATEMENTS.get(..call as usize * STEP);
        check_failure(&rt, &log, failure, text);
    }
    check_failure(&rt, &log, Failure::TakesNothingAt(1), Some(b""));
    let failure = Failure::AtFlush(io::ErrorKind::Other);
    check_failure(&rt, &log, failure, Some(TWO_STATEMENTS));
    Ok(())
}

/// What undoes a log is printed as the log that undoes it is.
#[test]
fn what_undoes_a_log_is_printed(rt: HostRuntime) -> Result<(), Fail> {
    for log in [two_statements(&rt)?, two_transactions(&rt)?] {
        for limit in [1, LIMIT] {
            let undone = flashback(rt.alloc(), &log, &Selection::all())?;
            let mut writer = Watched::new(Vec::new(rt.alloc()));
            let done = sql_of_log(rt.alloc(), &mut writer, &undone, limit, &UNCHANGED);
            assert!(rt; done.is_ok());
            let writing = Writing {
                order: Order::Backward,
                limit,
                sql: Some(UNCHANGED),
            };
            let mut other = Watched::new(Vec::new(rt.alloc()));
            let done = write_changes(rt.alloc(), &mut other, &log, &Selection::all(), 0, &writing);
            assert!(rt; done == Ok(()));
            assert!(rt; other.device().as_slice() == writer.device().as_slice());
        }
    }
    Ok(())
}
