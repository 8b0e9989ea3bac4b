//! Runs of `sql`.

use crate::split_tests::whole;
use command_runs::{path_of, run_log};
use console::VERSION;
use sample_logs::builder::{BEGIN, COMMIT, Part, XID, build, insert, map_of};
use sample_logs::logs::two_transactions;
use std::fs;
use std::process::Abort;
use std::test::Fail;
use testkit::runs::Outcome;

const LAST: &str = "SELECT @undo_end AS ended_with, @undo_errors AS errors;\n";

/// Runs `sql` over a log, to standard output or to a file, with each pair of databases, and checks that it refuses the log with this
/// line, and that it makes no file.
fn check_no_schema(rt: &HostRuntime, log: &[u8], pairs: &[&str], line: &str) -> Result<(), Fail> {
    let result = path_of(rt, "no-schema")?;
    let mut arguments = Vec::new(rt.alloc());
    arguments.push("sql")?;
    for pair in pairs {
        arguments.push("--rewrite-db")?;
        arguments.push(*pair)?;
    }
    let printed = run_log(rt, "of-no-schema", log, arguments.as_slice())?;
    arguments.push("-r")?;
    arguments.push(result.as_str())?;
    let kept = run_log(rt, "of-no-schema", log, arguments.as_slice())?;
    let is_made = fs::metadata(rt, result.as_path()).is_ok();
    if printed.is_refusal(1, line) && kept.is_refusal(1, line) && !is_made {
        Ok(())
    } else {
        Err(Fail::new(format_args!("{pairs:?}")))
    }
}

/// The body of a map of table `t` in the schema of this one byte.
fn map_body(schema: u8) -> [u8; 18] {
    [1, 0, 0, 0, 0, 0, 1, 0, 1, schema, 0, 1, b't', 0, 1, 3, 0, 1]
}

/// A log that inserts a row into table `t` of each of these schemas, which have names of one byte.
fn log_of(rt: &HostRuntime, schemas: &[u8]) -> Result<Vec<u8>, Fail> {
    let mut bodies = Vec::new(rt.alloc());
    for schema in schemas {
        bodies.push(map_body(*schema))?;
    }
    let mut parts = Vec::new(rt.alloc());
    for body in &bodies {
        let map = Part::Other {
            kind: 19,
            flags: 0,
            body,
        };
        for part in [BEGIN, map, insert(1, &[5]), XID] {
            parts.push(part)?;
        }
    }
    Ok(build(rt, &parts)?)
}

#[test]
fn databases_that_get_another_name_are_in_the_log(rt: HostRuntime) -> Result<(), Fail> {
    let cases: [(&[u8], &[&str], &str); 6] = [
        (
            b"d",
            &["t:x"],
            "binlog: the log changes no table in database t: give --rewrite-db a database of the log: d\n",
        ),
        (
            b"dd\x1b",
            &["d:other", "d:third", "D:x"],
            "binlog: the log changes no table in database D: give --rewrite-db a database of the log: d, \\x1b\n",
        ),
        (
            b"abcde",
            &["f\n:x"],
            "binlog: the log changes no table in database f\\n: give --rewrite-db a database of the log: a, b, c, d, e\n",
        ),
        (
            b"abacdef",
            &["g:a"],
            "binlog: the log changes no table in database g: give --rewrite-db a database of the log: a, b, c, d, e and more\n",
        ),
        (
            b"\xff",
            &["d:x"],
            "binlog: the log changes no table in database d: give --rewrite-db a database of the log: \u{fffd}\n",
        ),
        (
            b"",
            &["d:x"],
            "binlog: the log changes no table in database d, nor in any other: leave --rewrite-db out\n",
        ),
    ];
    for (schemas, pairs, line) in cases {
        check_no_schema(&rt, log_of(&rt, schemas)?.as_slice(), pairs, line)?;
    }
    Ok(())
}

/// How often a text is in what a run printed.
fn count(outcome: &Outcome, text: &str) -> Result<usize, Fail> {
    if !outcome.is_done(outcome.output()) {
        return Err(Fail::new("the run isn't done"));
    }
    let printed = str::from_utf8(outcome.output())?;
    Ok(printed.matches(text).count())
}

#[test]
fn each_transaction_ends_by_itself(rt: HostRuntime) -> Result<(), Fail> {
    let log = two_transactions(&rt)?;
    let one = run_log(&rt, "one-end", log.as_slice(), &["sql"])?;
    let each = run_log(
        &rt,
        "each-ends",
        log.as_slice(),
        &["sql", "--each-transaction"],
    )?;
    assert!(rt; count(&one, "BINLOG '\n")? == 3);
    assert!(rt; count(&one, "\nBEGIN;\n")? == 1);
    assert!(rt; count(&one, "EXECUTE undo_end;\n")? == 1);
    assert!(rt; count(&each, "BINLOG '\n")? == 3);
    assert!(rt; count(&each, "\nBEGIN;\n")? == 2);
    assert!(rt; count(&each, "EXECUTE undo_end;\n")? == 2);
    assert!(rt; count(&each, LAST)? == 1);
    Ok(())
}

/// A statement of 1,024 bytes, and one of 1,025, which the limit has room for or not.
#[test]
fn statements_are_cut(rt: HostRuntime) -> Result<(), Fail> {
    let least = whole(&rt, b"t")?;
    let more = whole(&rt, b"t2")?;
    let cases = [
        (least.as_slice(), "1024", 2),
        (more.as_slice(), "1025", 2),
        (more.as_slice(), "1024", 3),
    ];
    for (log, size, binlogs) in cases {
        let arguments = ["sql", "--size", size];
        let outcome = run_log(&rt, "cut-sql", log, arguments.as_slice())?;
        assert!(rt; count(&outcome, "BINLOG '\n")? == binlogs, "{size}");
    }
    Ok(())
}

/// The name of a table that would end a text is in the base64 alone.
#[test]
fn names_are_in_the_base64_alone(rt: HostRuntime) -> Result<(), Fail> {
    let map = map_of(1, b"\n';DROP\\");
    let log = build(&rt, &[BEGIN, map, insert(1, &[5]), COMMIT])?;
    let outcome = run_log(&rt, "named", log.as_slice(), &["sql"])?;
    assert!(rt; count(&outcome, "DROP")? == 0);
    assert!(rt; count(&outcome, "\\")? == 0);
    assert!(rt; count(&outcome, "BINLOG '\n")? == 2);
    assert!(rt; count(&outcome, "'")? == 10);
    Ok(())
}

/// The first line has the version of the programs.
#[test]
fn the_first_line_has_the_version(rt: HostRuntime) -> Result<(), Fail> {
    let line = blog_sql::NAME_AND_VERSION;
    let version = line.strip_prefix("flashback ").ok_or("another name")?;
    assert!(rt; VERSION.starts_with(version), "{VERSION}");
    Ok(())
}
