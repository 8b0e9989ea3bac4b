//! Runs over larger logs: one of more than a megabyte, and one of many transactions.

use command_runs::large_logs::{long_texts, many_transactions};
use command_runs::run_log;
use std::process::Abort;
use std::test::Fail;

/// How many transactions the second log has.
const TRANSACTIONS: usize = 1200;

/// Whether `plain` and `split` write this log as it is.
fn is_copied(rt: &HostRuntime, log: &[u8]) -> Result<bool, Fail> {
    let plain = run_log(rt, "copied", log, &["plain"])?;
    let split = run_log(rt, "copied", log, &["split"])?;
    Ok(plain.is_done(log) && split.is_done(log))
}

/// How many lines of what a run over this log prints begin like this. The run is done, and prints this last line.
fn count(
    rt: &HostRuntime,
    log: &[u8],
    arguments: &[&str],
    beginning: &str,
    last: &str,
) -> Result<usize, Fail> {
    let outcome = run_log(rt, "counted", log, arguments)?;
    let text = str::from_utf8(outcome.output())?;
    if !outcome.is_done(outcome.output()) || text.lines().last() != Some(last) {
        return Err(Fail::new(format_args!("{arguments:?}")));
    }
    Ok(
        text.lines()
            .filter(|line| line.starts_with(beginning))
            .count(),
    )
}

/// The last line of SQL.
const SQL_END: &str = "SELECT @undo_end AS ended_with, @undo_errors AS errors;";

#[test]
fn a_log_of_more_than_a_megabyte_is_read(rt: HostRuntime) -> Result<(), Fail> {
    let log = long_texts(&rt, b"t", 3, 400_000)?;
    assert!(rt; log.len() == 1_200_332);
    assert!(rt; is_copied(&rt, &log)?);
    // the first has the format description
    assert!(rt; count(&rt, &log, &["sql"], "BINLOG '", SQL_END)? == 2);
    let last = "units 1, not undoable 0, rows 3";
    assert!(rt;
        count(
            &rt,
            &log,
            &["list", "--utc"],
            "       120    1200332  ",
            last
        )? == 1
    );
    let last = "{\"units\":1,\"not_undoable\":0,\"rows\":3,\"passed_over\":0}";
    assert!(rt;
        count(
            &rt,
            &log,
            &["list", "--utc", "--json"],
            "{\"start\":120,",
            last
        )? == 1
    );
    Ok(())
}

#[test]
fn a_log_of_many_transactions_is_read(rt: HostRuntime) -> Result<(), Fail> {
    let log = many_transactions(&rt, TRANSACTIONS)?;
    assert!(rt; log.len() == 166_920);
    assert!(rt; is_copied(&rt, &log)?);
    assert!(rt; count(&rt, &log, &["sql"], "BINLOG '", SQL_END)? == TRANSACTIONS + 1);
    let last = "units 1200, not undoable 0, rows 1200";
    assert!(rt; count(&rt, &log, &["list", "--utc"], " ", last)? == TRANSACTIONS + 1);
    let last = "{\"units\":1200,\"not_undoable\":0,\"rows\":1200,\"passed_over\":0}";
    assert!(rt;
        count(&rt, &log, &["list", "--utc", "--json"], "{\"start\":", last)? == TRANSACTIONS
    );
    Ok(())
}
