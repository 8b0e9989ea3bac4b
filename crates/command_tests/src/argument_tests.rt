//! Runs of the help, and without arguments.

use command_runs::{run_arguments, run_given};
use std::io;
use std::process::Abort;
use std::test::Fail;

/// Lines of the help.
static HELP_LINES: [&str; 19] = [
    "Usage: binlog list [-d NAME] [-T NAME] [-j POS] [--stop-position POS]",
    "       binlog show [-d NAME] [-T NAME] [-j POS] [--stop-position POS] [--at POS]",
    "       binlog report [-d NAME] [-T NAME] [-j POS] [--stop-position POS]",
    "       binlog undo [--later LOG].. [--leave | --merge | --anyway] [-j POS] [--stop-position POS]",
    "       binlog redo [-j POS] [--stop-position POS] [-d NAME] [-T NAME]",
    "       binlog plain [-r FILE [--force]] LOG",
    "       binlog split [--size BYTES] [-r FILE [--force]] LOG",
    "                  [--rewrite-db FROM:TO].. [-r FILE [--force]] LOG",
    "Commands:",
    "  plain   Checks every checksum of LOG and writes the same log without checksums.",
    "  undo    Prints SQL that undoes changes of LOG: it deletes what was inserted, inserts what was deleted, and updates",
    "  redo    Prints SQL that makes changes of LOG once more, in their order: after an undo that was a mistake, or on a",
    "  list    Lists the units of each LOG: its transactions, and what stands between them and can't be undone.",
    "  show    Shows the rows that the transactions of each LOG change, a line each: the position of the row's event, its",
    "  report  Draws what the transactions of the LOGs change, as one page for a browser: how many rows were inserted, updated",
    "  split   Cuts each statement of LOG into statements of at most BYTES bytes: their rows events, and the table",
    "  sql     Prints LOG as SQL that makes its changes on a server, in one transaction: all of them, or after any",
    "  help    Print this message or the help of the given subcommand(s)",
    "Exit status: 0 done, 1 the log is refused or something failed, 2 the arguments are wrong.",
];

#[test]
fn the_help_has_every_command(rt: HostRuntime) -> Result<(), Fail> {
    let help = run_arguments(&rt, &["--help"])?;
    assert!(rt; help.is_done(help.output()));
    let text = str::from_utf8(help.output())?;
    for wanted in &HELP_LINES {
        assert!(rt; text.lines().any(|line| line == *wanted), "{wanted}");
    }
    for argument in ["-h", "help"] {
        assert!(rt;
            run_arguments(&rt, &[argument])?.is_done(help.output()),
            "{argument}"
        );
    }
    Ok(())
}

#[test]
fn arguments_that_the_system_does_not_give_are_told(rt: HostRuntime) -> Result<(), Fail> {
    let not_text = run_given(&rt, Err(io::Error::from(io::ErrorKind::InvalidData)));
    let line = "binlog: the arguments are not UTF-8: give names in UTF-8\n";
    assert!(rt; not_text.is_refusal(2, line));
    let no_memory = run_given(&rt, Err(io::Error::from(io::ErrorKind::OutOfMemory)));
    let line =
        "binlog: OutOfMemory: run it where one and a half times the log's size is free in memory\n";
    assert!(rt; no_memory.is_refusal(1, line));
    Ok(())
}
