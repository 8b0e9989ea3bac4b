//! Scripts of runs of `binlog`.

use crate::{run_in, this_process};
use binlog_command::Process;
use sample_logs::logs::insert_and_drop;
use sample_logs::small::{INSERT_ONE_ROW, PLAIN, SUMMED};
use sample_logs::summed::{CLOSED, CLOSED_PLAIN, IN_USE, IN_USE_PLAIN};
use std::alloc::AllocError;
use std::process::ExitCode;
use std::test::Fail;
use testkit::runs::Outcome;
use transcripts::{Named, Program};

/// What is printed after each wrong command.
const USAGE: &str = "
Usage: binlog list [-d NAME] [-T NAME] [-j POS] [--stop-position POS]
                   [--start-datetime TIME] [--stop-datetime TIME]
                   [--utc | --time-zone NAME] [--json] LOG..
       binlog show [-d NAME] [-T NAME] [-j POS] [--stop-position POS] [--at POS]
                   [--utc | --time-zone NAME] [--all-columns] [--json | --csv] LOG..
       binlog report [-d NAME] [-T NAME] [-j POS] [--stop-position POS]
                   [--utc | --time-zone NAME] [--text] [-r FILE [--force]] LOG..
       binlog undo [--later LOG].. [--leave | --merge | --anyway] [-j POS] [--stop-position POS]
                   [-d NAME] [-T NAME]
                   [--dry-run] [--show] [-r FILE [--force]] LOG..
       binlog redo [-j POS] [--stop-position POS] [-d NAME] [-T NAME]
                   [--dry-run] [-r FILE [--force]] LOG..
       binlog plain [-r FILE [--force]] LOG
       binlog split [--size BYTES] [-r FILE [--force]] LOG
       binlog sql [--each-transaction] [--keep-times] [--size BYTES]
                  [--rewrite-db FROM:TO].. [-r FILE [--force]] LOG

For more information, try '--help'.
";

/// The same where `plain` was given.
const PLAIN_USAGE: &str =
    "\nUsage: binlog plain [-r FILE [--force]] LOG\n\nFor more information, try '--help'.\n";

/// `binlog`, whose standard output is a terminal or not.
#[derive(Clone, Copy)]
struct Binlog {
    writes_to_terminal: bool,
}

impl Program for Binlog {
    fn name(&self) -> &'static str {
        "binlog"
    }

    fn run(&self, rt: &HostRuntime, arguments: Vec<String>) -> Outcome {
        let process = Process {
            writes_to_terminal: self.writes_to_terminal,
            ..this_process(rt)
        };
        run_in(rt, process, Ok(arguments))
    }
}

/// A log with this name in scripts.
pub fn named<'a>(name: &'a str, bytes: &'a [u8]) -> Named<'a> {
    Named { name, bytes }
}

/// The logs that each script can name. `dropped` is a transaction that inserts a row, and a `DROP TABLE`; `usage` is what is printed
/// after the line on wrong arguments.
fn logs_with(dropped: &[u8]) -> [Named<'_>; 10] {
    [
        named("dropped", dropped),
        named("usage", USAGE.as_bytes()),
        named("plain_usage", PLAIN_USAGE.as_bytes()),
        named("PLAIN", &PLAIN),
        named("SUMMED", &SUMMED),
        named("INSERT_ONE_ROW", &INSERT_ONE_ROW),
        named("CLOSED", &CLOSED),
        named("CLOSED_PLAIN", &CLOSED_PLAIN),
        named("IN_USE", &IN_USE),
        named("IN_USE_PLAIN", &IN_USE_PLAIN),
    ]
}

/// Plays the scripts of the files that the arguments name, which can name these logs too.
pub fn play_files(rt: &HostRuntime, given: &[Named<'_>]) -> Result<ExitCode, AllocError> {
    let binlog = Binlog {
        writes_to_terminal: false,
    };
    let dropped = insert_and_drop(rt)?;
    let logs = logs_with(&dropped);
    Ok(transcripts::play_files(rt, &binlog, given, logs.as_slice()))
}

/// Plays a script.
fn play_by(rt: &HostRuntime, binlog: &Binlog, script: &str) -> Result<(), Fail> {
    let dropped = insert_and_drop(rt)?;
    let logs = logs_with(&dropped);
    Ok(transcripts::play(rt, binlog, &[], logs.as_slice(), script)?)
}

/// Plays a script.
pub fn play(rt: &HostRuntime, script: &str) -> Result<(), Fail> {
    let binlog = Binlog {
        writes_to_terminal: false,
    };
    play_by(rt, &binlog, script)
}

/// Plays a script, where standard output is a terminal.
pub fn play_on_terminal(rt: &HostRuntime, script: &str) -> Result<(), Fail> {
    let binlog = Binlog {
        writes_to_terminal: true,
    };
    play_by(rt, &binlog, script)
}
