//! Every option that the program knows, and the help.

use clap::Command;
use console::{Described, FLAG, Takes, VERSION, add_arguments};
use std::alloc::{AllocError, Global};

/// The name of `-B`.
pub const FLASHBACK: &str = "flashback";
/// The name of `--forward`.
pub const FORWARD: &str = "forward";
/// The name of `--summary`.
pub const SUMMARY: &str = "summary";
/// The name of `--sql`.
pub const SQL: &str = "sql";
/// The name of `-j`.
pub const START: &str = "start-position";
/// The name of `--stop-position`.
pub const STOP: &str = "stop-position";
/// The name of `-d`.
pub const DATABASE: &str = "database";
/// The name of `-T`.
pub const TABLE: &str = "table";
/// The name of `-r`.
pub const RESULT_FILE: &str = "result-file";
/// The name of the argument without an option.
pub const LOG: &str = "LOG";

const ABOUT: &str = "\
Undoes the changes of a MySQL binary log: writes another binary log,
which takes the changes of LOG back, the last one first.
LOG has rows with full images and no checksums. A range that can't be undone is refused,
and then nothing is written.";

const USAGE: &str = "\
flashback (-B | --forward | --summary) [--sql] [-j POS] [--stop-position POS] \
[-d NAME] [-T NAME] [-r FILE] LOG";

const AFTER_HELP: &str = "\
Positions are bytes from the start of the file, decimal, 0 to 4294967295.
Names are compared byte by byte.

Examples:
  flashback -B binlog.000042 > undo.binlog
      undo all changes; -B is the same as --flashback
  flashback --forward binlog.000042 > same.binlog
      write the changes as they were made, and no other events
  flashback -B --sql binlog.000042
      show the changes that would undo it, as pseudo-SQL; --sql goes with --forward too
  flashback --summary binlog.000042
      count rows by table
  flashback -B -j 4021 binlog.000042 > undo.binlog
      undo what begins at 4021 or later; -j is the same as --start-position
  flashback -B --stop-position 9144 binlog.000042 > undo.binlog
      undo what begins before 9144
  flashback -B -d shop -T orders binlog.000042 > undo.binlog
      undo the changes of one table; -d is the same as --database, -T the same as --table
  flashback -B -r undo.binlog binlog.000042
      write to a file; -r is the same as --result-file

Exit status: 0 done, 1 the log is refused or something failed, 2 the arguments are wrong.";

/// Every option that the program knows, and its argument LOG.
pub fn all_arguments<'a>(alloc: Global) -> Result<Command<'a>, AllocError> {
    let command = Command::new(alloc, "flashback")
        .version(VERSION)
        .about(ABOUT)
        .override_usage(USAGE)
        .after_help(AFTER_HELP);
    add_arguments(alloc, command, &ALL)
}

/// The options, and the log, in the order of the help.
static ALL: [Described<'static>; 10] = [
    Described {
        name: FLASHBACK,
        short: Some('B'),
        help: "Write the log that undoes the changes of LOG",
        ..FLAG
    },
    Described {
        name: FORWARD,
        help: "Write a log of the changes as LOG makes them",
        ..FLAG
    },
    Described {
        name: SUMMARY,
        help: "Count the changed rows of each table",
        ..FLAG
    },
    Described {
        name: SQL,
        help: "With -B or --forward: write pseudo-SQL in place of a log",
        ..FLAG
    },
    Described {
        name: START,
        short: Some('j'),
        takes: Takes::Value("POS"),
        help: "Begin at POS, an event's start or the end of LOG [default: 4]",
        ..FLAG
    },
    Described {
        name: STOP,
        takes: Takes::Value("POS"),
        help: "Leave out the events that start at POS or behind it",
        ..FLAG
    },
    Described {
        name: DATABASE,
        short: Some('d'),
        takes: Takes::Value("NAME"),
        help: "Take only the changes of tables of this database",
        ..FLAG
    },
    Described {
        name: TABLE,
        short: Some('T'),
        takes: Takes::Value("NAME"),
        help: "Take only the changes of tables of this name: -d shop -T orders, not -T shop.orders",
        ..FLAG
    },
    Described {
        name: RESULT_FILE,
        short: Some('r'),
        takes: Takes::Value("FILE"),
        help: "Create or empty FILE once LOG is accepted, and write to it",
        ..FLAG
    },
    Described {
        name: LOG,
        takes: Takes::Argument,
        help: "The binary log, a file; it is read whole before anything is written",
        ..FLAG
    },
];
