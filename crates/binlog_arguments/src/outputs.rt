//! The options that say what is written, and where.

use crate::options::{
    ALL_COLUMNS, ANYWAY, AS_LOG, BY_ROWS, CSV, DRY_RUN, EACH_TRANSACTION, FORCE, INTERVAL, JSON,
    KEEP_TIMES, LATER, LEAVE, LOG, MERGE, RESULT_FILE, REWRITTEN, SHOW_GTID, SHOW_ROWS, SIZE,
    SKIP_DAMAGED, SORT, TEXT, WIDTH,
};
use console::{Described, FLAG, Takes};

/// Where a result goes.
pub(crate) static RESULTS: [Described<'static>; 2] = [
    Described {
        name: RESULT_FILE,
        short: Some('r'),
        takes: Takes::FilledValue("FILE"),
        help: "Write to FILE, which must not be there, unless it is a device or a pipe",
        ..FLAG
    },
    Described {
        name: FORCE,
        help: "With -r: replace FILE if it is there",
        ..FLAG
    },
];

/// The log.
pub(crate) static ONE_LOG: [Described<'static>; 1] = [Described {
    name: LOG,
    takes: Takes::Argument,
    help: "The binary log, a file",
    ..FLAG
}];

/// The logs.
pub(crate) static LOGS: [Described<'static>; 1] = [Described {
    name: LOG,
    takes: Takes::Arguments,
    help: "The binary logs, files, in the order in which the server wrote them",
    ..FLAG
}];

/// The size of statements.
pub(crate) static SIZES: [Described<'static>; 1] = [Described {
    name: SIZE,
    takes: Takes::Value("BYTES"),
    help: "The most bytes of a statement, headers included, from 1024 on; 8000000 if it isn't given",
    ..FLAG
}];

/// The options of `sql` alone.
pub(crate) static OF_SQL: [Described<'static>; 4] = [
    Described {
        name: EACH_TRANSACTION,
        help: "Commit each transaction of LOG by itself",
        ..FLAG
    },
    Described {
        name: KEEP_TIMES,
        help: "Leave the times of events as they are",
        ..FLAG
    },
    Described {
        name: SIZE,
        takes: Takes::Value("BYTES"),
        help: "The most bytes of a statement, headers included, from 1024 on; 8000000 if it isn't given",
        ..FLAG
    },
    Described {
        name: REWRITTEN,
        takes: Takes::Value("FROM:TO"),
        help: "Change tables of database TO where LOG has FROM; can be given several times",
        is_repeated: true,
        ..FLAG
    },
];

/// The options of `undo` alone.
pub(crate) static OF_UNDO: [Described<'static>; 4] = [
    Described {
        name: ANYWAY,
        help: "Undo without looking at what came later, and overwrite it",
        excludes: Some(MERGE),
        ..FLAG
    },
    Described {
        name: LEAVE,
        help: "Leave rows that were changed since as they are, and undo the others",
        excludes: Some(ANYWAY),
        ..FLAG
    },
    Described {
        name: MERGE,
        help: "Of rows that were changed since, undo the columns that only the mistake changed",
        excludes: Some(LEAVE),
        ..FLAG
    },
    Described {
        name: LATER,
        takes: Takes::Value("LOG"),
        help: "Look at this later log of the server too; can be given several times",
        is_repeated: true,
        excludes: Some(ANYWAY),
        ..FLAG
    },
];

/// The options that say how a part is written.
pub(crate) static WRITTEN: [Described<'static>; 7] = [
    Described {
        name: EACH_TRANSACTION,
        help: "Commit each transaction by itself",
        ..FLAG
    },
    Described {
        name: KEEP_TIMES,
        help: "Leave the times of events as they are",
        excludes: Some(AS_LOG),
        ..FLAG
    },
    Described {
        name: SIZE,
        takes: Takes::Value("BYTES"),
        help: "The most bytes of a statement, headers included, from 1024 on; 8000000 if it isn't given",
        ..FLAG
    },
    Described {
        name: REWRITTEN,
        takes: Takes::Value("FROM:TO"),
        help: "Change tables of database TO where LOG has FROM; can be given several times",
        is_repeated: true,
        excludes: Some(AS_LOG),
        ..FLAG
    },
    Described {
        name: AS_LOG,
        help: "Write a binary log, and no SQL",
        ..FLAG
    },
    Described {
        name: DRY_RUN,
        help: "Write nothing but the report",
        ..FLAG
    },
    Described {
        name: SHOW_ROWS,
        help: "Write nothing but the report, and the rows as they would be written",
        ..FLAG
    },
];

/// The options that say what of them is shown.
pub(crate) static SHOWN: [Described<'static>; 2] = [
    Described {
        name: SHOW_GTID,
        help: "Print GTIDs too",
        ..FLAG
    },
    Described {
        name: SKIP_DAMAGED,
        help: "Go on after an event whose checksum is wrong",
        ..FLAG
    },
];

/// The options that say in which order and form, and the logs.
pub(crate) static ORDERS: [Described<'static>; 3] = [
    Described {
        name: SORT,
        takes: Takes::OneOf("ORDER", &[BY_ROWS]),
        help: "List the transactions of each log by how many rows they change, the most first",
        ..FLAG
    },
    Described {
        name: JSON,
        help: "Write JSON, an object a line",
        ..FLAG
    },
    Described {
        name: LOG,
        takes: Takes::Arguments,
        help: "The binary logs, files",
        ..FLAG
    },
];

/// The options that say how rows are shown, and the logs.
pub(crate) static ROWS: [Described<'static>; 6] = [
    Described {
        name: JSON,
        help: "Write JSON, an object a row",
        ..FLAG
    },
    Described {
        name: CSV,
        help: "Write CSV, with each table's columns in a line above its rows",
        excludes: Some(JSON),
        ..FLAG
    },
    Described {
        name: ALL_COLUMNS,
        help: "Print the columns that an update leaves too",
        ..FLAG
    },
    Described {
        name: WIDTH,
        takes: Takes::Value("COLUMNS"),
        help: "Cut texts to this many columns of a terminal; 60 if it isn't given",
        ..FLAG
    },
    Described {
        name: SKIP_DAMAGED,
        help: "Go on after an event whose checksum is wrong",
        ..FLAG
    },
    Described {
        name: LOG,
        takes: Takes::Arguments,
        help: "The binary logs, files",
        ..FLAG
    },
];

/// The options of `report` alone.
pub(crate) static OF_REPORT: [Described<'static>; 3] = [
    Described {
        name: INTERVAL,
        takes: Takes::Value("SECONDS"),
        help: "Count rows by intervals of so many seconds",
        ..FLAG
    },
    Described {
        name: TEXT,
        help: "Write text, and no page",
        ..FLAG
    },
    Described {
        name: SKIP_DAMAGED,
        help: "Go on after an event whose checksum is wrong",
        ..FLAG
    },
];
