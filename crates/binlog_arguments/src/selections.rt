//! The options that choose logs, transactions and rows.

use crate::options::{
    AT, DATABASE, EXCLUDED_TABLE, GTID, START, START_TIME, STOP, STOP_TIME, TABLE, THREAD,
    TIME_ZONE, UTC,
};
use console::{Described, FLAG, Takes};

/// The options that select a part of a log.
pub(crate) static PARTS: [Described<'static>; 5] = [
    Described {
        name: START,
        short: Some('j'),
        takes: Takes::Value("POS"),
        help: "Start at the event that begins at POS",
        ..FLAG
    },
    Described {
        name: STOP,
        takes: Takes::Value("POS"),
        help: "Stop before the event that begins at POS",
        ..FLAG
    },
    Described {
        name: DATABASE,
        short: Some('d'),
        takes: Takes::Value("NAME"),
        help: "Only tables of this database",
        ..FLAG
    },
    Described {
        name: TABLE,
        short: Some('T'),
        takes: Takes::Value("[NAME.]NAME"),
        help: "Only this table",
        ..FLAG
    },
    Described {
        name: AT,
        takes: Takes::Value("POS"),
        help: "Only the transaction that starts at POS, or has its BEGIN there; can be given several times",
        is_repeated: true,
        ..FLAG
    },
];

/// The options that choose transactions by thread, GTID and time.
pub(crate) static UNITS: [Described<'static>; 4] = [
    Described {
        name: THREAD,
        takes: Takes::Value("N"),
        help: "Only the transactions of this thread of the server; can be given several times",
        is_repeated: true,
        ..FLAG
    },
    Described {
        name: GTID,
        takes: Takes::Value("GTID"),
        help: "Only those with this GTID, or one of UUID:N-M; can be given several times",
        is_repeated: true,
        ..FLAG
    },
    Described {
        name: START_TIME,
        takes: Takes::Value("TIME"),
        help: "Only those of TIME or later: YYYY-MM-DD hh:mm:ss",
        ..FLAG
    },
    Described {
        name: STOP_TIME,
        takes: Takes::Value("TIME"),
        help: "Only those before TIME: YYYY-MM-DD hh:mm:ss",
        ..FLAG
    },
];

/// The options that say in which time zone times are.
pub(crate) static ZONES: [Described<'static>; 2] = [
    Described {
        name: UTC,
        help: "Read and print times in UTC",
        ..FLAG
    },
    Described {
        name: TIME_ZONE,
        takes: Takes::Value("NAME"),
        help: "Read and print times in this time zone, such as Europe/Berlin",
        excludes: Some(UTC),
        ..FLAG
    },
];

/// The options that choose which transactions are listed.
pub(crate) static LISTED: [Described<'static>; 5] = [
    Described {
        name: DATABASE,
        short: Some('d'),
        takes: Takes::Value("NAME"),
        help: "Only the transactions that change a table of this database",
        ..FLAG
    },
    Described {
        name: TABLE,
        short: Some('T'),
        takes: Takes::Value("[NAME.]NAME"),
        help: "Only those that change this table; can be given several times",
        is_repeated: true,
        ..FLAG
    },
    Described {
        name: EXCLUDED_TABLE,
        takes: Takes::Value("[NAME.]NAME"),
        help: "Don't count this table; can be given several times",
        is_repeated: true,
        ..FLAG
    },
    Described {
        name: START,
        short: Some('j'),
        takes: Takes::Value("POS"),
        help: "Only the transactions that start at POS or after it",
        ..FLAG
    },
    Described {
        name: STOP,
        takes: Takes::Value("POS"),
        help: "Only those that start before POS",
        ..FLAG
    },
];

/// The options that choose which rows are shown.
pub(crate) static OF_SHOW: [Described<'static>; 6] = [
    Described {
        name: AT,
        takes: Takes::Value("POS"),
        help: "Only the transaction that has an event at POS; can be given several times",
        is_repeated: true,
        ..FLAG
    },
    Described {
        name: START,
        short: Some('j'),
        takes: Takes::Value("POS"),
        help: "Only the transactions that start at POS or after it",
        ..FLAG
    },
    Described {
        name: STOP,
        takes: Takes::Value("POS"),
        help: "Only those that start before POS",
        ..FLAG
    },
    Described {
        name: DATABASE,
        short: Some('d'),
        takes: Takes::Value("NAME"),
        help: "Only rows of tables of this database",
        ..FLAG
    },
    Described {
        name: TABLE,
        short: Some('T'),
        takes: Takes::Value("[NAME.]NAME"),
        help: "Only rows of this table; can be given several times",
        is_repeated: true,
        ..FLAG
    },
    Described {
        name: EXCLUDED_TABLE,
        takes: Takes::Value("[NAME.]NAME"),
        help: "No rows of this table; can be given several times",
        is_repeated: true,
        ..FLAG
    },
];
