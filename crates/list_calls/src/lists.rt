//! How the lists of these tests are asked for.

use blog_choice::{TableChoice, TableName};
use blog_list::{Form, Sorting, Style};
use blog_request::Wanted;
use jiff::tz::TimeZone;

/// All units are wanted.
pub const ALL: Wanted<'static> = Wanted {
    start: None,
    stop: None,
    from_time: None,
    to_time: None,
    threads: &[],
    gtids: &[],
    choice: TableChoice {
        database: None,
        tables: &[],
        excluded: &[],
    },
};

/// The units of these tables of any database, without others.
pub fn of_tables<'c>(tables: &'c [TableName<'c>], excluded: &'c [TableName<'c>]) -> Wanted<'c> {
    Wanted {
        start: None,
        stop: None,
        from_time: None,
        to_time: None,
        threads: &[],
        gtids: &[],
        choice: TableChoice {
            database: None,
            tables,
            excluded,
        },
    }
}

/// The units of a database.
pub fn of_database<'c>(name: &'c [u8]) -> Wanted<'c> {
    Wanted {
        start: None,
        stop: None,
        from_time: None,
        to_time: None,
        threads: &[],
        gtids: &[],
        choice: TableChoice {
            database: Some(name),
            tables: &[],
            excluded: &[],
        },
    }
}

/// As text, with times in UTC and without global transaction ids.
pub const TEXT: Style<'static> = Style {
    form: Form::Text,
    zone: TimeZone::UTC,
    gtids: false,
    sorting: Sorting::Place,
    seed: 0,
};

/// As JSON, with times in UTC.
pub const JSON: Style<'static> = Style {
    form: Form::Json,
    zone: TimeZone::UTC,
    gtids: false,
    sorting: Sorting::Place,
    seed: 0,
};
