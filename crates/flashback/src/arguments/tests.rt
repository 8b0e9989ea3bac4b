//! What the arguments ask for.

use super::{ArgumentsFault, Asked, ModeFault, Task, read_arguments};
use crate::tests::{arguments_of, check};
use blog_flash::{Mode, Selection};
use std::alloc::Global;
use std::test::Fail;

/// A run of this mode over a part of `a.binlog`, to standard output.
fn part(mode: Mode, start: u32, stop: Option<u32>) -> Task<'static> {
    Task {
        mode,
        selection: Selection {
            start,
            stop,
            database: None,
            table: None,
        },
        log: "a.binlog",
        result_file: None,
    }
}

/// Whether both mean the same changes.
fn is_selection(found: &Selection<'_>, wanted: &Selection<'_>) -> bool {
    found.start == wanted.start
        && found.stop == wanted.stop
        && found.database == wanted.database
        && found.table == wanted.table
}

/// Whether both are one run.
fn is_task(found: &Task<'_>, wanted: &Task<'_>) -> bool {
    let mode = found.mode == wanted.mode;
    let log = found.log == wanted.log;
    let file = found.result_file == wanted.result_file;
    let selection = is_selection(&found.selection, &wanted.selection);
    mode && log && file && selection
}

/// Whether the arguments ask for this run.
fn asks_for(alloc: Global, arguments: &[String], wanted: &Task<'_>) -> bool {
    match read_arguments(alloc, alloc, arguments) {
        Ok(Asked::Run(task)) => is_task(&task, wanted),
        _ => false,
    }
}

/// These arguments ask for this run.
fn check_task(rt: &HostRuntime, given: &[&str], wanted: &Task<'_>) -> Result<(), Fail> {
    let arguments = arguments_of(rt, given)?;
    let asked = asks_for(rt.alloc(), arguments.as_slice(), wanted);
    check(asked, "another run", given)?;
    Ok(())
}

/// Arguments that choose a mode of the whole log.
static MODES: [(&[&str], Mode); 8] = [
    (&["-B", "a.binlog"], Mode::Flashback),
    (&["--flashback", "a.binlog"], Mode::Flashback),
    (&["--forward", "a.binlog"], Mode::Forward),
    (&["--summary", "a.binlog"], Mode::Summary),
    (&["-B", "--sql", "a.binlog"], Mode::FlashbackSql),
    (&["--sql", "a.binlog", "--flashback"], Mode::FlashbackSql),
    (&["--forward", "--sql", "a.binlog"], Mode::ForwardSql),
    (&["--sql", "--forward", "a.binlog"], Mode::ForwardSql),
];

#[test]
fn a_mode_alone_means_the_whole_log(rt: HostRuntime) -> Result<(), Fail> {
    for (given, mode) in &MODES {
        check_task(&rt, given, &part(*mode, 4, None))?;
    }
    Ok(())
}

#[test]
fn sql_goes_with_two_modes(rt: HostRuntime) -> Result<(), Fail> {
    let arguments = arguments_of(&rt, &["--summary", "--sql", "a.binlog"])?;
    let answer = read_arguments(rt.alloc(), rt.alloc(), arguments.as_slice());
    assert!(rt; matches!(answer, Err(ArgumentsFault::Mode(ModeFault::SqlOfSummary))));
    Ok(())
}

/// One run's arguments, by options that are short, that hold their values, and that are long.
const SHORT: [&str; 12] = [
    "-B",
    "-j",
    "160",
    "--stop-position",
    "232",
    "-d",
    "shop",
    "-T",
    "orders",
    "-r",
    "undo",
    "a.binlog",
];

const ATTACHED: [&str; 7] = [
    "a.binlog",
    "-rundo",
    "-Torders",
    "-dshop",
    "-j160",
    "--stop-position=232",
    "-B",
];

const LONG: [&str; 10] = [
    "--result-file=undo",
    "--table=orders",
    "a.binlog",
    "--database",
    "shop",
    "--start-position",
    "160",
    "--stop-position",
    "232",
    "--flashback",
];

#[test]
fn options_have_a_short_and_a_long_form(rt: HostRuntime) -> Result<(), Fail> {
    let wanted = Task {
        mode: Mode::Flashback,
        selection: Selection {
            start: 160,
            stop: Some(232),
            database: Some(b"shop"),
            table: Some(b"orders"),
        },
        log: "a.binlog",
        result_file: Some("undo"),
    };
    check_task(&rt, &SHORT, &wanted)?;
    check_task(&rt, &ATTACHED, &wanted)?;
    check_task(&rt, &LONG, &wanted)?;
    Ok(())
}

/// Arguments that are positions.
static POSITIONS: [(&str, u32); 4] = [
    ("0", 0),
    ("0004", 4),
    ("4294967295", 4294967295),
    ("00000000000232", 232),
];

/// The argument is the position of a start, and of a stop.
fn check_position(rt: &HostRuntime, argument: &str, position: u32) -> Result<(), Fail> {
    let from = part(Mode::Flashback, position, None);
    check_task(rt, &["-B", "--start-position", argument, "a.binlog"], &from)?;
    let up_to = part(Mode::Flashback, 4, Some(position));
    check_task(rt, &["-B", "--stop-position", argument, "a.binlog"], &up_to)
}

#[test]
fn positions_are_digits_alone(rt: HostRuntime) -> Result<(), Fail> {
    for (argument, position) in &POSITIONS {
        check_position(&rt, argument, *position)?;
    }
    Ok(())
}

static NAMES: [&str; 8] = ["", " ", "-B", "--", "--help", "a=b", "`", "Käse"];

/// The name of a schema, of a table and of a file is this argument.
fn check_name(rt: &HostRuntime, name: &str) -> Result<(), Fail> {
    let wanted = Task {
        mode: Mode::Flashback,
        selection: Selection {
            start: 4,
            stop: None,
            database: Some(name.as_bytes()),
            table: Some(name.as_bytes()),
        },
        log: "a.binlog",
        result_file: Some(name),
    };
    check_task(
        rt,
        &["-B", "-d", name, "-T", name, "-r", name, "a.binlog"],
        &wanted,
    )
}

#[test]
fn names_are_the_bytes_of_their_arguments(rt: HostRuntime) -> Result<(), Fail> {
    for name in &NAMES {
        check_name(&rt, name)?;
    }
    Ok(())
}

/// Arguments that the parser refuses, whatever mode they choose.
static WRONG: [&[&str]; 5] = [
    &["-j", "x", "a.binlog"],
    &["--forward", "-B", "--no-such-word"],
    &["--stop-position", "+4", "a.binlog"],
    &["--summary", "--sql"],
    &["--summary", "--sql", "-j", "x", "a.binlog"],
];

/// Whether the parser refuses these arguments.
fn is_refused(alloc: Global, arguments: &[String]) -> bool {
    matches!(
        read_arguments(alloc, alloc, arguments),
        Err(ArgumentsFault::Wrong(_))
    )
}

#[test]
fn what_the_parser_refuses_comes_before_the_mode(rt: HostRuntime) -> Result<(), Fail> {
    for given in &WRONG {
        let arguments = arguments_of(&rt, given)?;
        assert!(rt; is_refused(rt.alloc(), arguments.as_slice()));
    }
    Ok(())
}
