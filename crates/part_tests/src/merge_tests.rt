//! Units whose rows were changed since, and are merged.

use crate::refusal_tests::refuse_each;
use crate::runs::{Came, UNDO, between, changes_of, logs_with};
use crate::wanted_tests::ANY;
use blog_trans::Selection;
use sample_logs::builder::{BEGIN, Part, T, Table, XID, build, update};
use std::process::Abort;
use std::test::Fail;
use undo_run::UnitRequest;

/// A table of two columns.
const PAIRS: Part<'static> = Part::Map(Table {
    types: &[3, 3],
    ..T
});

/// A rows event that updates rows of two columns, whose images follow each other.
fn updated(images: &[u8]) -> Part<'_> {
    update(1, &[]).over(2, &[0xFF, 0xFF], images)
}

/// The rows 5, 1 and 6, 1 become 5, 9 and 6, 9.
#[rattlefmt::skip]
static MISTAKE: [u8; 36] = [
    0, 5, 0, 0, 0, 1, 0, 0, 0, 0, 5, 0, 0, 0, 9, 0, 0, 0,
    0, 6, 0, 0, 0, 1, 0, 0, 0, 0, 6, 0, 0, 0, 9, 0, 0, 0,
];

/// The row 5, 9 becomes 7, 9.
static SINCE: [u8; 18] = [0, 5, 0, 0, 0, 9, 0, 0, 0, 0, 7, 0, 0, 0, 9, 0, 0, 0];

/// The row 7, 9 becomes 8, 9.
static FURTHER: [u8; 18] = [0, 7, 0, 0, 0, 9, 0, 0, 0, 0, 8, 0, 0, 0, 9, 0, 0, 0];

/// The row 7, 1 becomes 7, 9.
static MERGED: [u8; 18] = [0, 7, 0, 0, 0, 1, 0, 0, 0, 0, 7, 0, 0, 0, 9, 0, 0, 0];

/// The unit at 120, whose rows are merged.
const FIRST: UnitRequest<'static> = UnitRequest {
    wanted: ANY,
    at: &[120],
    leaves: false,
    merges: true,
};

/// A log of a mistake, and of a change of one of its rows.
fn touched<R: AllocGlobal>(rt: &R) -> Result<Vec<u8>, Fail> {
    let parts = [
        BEGIN,
        PAIRS,
        updated(&MISTAKE),
        XID,
        BEGIN,
        PAIRS,
        updated(&SINCE),
        XID,
    ];
    Ok(build(rt, &parts)?)
}

/// What undoes the mistake, where the row that was changed since is merged.
fn merged<R: AllocGlobal + Abort>(rt: &R) -> Result<Vec<u8>, Fail> {
    let parts = [
        BEGIN,
        PAIRS,
        updated(&MERGED),
        XID,
        BEGIN,
        PAIRS,
        updated(&MISTAKE[18..]),
        XID,
    ];
    let wanted = build(rt, &parts)?;
    let (done, undone) = changes_of(rt, &wanted, &Selection::all(), &UNDO)?;
    assert!(rt; done.is_ok());
    Ok(undone)
}

/// What is reported of that.
const REPORT: &str = "\
undoes 1 transaction of binlog.000042: `d`.`t` updates 2
looked at 1 later transaction, up to 446 of binlog.000042: none changes these rows
child rows of foreign keys that cascade follow the updated and deleted rows, and are not counted
merges 1 row that was changed since, and keeps these changes:
binlog.000042 369 1970-01-01 00:00:00 `d`.`t`: update
";

#[test]
fn a_row_that_was_changed_since_is_merged(rt: HostRuntime) -> Result<(), Fail> {
    let log = touched(&rt)?;
    let wanted = merged(&rt)?;
    let part = between(4, None);
    let (_, came, text, told) = logs_with(&rt, &log, &[], &part, Some(FIRST), true, &[])?;
    assert!(rt; came == Came::Done);
    assert!(rt; text == wanted);
    assert!(rt; told.as_slice() == REPORT.as_bytes());
    Ok(())
}

/// What came later isn't looked at, so nothing is merged.
#[test]
fn without_a_look_nothing_is_merged(rt: HostRuntime) -> Result<(), Fail> {
    let log = touched(&rt)?;
    let wanted = build(&rt, &[BEGIN, PAIRS, updated(&MISTAKE), XID])?;
    let (done, undone) = changes_of(&rt, &wanted, &Selection::all(), &UNDO)?;
    assert!(rt; done.is_ok());
    let part = between(4, None);
    let (_, came, text, _) = logs_with(&rt, &log, &[], &part, Some(FIRST), false, &[])?;
    assert!(rt; came == Came::Done);
    assert!(rt; text == undone);
    Ok(())
}

#[test]
fn a_row_that_was_changed_in_a_later_log_is_merged(rt: HostRuntime) -> Result<(), Fail> {
    let log = build(&rt, &[BEGIN, PAIRS, updated(&MISTAKE), XID])?;
    let next = build(&rt, &[BEGIN, PAIRS, updated(&SINCE), XID])?;
    let later: [(&str, &[u8]); 1] = [("binlog.000043", &next)];
    let wanted = merged(&rt)?;
    let part = between(4, None);
    let (_, came, text, told) = logs_with(&rt, &log, &[], &part, Some(FIRST), true, &later)?;
    assert!(rt; came == Came::Done);
    assert!(rt; text == wanted);
    assert!(rt; told.ends_with(LATER.as_bytes()));
    Ok(())
}

/// The end of its report.
const LATER: &str = "\
merges 1 row that was changed since, and keeps these changes:
binlog.000043 197 1970-01-01 00:00:00 `d`.`t`: update
";

#[test]
fn a_refused_request_merges_nothing(rt: HostRuntime) -> Result<(), Fail> {
    let log = touched(&rt)?;
    let next = build(&rt, &[BEGIN, PAIRS, updated(&FURTHER), XID])?;
    let later: [(&str, &[u8]); 1] = [("binlog.000043", &next)];
    let part = between(4, None);
    refuse_each(&rt, &log, &[], &part, Some(FIRST), true, &later, 40)
}
