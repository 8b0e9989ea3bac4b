//! Every pattern of marks of small logs, and all marks of the sample logs.

use crate::rows_left::{changes_of, check_left};
use blog_trans::Selection;
use sample_logs::builder::{BEGIN, COMMIT, Part, T, XID, build, delete, insert, map_of, update};
use sample_logs::logs::{
    extra_bytes, longer_format, map_alone, map_twice, newer_server, nine_columns, no_changes,
    one_delete, one_insert, three_inserts, two_inserts, two_statements, two_tables,
    two_transactions, two_updates,
};
use sample_logs::samples::{ALTER_BETWEEN, INSERT, MULTI_TABLE, SAVEPOINT_KEPT, UPDATE};
use sample_logs::small::{INSERT_ONE_ROW, OLD_SERVER};
use std::alloc::AllocError;
use std::process::Abort;
use std::test::Fail;

/// No log here has more changes.
const MOST_CHANGES: usize = 8;

/// The patterns of so many marks.
const PATTERNS: u32 = 256;

/// The range of a log.
fn between(start: u32, stop: u32) -> Selection<'static> {
    Selection {
        start,
        stop: Some(stop),
        database: None,
        table: None,
    }
}

/// Checks a log with every pattern of marks, also with a mark too many and one too few.
fn check_patterns(
    rt: &(impl AllocGlobal + Abort),
    bytes: &[u8],
    sel: &Selection<'_>,
) -> Result<(), Fail> {
    let many = changes_of(rt.alloc(), bytes, sel)?.len();
    assert!(rt; many <= MOST_CHANGES);
    for pattern in 0..=PATTERNS {
        let mut marks = Vec::new(rt.alloc());
        let mut bits = pattern;
        for _ in 0..many {
            marks.push(bits % 2 == 1)?;
            bits /= 2;
        }
        if bits > 0 {
            return Ok(());
        }
        check_left(rt, bytes, sel, &marks)?;
        marks.push(true)?;
        check_left(rt, bytes, sel, &marks)?;
        let _ = marks.pop();
        let _ = marks.pop();
        check_left(rt, bytes, sel, &marks)?;
    }
    Err("more patterns than are tried".into())
}

/// Two transactions of updates, inserts and deletes of two tables, an event without rows among them.
fn mixed(rt: &impl AllocGlobal) -> Result<Vec<u8>, AllocError> {
    let parts = [
        BEGIN,
        map_of(1, b"t1"),
        map_of(2, b"t2"),
        update(1, &[1, 2, 3, 4]).open(),
        insert(2, &[]).open(),
        delete(2, &[7]),
        COMMIT,
        BEGIN,
        Part::Map(T),
        update(1, &[5, 6]),
        map_of(2, b"t2"),
        insert(2, &[8, 9]),
        XID,
    ];
    build(rt, &parts)
}

#[test]
fn every_pattern_of_marks_of_small_logs(rt: HostRuntime) -> Result<(), Fail> {
    let all = Selection::all();
    check_patterns(&rt, &mixed(&rt)?, &all)?;
    check_patterns(&rt, &two_updates(&rt)?, &all)?;
    check_patterns(&rt, &two_transactions(&rt)?, &all)?;
    check_patterns(&rt, &two_tables(&rt)?, &all)?;
    check_patterns(&rt, &two_statements(&rt)?, &all)?;
    check_patterns(&rt, &three_inserts(&rt)?, &all)?;
    check_patterns(&rt, &nine_columns(&rt)?, &all)
}

#[test]
fn every_pattern_of_marks_of_logs_of_servers(rt: HostRuntime) -> Result<(), Fail> {
    let all = Selection::all();
    check_patterns(&rt, &INSERT, &all)?;
    check_patterns(&rt, &UPDATE, &all)?;
    check_patterns(&rt, &MULTI_TABLE, &all)?;
    check_patterns(&rt, &SAVEPOINT_KEPT, &all)?;
    check_patterns(&rt, &ALTER_BETWEEN, &between(240, 500))?;
    check_patterns(&rt, &ALTER_BETWEEN, &between(682, 947))?;
    check_patterns(&rt, &INSERT_ONE_ROW, &all)?;
    check_patterns(&rt, &OLD_SERVER, &all)
}

#[test]
fn every_pattern_of_marks_of_other_logs(rt: HostRuntime) -> Result<(), Fail> {
    let all = Selection::all();
    check_patterns(&rt, &no_changes(&rt)?, &all)?;
    check_patterns(&rt, &one_insert(&rt)?, &all)?;
    check_patterns(&rt, &one_delete(&rt)?, &all)?;
    check_patterns(&rt, &two_inserts(&rt)?, &all)?;
    check_patterns(&rt, &extra_bytes(&rt)?, &all)?;
    check_patterns(&rt, &map_twice(&rt)?, &all)?;
    check_patterns(&rt, &map_alone(&rt)?, &all)?;
    check_patterns(&rt, &newer_server(&rt)?, &all)?;
    check_patterns(&rt, &longer_format(&rt)?, &all)
}
