//! The logs that are written, by their bytes.

use crate::logs::{check_text, net_of, source_of};
use blog_flash::flashback;
use blog_trans::Selection;
use sample_logs::builder::{
    BEGIN, COMMIT, Part, T, Table, XID, build, build_after, map_of, old_front, update,
};
use sample_logs::logs::two_updates;
use std::alloc::AllocError;
use std::process::Abort;
use std::test::Fail;

/// A table of two LONG columns. The second can be NULL.
const TWO_COLUMNS: Table<'static> = Table {
    types: &[3, 3],
    nullable: &[3],
    ..T
};

/// The row 1, NULL, and then the row 1, 9.
const NULL_TO_NINE: &[u8] = b"\xFE\x01\0\0\0\xFC\x01\0\0\0\x09\0\0\0";

/// A transaction of updates of two tables: the row 1 to 2 and the row 3 to 4 of `t1`, and the row 5 to 6 of `t2`.
fn two_tables(rt: &impl AllocGlobal) -> Result<Vec<u8>, AllocError> {
    let first = update(1, &[1, 2, 3, 4]).open();
    let parts = [
        BEGIN,
        map_of(1, b"t1"),
        map_of(2, b"t2"),
        first,
        update(2, &[5, 6]),
        XID,
    ];
    build(rt, &parts)
}

#[test]
fn one_update_is_a_statement(rt: HostRuntime) -> Result<(), Fail> {
    let log = build(&rt, &[BEGIN, Part::Map(T), update(1, &[1, 2]), COMMIT])?;
    check_text(&rt, &source_of(rt.alloc(), &log)?, &log)
}

#[test]
fn each_update_is_a_statement_with_its_map(rt: HostRuntime) -> Result<(), Fail> {
    let text = build(
        &rt,
        &[
            BEGIN,
            map_of(1, b"t1"),
            update(1, &[1, 2]),
            map_of(1, b"t1"),
            update(1, &[3, 4]),
            map_of(2, b"t2"),
            update(2, &[5, 6]),
            XID,
        ],
    )?;
    check_text(&rt, &source_of(rt.alloc(), &two_tables(&rt)?)?, &text)
}

#[test]
fn its_undo_has_them_turned_round_and_the_last_first(rt: HostRuntime) -> Result<(), Fail> {
    let log = two_tables(&rt)?;
    let net = net_of(rt.alloc(), &source_of(rt.alloc(), &log)?).expect(&rt, "a log of them");
    let index = net.index(rt.alloc(), 0)?;
    let undone = build(
        &rt,
        &[
            BEGIN,
            map_of(2, b"t2"),
            update(2, &[6, 5]),
            map_of(1, b"t1"),
            update(1, &[4, 3]),
            map_of(1, b"t1"),
            update(1, &[2, 1]),
            XID,
        ],
    )?;
    let text = flashback(rt.alloc(), index.log().bytes(), &Selection::all())?;
    assert!(rt; text == undone);
    Ok(())
}

#[test]
fn rows_events_of_version_1(rt: HostRuntime) -> Result<(), Fail> {
    let rows = update(1, &[1, 2, 2, 3]).old();
    let log = build_after(&rt, old_front(), &[BEGIN, Part::Map(T), rows, XID])?;
    let parts = [
        BEGIN,
        Part::Map(T),
        update(1, &[1, 2]).old(),
        Part::Map(T),
        update(1, &[2, 3]).old(),
        XID,
    ];
    let text = build_after(&rt, old_front(), &parts)?;
    check_text(&rt, &source_of(rt.alloc(), &log)?, &text)
}

#[test]
fn extra_bytes_stay(rt: HostRuntime) -> Result<(), Fail> {
    let rows = update(1, &[1, 2, 2, 3]).with_extra(b"\xAA\xBB");
    let log = build(&rt, &[BEGIN, Part::Map(T), rows, XID])?;
    let parts = [
        BEGIN,
        Part::Map(T),
        update(1, &[1, 2]).with_extra(b"\xAA\xBB"),
        Part::Map(T),
        update(1, &[2, 3]).with_extra(b"\xAA\xBB"),
        XID,
    ];
    check_text(&rt, &source_of(rt.alloc(), &log)?, &build(&rt, &parts)?)
}

#[test]
fn images_with_null(rt: HostRuntime) -> Result<(), Fail> {
    let rows = update(1, &[]).over(2, &[0xFF, 0xFF], NULL_TO_NINE);
    let log = build(&rt, &[BEGIN, Part::Map(TWO_COLUMNS), rows, XID])?;
    check_text(&rt, &source_of(rt.alloc(), &log)?, &log)
}

#[test]
fn updates_of_several_transactions(rt: HostRuntime) -> Result<(), Fail> {
    let parts = [
        BEGIN,
        Part::Map(T),
        update(1, &[1, 2]),
        COMMIT,
        BEGIN,
        Part::Map(T),
        update(1, &[2, 3]),
        XID,
    ];
    let one = [
        BEGIN,
        Part::Map(T),
        update(1, &[1, 2]),
        Part::Map(T),
        update(1, &[2, 3]),
        XID,
    ];
    let log = build(&rt, &parts)?;
    check_text(&rt, &source_of(rt.alloc(), &log)?, &build(&rt, &one)?)
}

#[test]
fn no_updates_are_an_empty_transaction(rt: HostRuntime) -> Result<(), Fail> {
    let log = two_updates(&rt)?;
    let mut source = source_of(rt.alloc(), &log)?;
    source.updates.clear();
    check_text(&rt, &source, &build(&rt, &[BEGIN, XID])?)
}
