//! The logs that are written, by their bytes.

use crate::rows_left::left_of;
use blog_trans::Selection;
use sample_logs::builder::{BEGIN, Part, T, XID, build, insert, map_of, update};
use sample_logs::logs::{no_changes, two_tables, two_transactions, two_updates};
use std::process::Abort;
use std::test::Fail;

/// Checks the bytes of the log of the rows that stay.
fn check_text(
    rt: &(impl AllocGlobal + Abort),
    bytes: &[u8],
    marks: &[bool],
    text: &[u8],
) -> Result<(), Fail> {
    let all = Selection::all();
    let left = left_of(rt.alloc(), rt, bytes, &all, marks)?.expect(rt, "room for the log");
    let index = left.index(rt.alloc(), 0)?;
    assert!(rt; index.log().bytes() == text);
    Ok(())
}

#[test]
fn an_update_stays_with_both_images(rt: HostRuntime) -> Result<(), Fail> {
    let second = build(&rt, &[BEGIN, Part::Map(T), update(1, &[2, 3]), XID])?;
    check_text(&rt, &two_updates(&rt)?, &[false, true], &second)?;
    let first = build(&rt, &[BEGIN, Part::Map(T), update(1, &[1, 2]), XID])?;
    check_text(&rt, &two_updates(&rt)?, &[true], &first)
}

#[test]
fn each_event_has_its_map(rt: HostRuntime) -> Result<(), Fail> {
    let parts = [
        BEGIN,
        map_of(1, b"t1"),
        insert(1, &[1]),
        map_of(1, b"t1"),
        insert(1, &[3]),
        XID,
    ];
    check_text(
        &rt,
        &two_tables(&rt)?,
        &[true, false, true],
        &build(&rt, &parts)?,
    )?;
    let other = [BEGIN, map_of(2, b"t2"), insert(2, &[2]), XID];
    check_text(
        &rt,
        &two_tables(&rt)?,
        &[false, true, false],
        &build(&rt, &other)?,
    )
}

#[test]
fn an_event_without_rows_stays(rt: HostRuntime) -> Result<(), Fail> {
    let rows = insert(1, &[5, 6]).open();
    let both = build(&rt, &[BEGIN, Part::Map(T), rows, insert(1, &[]), XID])?;
    let alone = build(&rt, &[BEGIN, Part::Map(T), insert(1, &[]), XID])?;
    check_text(&rt, &both, &[false, false], &alone)
}

#[test]
fn where_none_stays_there_is_no_transaction(rt: HostRuntime) -> Result<(), Fail> {
    let front = no_changes(&rt)?;
    check_text(&rt, &two_transactions(&rt)?, &[false, false], &front)?;
    check_text(&rt, &two_updates(&rt)?, &[], &front)
}
