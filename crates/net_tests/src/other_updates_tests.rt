//! Whether the changes of a log are some updates.

use crate::logs::{indexed, source_of};
use blog_net::has_updates;
use sample_logs::builder::{BEGIN, Part, T, XID, build, delete, insert, map_of, update};
use sample_logs::logs::two_updates;
use std::alloc::AllocError;
use std::process::Abort;
use std::test::Fail;

/// Checks whether the changes of a log are the updates of another one.
fn check_has(
    rt: &(impl AllocGlobal + Abort),
    log: &[u8],
    other: &[u8],
    wanted: bool,
) -> Result<(), Fail> {
    let source = source_of(rt.alloc(), other)?;
    let index = indexed(rt.alloc(), log)?;
    assert!(rt; has_updates(&index, &source.updates) == wanted);
    Ok(())
}

/// A transaction of these events after the map of `t`.
fn of_rows(rt: &impl AllocGlobal, rows: Part<'_>) -> Result<Vec<u8>, AllocError> {
    build(rt, &[BEGIN, Part::Map(T), rows, XID])
}

#[test]
fn the_same_updates_otherwise_in_events(rt: HostRuntime) -> Result<(), Fail> {
    let parts = [
        BEGIN,
        Part::Map(T),
        update(1, &[1, 2]).open(),
        update(1, &[2, 3]),
        XID,
    ];
    let apart = build(&rt, &parts)?;
    check_has(&rt, &two_updates(&rt)?, &apart, true)?;
    check_has(&rt, &apart, &two_updates(&rt)?, true)
}

#[test]
fn other_updates(rt: HostRuntime) -> Result<(), Fail> {
    let two = two_updates(&rt)?;
    let first = of_rows(&rt, update(1, &[1, 2]))?;
    let three = of_rows(&rt, update(1, &[1, 2, 2, 3, 3, 4]))?;
    let other = of_rows(&rt, update(1, &[1, 2, 2, 4]))?;
    let turned = of_rows(&rt, update(1, &[2, 1, 3, 2]))?;
    check_has(&rt, &two, &first, false)?;
    check_has(&rt, &first, &two, false)?;
    check_has(&rt, &two, &three, false)?;
    check_has(&rt, &three, &two, false)?;
    check_has(&rt, &two, &other, false)?;
    check_has(&rt, &two, &turned, false)
}

#[test]
fn updates_of_another_table(rt: HostRuntime) -> Result<(), Fail> {
    let other = build(
        &rt,
        &[BEGIN, map_of(1, b"u"), update(1, &[1, 2, 2, 3]), XID],
    )?;
    check_has(&rt, &two_updates(&rt)?, &other, false)
}

#[test]
fn other_changes_than_updates(rt: HostRuntime) -> Result<(), Fail> {
    let updates = of_rows(&rt, update(1, &[1, 2]))?;
    check_has(&rt, &of_rows(&rt, insert(1, &[1]))?, &updates, false)?;
    check_has(&rt, &of_rows(&rt, delete(1, &[1, 2]))?, &updates, false)
}
