//! Rows events of version 1, and logs of servers before 5.6.1.

use crate::refusing_calls::{Built, check_fault};
use crate::short_reads::check_written;
use blog_event::Fault;
use blog_flash::Mode;
use blog_trans::Selection;
use log_calls::calls::{flashback, forward};
use sample_logs::builder::{
    BEGIN, Part, T, XID, build, build_after, delete, insert, map_of, old_front, update, with_bytes,
};
use std::process::Abort;
use std::test::Fail;

/// A run of a log writes this text in this mode.
fn check_run<R: AllocGlobal + Abort>(rt: &R, log: &[u8], mode: Mode, text: &[u8]) {
    check_written(rt, log, 4_096, mode, text);
}

/// The log is undone by the other, is its own normal form, and is what undoes the other.
fn check_undone<R: AllocGlobal + Abort>(rt: &R, log: &[u8], undone: &[u8]) {
    check_run(rt, log, Mode::Flashback, undone);
    check_run(rt, log, Mode::Forward, log);
    check_run(rt, undone, Mode::Flashback, log);
    check_run(rt, undone, Mode::Forward, undone);
}

/// A statement of rows events of both versions, with extra bytes in one of version 2.
fn both_versions(rt: &impl AllocGlobal, extra: &[u8]) -> Built {
    let parts = [
        BEGIN,
        map_of(1, b"t1"),
        map_of(2, b"t2"),
        insert(1, &[1]).old().open(),
        insert(1, &[2]).with_extra(extra).open(),
        update(2, &[3, 4]).old().open(),
        update(1, &[5, 6]),
        XID,
    ];
    build(rt, &parts)
}

/// What undoes it.
fn both_versions_undone(rt: &impl AllocGlobal) -> Built {
    let parts = [
        BEGIN,
        map_of(1, b"t1"),
        map_of(2, b"t2"),
        update(1, &[6, 5]).open(),
        update(2, &[4, 3]).old().open(),
        delete(1, &[2]).open(),
        delete(1, &[1]).old(),
        XID,
    ];
    build(rt, &parts)
}

#[test]
fn a_statement_may_have_both_versions(rt: HostRuntime) -> Result<(), Fail> {
    let normal = both_versions(&rt, &[])?;
    let undone = both_versions_undone(&rt)?;
    check_undone(&rt, &normal, &undone);
    let log = both_versions(&rt, &[0xAA, 0xBB])?;
    let all = Selection::all();
    let written = forward(rt.alloc(), &log, &all)?;
    assert!(rt; written.as_slice() == normal.as_slice());
    let written = flashback(rt.alloc(), &log, &all)?;
    assert!(rt; written.as_slice() == undone.as_slice());
    Ok(())
}

/// A log of a server of version 5.5.62 with one rows event, whose format description has so many post-header lengths.
fn with_lengths(rt: &impl AllocGlobal, count: u8, rows: Part<'_>) -> Result<Vec<u8>, Fail> {
    let front = with_bytes(rt, old_front(), &[(13, count.wrapping_add(76))])?;
    let front = front
        .get(..usize::from(count).wrapping_add(80))
        .ok_or("a shorter front")?;
    Ok(build_after(rt, front, &[BEGIN, Part::Map(T), rows, XID])?)
}

#[test]
fn old_servers_have_25_lengths(rt: HostRuntime) -> Result<(), Fail> {
    for (count, fault) in [
        (24, Some(Fault::BadFormat { pos: 4 })),
        (25, None),
        (26, None),
    ] {
        let log = with_lengths(&rt, count, insert(1, &[5]).old())?;
        check_fault(&rt, &log, &Selection::all(), fault);
    }
    Ok(())
}

/// The log with so many lengths has so many bytes, and is undone by the same log with another type of its rows event.
fn check_lengths<R: AllocGlobal + Abort>(
    rt: &R,
    count: u8,
    len: usize,
    at: usize,
) -> Result<(), Fail> {
    let inserted = with_lengths(rt, count, insert(1, &[5]).old())?;
    let deleted = with_bytes(rt, &inserted, &[(at, 25)])?;
    assert!(rt; (inserted.len(), inserted.get(at)) == (len, Some(&23)));
    check_undone(rt, &inserted, &deleted);
    Ok(())
}

#[test]
fn logs_of_25_lengths_are_undone(rt: HostRuntime) -> Result<(), Fail> {
    check_lengths(&rt, 25, 242, 185)?;
    check_lengths(&rt, 26, 243, 186)
}
