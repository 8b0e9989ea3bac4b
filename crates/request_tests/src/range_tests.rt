//! The range of each unit: it is undone where the unit can be, and refused by the unit's fault where it can't.

use list_calls::parts::{MAP, ONE, PAYLOAD, ROLLBACK};
use list_calls::undoing::undo_each;
use sample_logs::builder::{BEGIN, DROP_TABLE, GTID, Part, XID, build};
use sample_logs::logs::{
    extra_bytes, longer_format, map_alone, map_twice, newer_server, nine_columns, no_changes,
    one_delete, one_insert, query_inside, two_inserts, two_statements, two_tables,
    two_transactions, two_updates,
};
use sample_logs::samples::{ALTER_BETWEEN, INSERT, MULTI_TABLE, SAVEPOINT_KEPT, UPDATE};
use sample_logs::summed::{CLOSED_PLAIN, IN_USE_PLAIN};
use std::alloc::AllocError;
use std::process::Abort;
use std::test::Fail;

/// Checks how many units of a log can be undone and how many can't.
fn check_each(
    rt: &(impl AllocGlobal + Abort),
    bytes: &[u8],
    undone: usize,
    refused: usize,
) -> Result<(), Fail> {
    assert!(rt; undo_each(rt, bytes)? == (undone, refused));
    Ok(())
}

#[test]
fn units_of_a_server_are_undone_or_refused(rt: HostRuntime) -> Result<(), Fail> {
    check_each(&rt, &INSERT, 1, 0)?;
    check_each(&rt, &UPDATE, 1, 0)?;
    check_each(&rt, &MULTI_TABLE, 1, 0)?;
    check_each(&rt, &SAVEPOINT_KEPT, 1, 0)?;
    check_each(&rt, &ALTER_BETWEEN, 2, 1)?;
    check_each(&rt, &CLOSED_PLAIN, 4, 0)?;
    check_each(&rt, &IN_USE_PLAIN, 4, 3)
}

#[rattlefmt::skip]
const SMALL_UNITS: &[Part<'static>] = &[
    BEGIN, XID, BEGIN, MAP, XID, BEGIN, MAP, ONE, ROLLBACK, GTID, DROP_TABLE, PAYLOAD, BEGIN,
    PAYLOAD, MAP, ONE, XID, GTID, BEGIN, MAP, ONE, XID, MAP, ONE, BEGIN, MAP, ONE,
];

#[test]
fn small_units_are_undone_or_refused(rt: HostRuntime) -> Result<(), Fail> {
    let bytes = build(&rt, SMALL_UNITS)?;
    check_each(&rt, &bytes, 3, 6)?;
    let cut = bytes.get(..bytes.len().wrapping_sub(1)).ok_or("a log")?;
    check_each(&rt, cut, 3, 6)
}

/// Checks the units of a log that was built.
fn check_built(
    rt: &(impl AllocGlobal + Abort),
    log: Result<Vec<u8>, AllocError>,
    undone: usize,
    refused: usize,
) -> Result<(), Fail> {
    check_each(rt, &log?, undone, refused)
}

#[test]
fn units_of_worked_logs_are_undone_or_refused(rt: HostRuntime) -> Result<(), Fail> {
    check_built(&rt, no_changes(&rt), 0, 0)?;
    check_built(&rt, map_alone(&rt), 1, 0)?;
    check_built(&rt, one_insert(&rt), 1, 0)?;
    check_built(&rt, one_delete(&rt), 1, 0)?;
    check_built(&rt, two_inserts(&rt), 1, 0)?;
    check_built(&rt, two_updates(&rt), 1, 0)?;
    check_built(&rt, two_tables(&rt), 1, 0)?;
    check_built(&rt, two_statements(&rt), 1, 0)?;
    check_built(&rt, two_transactions(&rt), 2, 0)?;
    check_built(&rt, map_twice(&rt), 1, 0)?;
    check_built(&rt, nine_columns(&rt), 1, 0)?;
    check_built(&rt, extra_bytes(&rt), 1, 0)?;
    check_built(&rt, newer_server(&rt), 1, 0)?;
    check_built(&rt, longer_format(&rt), 1, 0)?;
    check_built(&rt, query_inside(&rt, b"DROP TABLE t"), 0, 1)?;
    check_built(&rt, query_inside(&rt, b"ROLLBACK TO `s`"), 0, 1)
}
