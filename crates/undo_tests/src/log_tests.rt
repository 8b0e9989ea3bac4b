//! The built logs have the bytes and the lengths that they are to have.

use sample_logs::builder::{BEGIN, Part, T, XID, build_after, insert, old_front};
use sample_logs::logs::{
    extra_bytes, insert_and_drop, longer_format, map_alone, map_twice, newer_server, nine_columns,
    no_changes, one_insert, query_inside, two_inserts, two_statements, two_tables,
    two_transactions, two_updates,
};
use sample_logs::small::{DROP_TABLE_BYTES, INSERT_ONE_ROW, OLD_SERVER};
use std::alloc::AllocError;
use std::process::Abort;
use std::test::Fail;

type Built = Result<Vec<u8>, AllocError>;

#[test]
fn the_insert_of_one_row_has_its_bytes(rt: HostRuntime) -> Result<(), Fail> {
    assert!(rt; one_insert(&rt)?.as_slice() == INSERT_ONE_ROW.as_slice());
    let mut log = INSERT_ONE_ROW.to_vec(rt.alloc())?;
    log.extend_from_slice(&DROP_TABLE_BYTES)?;
    assert!(rt; insert_and_drop(&rt)?.as_slice() == log.as_slice());
    let rows = insert(1, &[5]).old();
    let old = build_after(&rt, old_front(), &[BEGIN, Part::Map(T), rows, XID])?;
    assert!(rt; old.as_slice() == OLD_SERVER.as_slice());
    Ok(())
}

/// A log has so many bytes.
fn check_len<R: AllocGlobal + Abort>(rt: &R, log: Built, len: usize) {
    assert!(rt; log.expect(rt, "memory for a log").len() == len);
}

#[test]
fn logs_have_their_lengths(rt: HostRuntime) {
    check_len(&rt, no_changes(&rt), 120);
    check_len(&rt, one_insert(&rt), 259);
    check_len(&rt, two_inserts(&rt), 264);
    check_len(&rt, two_updates(&rt), 275);
    check_len(&rt, two_transactions(&rt), 499);
    check_len(&rt, two_tables(&rt), 370);
    check_len(&rt, map_twice(&rt), 296);
    check_len(&rt, insert_and_drop(&rt), 305);
    check_len(&rt, nine_columns(&rt), 332);
    check_len(&rt, extra_bytes(&rt), 376);
    check_len(&rt, map_alone(&rt), 236);
    check_len(&rt, query_inside(&rt, b"SAVEPOINT `a`"), 306);
    check_len(&rt, newer_server(&rt), 396);
    check_len(&rt, longer_format(&rt), 265);
    check_len(&rt, two_statements(&rt), 332);
}
