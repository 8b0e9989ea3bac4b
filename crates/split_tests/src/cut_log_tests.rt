//! What is known of logs whose statements are cut.

use crate::splits::split;
use blog_event::Fault;
use blog_flash::{Selection, flashback, forward, sql, summary};
use blog_run::WritingFault;
use sample_logs::logs::{
    extra_bytes, longer_format, map_alone, map_twice, newer_server, nine_columns, no_changes,
    one_delete, one_insert, two_inserts, two_statements, two_tables, two_transactions, two_updates,
};
use sample_logs::samples::{ALTER_BETWEEN, INSERT, MULTI_TABLE, SAVEPOINT_KEPT, UPDATE};
use sample_logs::summed::CLOSED_PLAIN;
use std::alloc::AllocError;
use std::process::Abort;
use std::test::Fail;

type Built = Result<Vec<u8>, AllocError>;

fn cut_at<R: AllocGlobal + Abort>(rt: &R, log: &[u8], limit: usize) -> Vec<u8> {
    split(rt, log, limit).ok().expect(rt, "the log is split")
}

fn normal_form<R: AllocGlobal + Abort>(rt: &R, log: &[u8]) -> Vec<u8> {
    forward(rt.alloc(), log, &Selection::all()).expect(rt, "an accepted log")
}

/// A log's changes as pseudo-SQL, or those that undo it.
fn printed<R: AllocGlobal + Abort>(rt: &R, log: &[u8], undo: bool) -> Vec<u8> {
    sql(rt.alloc(), log, &Selection::all(), undo).expect(rt, "an accepted log")
}

/// The first line of a summary, of transactions, and what is behind the second, of statements.
fn counted(summary: &[u8]) -> (&[u8], &[u8]) {
    let mut lines = summary.splitn(3, |byte| *byte == b'\n');
    let transactions = lines.next().unwrap_or(&[]);
    lines.next();
    (transactions, lines.next().unwrap_or(&[]))
}

/// Two logs have as many transactions, and as many rows of each table.
fn check_counts<R: AllocGlobal + Abort>(rt: &R, cut: &[u8], log: &[u8]) {
    let all = Selection::all();
    let cut_counts = summary(rt.alloc(), cut, &all).expect(rt, "an accepted log");
    let counts = summary(rt.alloc(), log, &all).expect(rt, "an accepted log");
    let (cut_transactions, cut_rows) = counted(&cut_counts);
    let (transactions, rows) = counted(&counts);
    assert!(rt; cut_transactions == transactions);
    assert!(rt; cut_rows == rows);
}

/// Cut at this size the log has the same changes in as many transactions, and what undoes it undoes them.
fn check_cut<R: AllocGlobal + Abort>(rt: &R, log: &[u8], limit: usize) {
    let cut = cut_at(rt, log, limit);
    check_counts(rt, &cut, log);
    let undoing = printed(rt, log, true);
    assert!(rt; printed(rt, &cut, false).as_slice() == printed(rt, log, false).as_slice());
    assert!(rt; printed(rt, &cut, true).as_slice() == undoing.as_slice());
    assert!(rt; normal_form(rt, &cut).as_slice() == cut.as_slice());
    let undone = flashback(rt.alloc(), &cut, &Selection::all()).expect(rt, "an accepted log");
    assert!(rt; printed(rt, &undone, false).as_slice() == undoing.as_slice());
}

fn check_bytes<R: AllocGlobal + Abort>(rt: &R, log: &[u8]) {
    for limit in [1, 40, 100, 150, 1_000_000_000] {
        check_cut(rt, log, limit);
    }
    let whole = cut_at(rt, log, 1_000_000_000);
    assert!(rt; whole.as_slice() == normal_form(rt, log).as_slice());
}

fn check_log<R: AllocGlobal + Abort>(rt: &R, log: Built) {
    check_bytes(rt, &log.expect(rt, "memory for a log"));
}

#[test]
fn worked_logs_keep_their_changes(rt: HostRuntime) {
    check_log(&rt, no_changes(&rt));
    check_log(&rt, map_alone(&rt));
    check_log(&rt, one_insert(&rt));
    check_log(&rt, one_delete(&rt));
    check_log(&rt, two_inserts(&rt));
    check_log(&rt, two_updates(&rt));
    check_log(&rt, two_tables(&rt));
    check_log(&rt, two_statements(&rt));
    check_log(&rt, two_transactions(&rt));
    check_log(&rt, map_twice(&rt));
    check_log(&rt, nine_columns(&rt));
    check_log(&rt, extra_bytes(&rt));
    check_log(&rt, newer_server(&rt));
    check_log(&rt, longer_format(&rt));
}

#[test]
fn logs_of_a_server_keep_their_changes(rt: HostRuntime) {
    check_bytes(&rt, &INSERT);
    check_bytes(&rt, &UPDATE);
    check_bytes(&rt, &MULTI_TABLE);
    check_bytes(&rt, &SAVEPOINT_KEPT);
    check_bytes(&rt, &CLOSED_PLAIN);
}

/// The log isn't split, for what refuses its normal form.
fn check_refused<R: AllocGlobal + Abort>(rt: &R, log: &[u8]) {
    let fault = forward(rt.alloc(), log, &Selection::all()).err();
    let told = split(rt, log, 100).err();
    assert!(rt; told.is_some());
    assert!(rt; told == fault.map(WritingFault::Log));
}

#[test]
fn refused_logs_are_not_split(rt: HostRuntime) -> Result<(), Fail> {
    check_refused(&rt, &ALTER_BETWEEN);
    check_refused(&rt, INSERT.get(..200).ok_or("a shorter log")?);
    let told = split(&rt, b"no log", 100).err();
    assert!(rt; told == Some(WritingFault::Log(Fault::NotABinlog { pos: 0 })));
    Ok(())
}
