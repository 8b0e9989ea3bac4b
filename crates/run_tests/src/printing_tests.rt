//! What is printed of a log of many transactions.

use blog_flash::{Selection, sql, summary};
use sample_logs::builder::front;
use sample_logs::logs::one_insert;
use std::alloc::AllocError;
use std::process::Abort;
use std::test::Fail;

/// The changes of a log are printed so, or those of the log that undoes it.
fn check_sql<R: AllocGlobal + Abort>(rt: &R, log: &[u8], undone: bool, text: &[u8]) {
    let printed = sql(rt.alloc(), log, &Selection::all(), undone).expect(rt, "an accepted log");
    assert!(rt; printed.as_slice() == text);
}

/// The changes of a log are counted so.
fn check_summary<R: AllocGlobal + Abort>(rt: &R, log: &[u8], text: &[u8]) {
    let printed = summary(rt.alloc(), log, &Selection::all()).expect(rt, "an accepted log");
    assert!(rt; printed.as_slice() == text);
}

/// Appends as many copies of a text.
fn put_copies(text: &mut Vec<u8>, copy: &[u8], copies: usize) -> Result<(), AllocError> {
    for _ in 0..copies {
        text.extend_from_slice(copy)?;
    }
    Ok(())
}

/// A thousand copies of a text, one behind the other.
fn thousand(rt: &impl AllocGlobal, text: &[u8]) -> Result<Vec<u8>, AllocError> {
    let mut texts = Vec::new(rt.alloc());
    put_copies(&mut texts, text, 1000)?;
    Ok(texts)
}

/// A log of a thousand transactions, each of which inserts the row 5.
fn thousand_inserts(rt: &impl AllocGlobal) -> Result<Vec<u8>, Fail> {
    let one = one_insert(rt)?;
    let transaction = one.get(front().len()..).ok_or("no transaction")?;
    let mut log = front().to_vec(rt.alloc())?;
    put_copies(&mut log, transaction, 1000)?;
    Ok(log)
}

#[test]
fn many_transactions_are_printed(rt: HostRuntime) -> Result<(), Fail> {
    let log = thousand_inserts(&rt)?;
    let insert = b"BEGIN\n### INSERT INTO `d`.`t`\n### SET\n###   @1=X'05000000'\nCOMMIT\n";
    check_sql(&rt, &log, false, &thousand(&rt, insert)?);
    let delete = b"BEGIN\n### DELETE FROM `d`.`t`\n### WHERE\n###   @1=X'05000000'\nCOMMIT\n";
    check_sql(&rt, &log, true, &thousand(&rt, delete)?);
    let counts = b"transactions 1000\nstatements 1000\n`d`.`t` inserts 1000 updates 0 deletes 0\n";
    check_summary(&rt, &log, counts);
    Ok(())
}
