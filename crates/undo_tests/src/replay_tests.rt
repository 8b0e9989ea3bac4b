//! Applying a log's changes, and then those of the log that undoes them.

use blog_event::{Fault, Log};
use blog_trans::{Selection, index};
use log_calls::calls::{flashback, forward};
use log_calls::replay::{Change, ReplayFault, Tables, changes_of};
use log_calls::selections::{BEFORE, BEHIND};
use sample_logs::logs::{two_statements, two_tables, two_transactions, two_updates};
use sample_logs::samples::{ALTER_BETWEEN, INSERT, MULTI_TABLE, SAVEPOINT_KEPT, UPDATE};
use std::alloc::{AllocError, Global};
use std::process::Abort;
use std::test::Fail;

type Built = Result<Vec<u8>, AllocError>;

/// Where the fronts of a written log end: behind its format description, and behind each of its transactions.
fn front_ends(alloc: Global, written: &[u8]) -> Result<Vec<usize>, Fail> {
    let log = Log::open(written)?;
    let index = index(alloc, &log, &Selection::all())?;
    let mut ends = vec![in alloc; log.first() as usize]?;
    for t in 0..index.transactions() {
        let end = index.end(t);
        ends.push(end.pos.wrapping_add(end.header.size) as usize)?;
    }
    Ok(ends)
}

/// A log is its own normal form.
fn check_normal<R: AllocGlobal + Abort>(rt: &R, log: &[u8]) -> Result<(), Fault> {
    let normal = forward(rt.alloc(), log, &Selection::all())?;
    assert!(rt; normal.as_slice() == log);
    Ok(())
}

/// Behind the changes of a log and those that undo some of them the tables are as they are behind the ones that are kept.
fn check_tables<'r, 'a, R: AllocGlobal + Abort>(
    rt: &R,
    source: &'r [Vec<Change<'a>>],
    undoing: &'r [Vec<Change<'a>>],
    kept: &'r [Vec<Change<'a>>],
) -> Result<(), ReplayFault> {
    let mut tables = Tables::least(rt.alloc(), source)?;
    tables.apply(source)?;
    tables.apply(undoing)?;
    let mut earlier = Tables::least(rt.alloc(), source)?;
    earlier.apply(kept)?;
    assert!(rt; tables == earlier, "behind {}", undoing.len());
    Ok(())
}

/// A front of a written log is a log of its own with so many transactions, in normal form. Behind its changes the
/// tables are as they were before as many of the selected last ones.
fn check_front<'b, R: AllocGlobal + Abort>(
    rt: &R,
    log: &'b [u8],
    sel: &Selection<'_>,
    front: &'b [u8],
    count: usize,
) -> Result<(), Fail> {
    let all = Selection::all();
    check_normal(rt, front)?;
    let source = changes_of(rt.alloc(), log, sel)?;
    let undoing = changes_of(rt.alloc(), front, &all)?;
    assert!(rt; undoing.len() == count);
    let kept = source.len().checked_sub(count).ok_or("too many")?;
    check_tables(rt, &source, &undoing, &source[..kept])?;
    Ok(())
}

/// So it is with each front of a written log, from its format description alone to the whole of it.
fn check_stops<'b, R: AllocGlobal + Abort>(
    rt: &R,
    log: &'b [u8],
    sel: &Selection<'_>,
    written: &'b [u8],
) -> Result<(), Fail> {
    let source = changes_of(rt.alloc(), log, sel)?;
    let ends = front_ends(rt.alloc(), written)?;
    assert!(rt; ends.len() == source.len() + 1);
    assert!(rt; ends.last() == Some(&written.len()));
    for (count, end) in ends.iter().enumerate() {
        let front = written.get(..*end).ok_or("too short")?;
        check_front(rt, log, sel, front, count)?;
    }
    Ok(())
}

/// So it is with the log that undoes a log.
fn check_built<R: AllocGlobal + Abort>(rt: &R, log: Built) -> Result<(), Fail> {
    let log = log?;
    let all = Selection::all();
    let written = flashback(rt.alloc(), &log, &all)?;
    check_stops(rt, &log, &all, &written)
}

#[test]
fn after_each_written_transaction_as_many_are_undone(rt: HostRuntime) -> Result<(), Fail> {
    check_built(&rt, two_updates(&rt))?;
    check_built(&rt, two_transactions(&rt))?;
    check_built(&rt, two_tables(&rt))?;
    check_built(&rt, two_statements(&rt))
}

/// Undoing gives the tables back that were there before the selected changes, and these changes made a difference.
fn check_undone<'b, R: AllocGlobal + Abort>(
    rt: &R,
    log: &'b [u8],
    sel: &Selection<'_>,
) -> Result<(), Fail> {
    let changes = changes_of(rt.alloc(), log, sel)?;
    let before = Tables::least(rt.alloc(), &changes)?;
    let mut behind = Tables::least(rt.alloc(), &changes)?;
    behind.apply(&changes)?;
    let same = behind == before;
    assert!(rt; !same, "no change");
    let written = flashback(rt.alloc(), log, sel)?;
    check_stops(rt, log, sel, &written)
}

#[test]
fn logs_of_a_server_are_undone(rt: HostRuntime) -> Result<(), Fail> {
    let all = Selection::all();
    check_undone(&rt, &INSERT, &all)?;
    check_undone(&rt, &UPDATE, &all)?;
    check_undone(&rt, &MULTI_TABLE, &all)?;
    check_undone(&rt, &SAVEPOINT_KEPT, &all)?;
    check_undone(&rt, &ALTER_BETWEEN, &BEFORE)?;
    check_undone(&rt, &ALTER_BETWEEN, &BEHIND)
}

/// The tables have as many copies of each row of one column, by its value.
fn check_counts<R: AllocGlobal + Abort>(rt: &R, tables: &Tables<'_, '_>, counts: &[(u8, u64)]) {
    let found = tables.counts(rt.alloc()).expect(rt, "memory for counts");
    assert!(rt; found.as_slice() == counts);
}

/// The rows of two transactions, and of what undoes them, one after the other.
fn check_in_turn<'b, R: AllocGlobal + Abort>(
    rt: &R,
    log: &'b [u8],
    written: &'b [u8],
) -> Result<(), Fail> {
    let source = changes_of(rt.alloc(), log, &Selection::all())?;
    let undoing = changes_of(rt.alloc(), written, &Selection::all())?;
    assert!(rt; undoing.len() == 2);
    let mut tables = Tables::least(rt.alloc(), &source)?;
    check_counts(rt, &tables, &[(8, 1)]);
    tables.apply(&source)?;
    check_counts(rt, &tables, &[(7, 1)]);
    tables.apply(&undoing[..1])?;
    check_counts(rt, &tables, &[(7, 1), (8, 1)]);
    tables.apply(&undoing[1..])?;
    check_counts(rt, &tables, &[(8, 1)]);
    Ok(())
}

#[test]
fn two_transactions_are_undone_in_turn(rt: HostRuntime) -> Result<(), Fail> {
    let log = two_transactions(&rt)?;
    let written = flashback(rt.alloc(), &log, &Selection::all())?;
    let ends = front_ends(rt.alloc(), &written)?;
    assert!(rt; ends.as_slice() == [120, 259, 411].as_slice());
    check_in_turn(&rt, &log, &written)
}

#[test]
fn a_delete_of_a_row_that_is_not_there_fails(rt: HostRuntime) -> Result<(), Fail> {
    let log = two_transactions(&rt)?;
    let changes = changes_of(rt.alloc(), &log, &Selection::all())?;
    let applied = Tables::new(rt.alloc()).apply(&changes);
    assert!(rt; applied == Err(ReplayFault::MissingRow));
    Ok(())
}
