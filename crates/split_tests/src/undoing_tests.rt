//! Logs that are undone in pieces: what is written is what comes of undoing the log and then splitting that.

use crate::splits::split;
use blog_device::Watched;
use blog_flash::{Selection, flashback};
use blog_row::Order;
use blog_run::{Writing, write_changes};
use sample_logs::logs::{extra_bytes, two_inserts, two_statements, two_tables, two_transactions};
use sample_logs::samples::{INSERT, MULTI_TABLE, UPDATE};
use std::process::Abort;
use std::test::Fail;

/// The selection of the log is undone in pieces of at most so many bytes.
fn check<R: AllocGlobal + Abort>(
    rt: &R,
    log: &[u8],
    sel: &Selection<'_>,
    limit: usize,
) -> Result<(), Fail> {
    let undone = flashback(rt.alloc(), log, sel)?;
    let cut = split(rt, &undone, limit).ok().ok_or("it is not split")?;
    let mut writer = Watched::new(Vec::new(rt.alloc()));
    let writing = Writing {
        order: Order::Backward,
        limit,
        sql: None,
    };
    let done = write_changes(rt.alloc(), &mut writer, log, sel, 0, &writing);
    assert!(rt; done == Ok(()));
    assert!(rt; writer.device().as_slice() == cut.as_slice(), "at {limit}");
    Ok(())
}

#[test]
fn pieces_undo_a_log_from_its_end(rt: HostRuntime) -> Result<(), Fail> {
    let logs = [
        two_tables(&rt)?,
        two_inserts(&rt)?,
        two_statements(&rt)?,
        two_transactions(&rt)?,
        extra_bytes(&rt)?,
    ];
    let all = Selection::all();
    for log in &logs {
        for limit in [1, 109, 148, 1 << 20] {
            check(&rt, log, &all, limit)?;
        }
    }
    for limit in [1, 200, 1 << 20] {
        check(&rt, &INSERT, &all, limit)?;
        check(&rt, &UPDATE, &all, limit)?;
        check(&rt, &MULTI_TABLE, &all, limit)?;
    }
    Ok(())
}

#[test]
fn only_the_selection_is_undone(rt: HostRuntime) -> Result<(), Fail> {
    let log = two_tables(&rt)?;
    for table in [b"t1".as_slice(), b"t2", b"t3"] {
        let sel = Selection {
            table: Some(table),
            ..Selection::all()
        };
        check(&rt, &log, &sel, 1)?;
        check(&rt, &log, &sel, 1 << 20)?;
    }
    Ok(())
}
