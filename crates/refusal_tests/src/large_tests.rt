//! Large logs: many events, and a large one.

use blog_event::Log;
use blog_flash::{Mode, Watched, run};
use blog_trans::{Index, Selection, index};
use log_calls::calls::{flashback, forward};
use log_calls::index_view::entries_of;
use sample_logs::builder::{BEGIN, Part, T, Table, XID, build, insert, map_of, put, set_bytes};
use std::alloc::{AllocError, Global};
use std::process::Abort;
use std::test::Fail;

/// A log in normal form is its own normal form, and undone twice it is itself again.
fn check_normal<R: AllocGlobal + Abort>(rt: &R, log: &[u8]) -> Result<(), Fail> {
    let all = Selection::all();
    let normal = forward(rt.alloc(), log, &all)?;
    assert!(rt; normal.as_slice() == log, "another normal form");
    let undone = flashback(rt.alloc(), log, &all)?;
    assert!(rt; undone.as_slice() != log, "nothing is undone");
    let again = flashback(rt.alloc(), &undone, &all)?;
    assert!(rt; again.as_slice() == log, "not the log again");
    Ok(())
}

/// As many rows are inserted into each table.
fn check_inserts(rt: &impl Abort, index: &Index<'_, '_, Global>, inserts: u64) {
    for n in 0..index.tables() {
        assert!(rt; index.table(n).inserts == inserts);
    }
}

fn put_maps(log: &mut Vec<u8>, count: u32) -> Result<(), AllocError> {
    for id in 0..count {
        put(log, &map_of(id, b"t"))?;
    }
    Ok(())
}

#[test]
fn a_statement_of_twenty_thousand_tables_is_undone_twice(rt: HostRuntime) -> Result<(), Fail> {
    let count = 20_000u32;
    let mut log = build(&rt, &[BEGIN])?;
    put_maps(&mut log, count)?;
    for id in 0..count {
        put(&mut log, &insert(id, &[1]).open())?;
    }
    put(&mut log, &insert(0, &[1]))?;
    put(&mut log, &XID)?;
    check_normal(&rt, &log)?;
    let opened = Log::open(&log)?;
    let index = index(rt.alloc(), &opened, &Selection::all())?;
    assert!(rt; index.entries().len() == 40_003);
    Ok(())
}

#[test]
fn a_transaction_of_five_thousand_statements_is_undone_twice(rt: HostRuntime) -> Result<(), Fail> {
    let mut log = build(&rt, &[BEGIN])?;
    for number in 0..5_000u32 {
        let [value, ..] = number.to_le_bytes();
        put(&mut log, &Part::Map(T))?;
        put(&mut log, &insert(1, &[value]))?;
    }
    put(&mut log, &XID)?;
    check_normal(&rt, &log)?;
    let opened = Log::open(&log)?;
    let index = index(rt.alloc(), &opened, &Selection::all())?;
    assert!(rt; index.transactions() == 1);
    assert!(rt; index.all_statements() == 5_000);
    Ok(())
}

#[test]
fn an_event_of_fifty_thousand_rows_is_undone_twice(rt: HostRuntime) -> Result<(), Fail> {
    let mut values = Vec::new(rt.alloc());
    for number in 0..50_000u32 {
        let [value, ..] = number.to_le_bytes();
        values.push(value)?;
    }
    let log = build(&rt, &[BEGIN, Part::Map(T), insert(1, &values), XID])?;
    check_normal(&rt, &log)?;
    let opened = Log::open(&log)?;
    let index = index(rt.alloc(), &opened, &Selection::all())?;
    assert!(rt; index.tables() == 1);
    check_inserts(&rt, &index, 50_000);
    Ok(())
}

/// Where the entries of a log of one statement begin: the map at 159, and as many rows events of 36 bytes behind it.
fn entries_of_statement(rt: &impl AllocGlobal, count: u32) -> Result<Vec<u32>, AllocError> {
    let mut starts = vec![in rt.alloc(); 120, 159]?;
    for number in 0..=count {
        starts.push(number.wrapping_mul(36).wrapping_add(196))?;
    }
    Ok(starts)
}

#[test]
fn seventy_thousand_rows_events_have_their_entries(rt: HostRuntime) -> Result<(), Fail> {
    let count = 70_000u32;
    let mut log = build(&rt, &[BEGIN, Part::Map(T)])?;
    for _ in 1..count {
        put(&mut log, &insert(1, &[1]).open())?;
    }
    put(&mut log, &insert(1, &[1]))?;
    put(&mut log, &XID)?;
    let starts = entries_of(&rt, &log, &Selection::all())?;
    assert!(rt; starts.len() == 70_003);
    assert!(rt; starts.last() == Some(&2_520_196));
    let wanted = entries_of_statement(&rt, count)?;
    assert!(rt; starts.as_slice() == wanted.as_slice(), "other entries");
    Ok(())
}

/// A table of one LONGBLOB column: the length of a value is in four bytes.
const LONGBLOB: Table<'static> = Table {
    types: &[252],
    metadata: &[4],
    ..T
};

/// The length of the image of a row whose value has five bytes more than 64 MiB: a null bit, four bytes and the value.
const LARGE: usize = 67_108_874;

/// An image of so many bytes, all alike but for its null bit, the length of its value and its last byte.
fn large_image(rt: &impl AllocGlobal, len: usize) -> Result<Vec<u8>, Fail> {
    let mut image = vec![in rt.alloc(); 0xAB; len]?;
    let front = [(0, 0xFE), (1, 5), (2, 0), (3, 0), (4, 4)];
    set_bytes(&mut image, &front)?;
    set_bytes(&mut image, &[(len.wrapping_sub(1), 0xCD)])?;
    Ok(image)
}

/// The log is undone by the other: the type of its rows event, which stands at 197, is changed and nothing else. The image
/// stands at 228, and the end of the transaction has 27 bytes.
fn check_undone(rt: &impl Abort, log: &[u8], undone: &[u8]) {
    assert!(rt; undone.len() == 67_109_129);
    assert!(rt; undone.get(..201) == log.get(..201));
    assert!(rt; (log.get(201), undone.get(201)) == (Some(&30), Some(&32)));
    assert!(rt; undone.get(202..300) == log.get(202..300));
    assert!(rt; undone.get(67_109_000..) == log.get(67_109_000..));
}

#[test]
fn a_row_with_a_value_of_more_than_64_mebibytes_is_undone(rt: HostRuntime) -> Result<(), Fail> {
    let image = large_image(&rt, LARGE)?;
    let rows = insert(1, &[]).over(1, &[0xFF], &image);
    let log = build(&rt, &[BEGIN, Part::Map(LONGBLOB), rows, XID])?;
    let all = Selection::all();
    let written = flashback(rt.alloc(), &log, &all)?;
    check_undone(&rt, &log, &written);
    let mut reader = Watched::new(log.as_slice());
    let mut writer = Watched::new(Vec::with_capacity(rt.alloc(), log.len())?);
    let ran = run(rt.alloc(), &mut reader, Mode::Flashback, &all, &mut writer);
    assert!(rt; ran == Ok(()));
    check_undone(&rt, &log, writer.device());
    Ok(())
}
