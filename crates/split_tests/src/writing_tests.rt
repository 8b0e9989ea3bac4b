//! Logs that are split to a writer, and a statement with very many maps.

use crate::splits::split;
use blog_device::Watched;
use blog_event::Fault;
use blog_flash::{Selection, forward, selected};
use blog_row::Order;
use blog_run::{Writing, WritingFault, write_changes};
use blog_split::{SplitRunFault, write_cut};
use sample_logs::builder::{BEGIN, XID, build, insert, map_of};
use sample_logs::logs::two_tables;
use std::alloc::AllocError;
use std::io;
use std::test::Fail;
use testkit::devices::{ALL, Failure, SlowWriter};

/// Each rows event as a statement.
const SINGLE: Writing<'static> = Writing {
    order: Order::Forward,
    limit: 1,
    sql: None,
};

#[test]
fn each_chunk_is_written(rt: HostRuntime) -> Result<(), Fail> {
    let log = two_tables(&rt)?;
    let cut = split(&rt, &log, 1).ok().ok_or("the log is not split")?;
    let index = selected(rt.alloc(), &log, &Selection::all(), 0)?;
    for chunk_len in [0, 1, 100, 1 << 18] {
        let mut writer = Watched::new(SlowWriter::new(&rt, 7, Failure::Never));
        let done = write_cut(
            rt.alloc(),
            &mut writer,
            &index,
            Order::Forward,
            1,
            chunk_len,
        );
        assert!(rt; done == Ok(()));
        assert!(rt; writer.device().taken.as_slice() == cut.as_slice());
        assert!(rt; !writer.failed());
    }
    let mut writer = Watched::new(SlowWriter::new(&rt, ALL, Failure::Never));
    let done = write_changes(rt.alloc(), &mut writer, &log, &Selection::all(), 0, &SINGLE);
    assert!(rt; done == Ok(()));
    assert!(rt; writer.device().taken.as_slice() == cut.as_slice());
    Ok(())
}

#[test]
fn a_failed_write_is_answered(rt: HostRuntime) -> Result<(), Fail> {
    let log = two_tables(&rt)?;
    let cut = split(&rt, &log, 1).ok().ok_or("the log is not split")?;
    let index = selected(rt.alloc(), &log, &Selection::all(), 0)?;
    for call in 1..4 {
        let failure = Failure::At(call, io::ErrorKind::Other);
        let mut writer = Watched::new(SlowWriter::new(&rt, ALL, failure));
        let done = write_cut(rt.alloc(), &mut writer, &index, Order::Forward, 1, 0);
        assert!(rt; done == Err(SplitRunFault::Write));
        let taken = writer.device().taken.as_slice();
        assert!(rt; cut.starts_with(taken));
        assert!(rt; taken.len() < cut.len());
        assert!(rt; writer.failed());
    }
    Ok(())
}

#[test]
fn a_failed_write_of_changes_is_answered(rt: HostRuntime) -> Result<(), Fail> {
    let log = two_tables(&rt)?;
    let mut writer = Watched::new(SlowWriter::new(&rt, ALL, Failure::At(1, io::ErrorKind::Other)));
    let done = write_changes(rt.alloc(), &mut writer, &log, &Selection::all(), 0, &SINGLE);
    assert!(rt; done == Err(WritingFault::Write));
    assert!(rt; writer.failed());
    Ok(())
}

#[test]
fn of_a_refused_log_nothing_is_written(rt: HostRuntime) -> Result<(), Fail> {
    let mut writer = Watched::new(SlowWriter::new(&rt, ALL, Failure::Never));
    let all = Selection::all();
    let done = write_changes(rt.alloc(), &mut writer, b"no log", &all, 0, &SINGLE);
    let fault = Fault::NotABinlog { pos: 0 };
    assert!(rt; done == Err(WritingFault::Log(fault)));
    assert!(rt; writer.device().calls == 0);
    Ok(())
}

/// How many maps a statement has, and how many pieces.
const MANY: u32 = 2000;

/// A statement whose last map is used first.
fn many_maps<R: AllocGlobal>(rt: &R) -> Result<Vec<u8>, AllocError> {
    let mut parts = Vec::new(rt.alloc());
    parts.push(BEGIN)?;
    for id in 0..MANY {
        parts.push(map_of(id, b"t"))?;
    }
    for number in 1..MANY {
        parts.push(insert(MANY - number, &[1]).open())?;
    }
    parts.push(insert(0, &[1]))?;
    parts.push(XID)?;
    build(rt, &parts)
}

/// Each of its rows events as a statement.
fn many_pieces<R: AllocGlobal>(rt: &R) -> Result<Vec<u8>, AllocError> {
    let mut parts = Vec::new(rt.alloc());
    parts.push(BEGIN)?;
    for number in 0..MANY {
        parts.push(map_of(MANY - 1 - number, b"t"))?;
        parts.push(insert(MANY - 1 - number, &[1]))?;
    }
    parts.push(XID)?;
    build(rt, &parts)
}

#[test]
fn a_statement_of_many_maps_is_split(rt: HostRuntime) -> Result<(), Fail> {
    let log = many_maps(&rt)?;
    let cut = split(&rt, &log, 1).ok();
    assert!(rt; cut == Some(many_pieces(&rt)?));
    let whole = split(&rt, &log, 1_000_000).ok();
    let normal = forward(rt.alloc(), &log, &Selection::all())?;
    assert!(rt; whole == Some(normal));
    Ok(())
}

/// How many rows events of the statement fit with their maps into 100,000 bytes: each has 36, and each map 37.
const FITTING: u32 = 1369;

/// The statement in two.
fn two_pieces<R: AllocGlobal>(rt: &R) -> Result<Vec<u8>, AllocError> {
    let mut parts = Vec::new(rt.alloc());
    parts.push(BEGIN)?;
    for id in MANY - FITTING..MANY {
        parts.push(map_of(id, b"t"))?;
    }
    for number in 1..FITTING {
        parts.push(insert(MANY - number, &[1]).open())?;
    }
    parts.push(insert(MANY - FITTING, &[1]))?;
    for id in 0..MANY - FITTING {
        parts.push(map_of(id, b"t"))?;
    }
    for number in 1..MANY - FITTING {
        parts.push(insert(MANY - FITTING - number, &[1]).open())?;
    }
    parts.push(insert(0, &[1]))?;
    parts.push(XID)?;
    build(rt, &parts)
}

#[test]
fn maps_count_in_the_size_of_a_piece(rt: HostRuntime) -> Result<(), Fail> {
    // The rows events alone have 72,000 bytes.
    let cut = split(&rt, &many_maps(&rt)?, 100_000).ok();
    assert!(rt; cut == Some(two_pieces(&rt)?));
    Ok(())
}
