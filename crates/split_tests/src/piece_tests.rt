//! Statements cut at small sizes, spelled out.

use crate::splits::split;
use sample_logs::builder::{BEGIN, Part, T, XID, build, delete, insert, map_of};
use sample_logs::logs::{extra_bytes, two_tables};
use std::process::Abort;
use std::test::Fail;

/// The log, cut, is this one.
fn check_split<R: AllocGlobal + Abort>(
    rt: &R,
    log: &[u8],
    limit: usize,
    cut: &[u8],
) -> Result<(), Fail> {
    let text = split(rt, log, limit).ok().ok_or("the log is not split")?;
    assert!(rt; text.as_slice() == cut);
    Ok(())
}

#[test]
fn each_rows_event_is_a_statement_with_its_map(rt: HostRuntime) -> Result<(), Fail> {
    // A rows event of one row has 36 bytes, a map of these tables 38.
    let parts = [
        BEGIN,
        map_of(1, b"t1"),
        insert(1, &[1]),
        map_of(2, b"t2"),
        insert(2, &[2]),
        map_of(1, b"t1"),
        insert(1, &[3]),
        XID,
    ];
    let cut = build(&rt, &parts)?;
    for limit in [0, 1, 36, 74, 147] {
        check_split(&rt, &two_tables(&rt)?, limit, &cut)?;
        check_split(&rt, &extra_bytes(&rt)?, limit, &cut)?;
    }
    Ok(())
}

#[test]
fn pieces_have_the_maps_they_use(rt: HostRuntime) -> Result<(), Fail> {
    let parts = [
        BEGIN,
        map_of(1, b"t1"),
        map_of(2, b"t2"),
        insert(1, &[1]).open(),
        insert(2, &[2]),
        map_of(1, b"t1"),
        insert(1, &[3]),
        XID,
    ];
    let cut = build(&rt, &parts)?;
    // Two rows events with their maps have 148 bytes, the whole statement has 184.
    for limit in [148, 183] {
        check_split(&rt, &two_tables(&rt)?, limit, &cut)?;
    }
    check_split(&rt, &two_tables(&rt)?, 184, &two_tables(&rt)?)
}

#[test]
fn rows_events_of_three_tables_alternate(rt: HostRuntime) -> Result<(), Fail> {
    let parts = [
        BEGIN,
        map_of(1, b"a"),
        map_of(2, b"b"),
        map_of(3, b"c"),
        insert(1, &[1]).open(),
        delete(2, &[2]).open(),
        insert(3, &[3]).open(),
        insert(1, &[4]).open(),
        delete(2, &[5]).open(),
        insert(3, &[6]),
        Part::Map(T),
        insert(1, &[7, 8, 9, 7, 8, 9, 7, 8, 9]).open(),
        insert(1, &[7]),
        XID,
    ];
    let log = build(&rt, &parts)?;
    let cut_in_twos = [
        BEGIN,
        map_of(1, b"a"),
        map_of(2, b"b"),
        insert(1, &[1]).open(),
        delete(2, &[2]),
        map_of(1, b"a"),
        map_of(3, b"c"),
        insert(3, &[3]).open(),
        insert(1, &[4]),
        map_of(2, b"b"),
        map_of(3, b"c"),
        delete(2, &[5]).open(),
        insert(3, &[6]),
        // The map has 37 bytes, the first of these rows events 76.
        Part::Map(T),
        insert(1, &[7, 8, 9, 7, 8, 9, 7, 8, 9]),
        Part::Map(T),
        insert(1, &[7]),
        XID,
    ];
    // Two rows events with their maps have 146 bytes.
    for limit in [146, 148] {
        check_split(&rt, &log, limit, &build(&rt, &cut_in_twos)?)?;
    }
    Ok(())
}

#[test]
fn a_map_counts_once_in_each_piece(rt: HostRuntime) -> Result<(), Fail> {
    let parts = [
        BEGIN,
        Part::Map(T),
        insert(1, &[1]).open(),
        insert(1, &[2]).open(),
        insert(1, &[3]).open(),
        insert(1, &[4]).open(),
        insert(1, &[5]),
        XID,
    ];
    let log = build(&rt, &parts)?;
    let cut_in_twos = [
        BEGIN,
        Part::Map(T),
        insert(1, &[1]).open(),
        insert(1, &[2]),
        Part::Map(T),
        insert(1, &[3]).open(),
        insert(1, &[4]),
        Part::Map(T),
        insert(1, &[5]),
        XID,
    ];
    // The map and two rows events have 109 bytes, and the whole statement has 217.
    for limit in [109, 144] {
        check_split(&rt, &log, limit, &build(&rt, &cut_in_twos)?)?;
    }
    check_split(&rt, &log, 217, &log)
}
