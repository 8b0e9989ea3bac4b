//! Groups of ranges, gathered in one log.

use blog_event::{Fault, Log};
use blog_gathered::Gathered;
use blog_trans::{Selection, index};
use log_calls::calls::forward;
use sample_logs::logs::{two_tables, two_transactions};
use sample_logs::samples::{ALTER_BETWEEN, MULTI_TABLE};
use std::process::Abort;
use std::test::Fail;

/// Where the second of `two_transactions` begins.
const SECOND: u32 = 316;

/// A range of a log, by positions.
fn between(start: u32, stop: u32) -> Selection<'static> {
    Selection {
        start,
        stop: Some(stop),
        database: None,
        table: None,
    }
}

/// Gathers the groups of ranges in a log.
fn gathered(
    rt: &(impl AllocGlobal + Abort),
    ranges: &[(&[u8], Selection<'_>)],
) -> Result<Gathered, Fail> {
    let (bytes, sel) = ranges.first().ok_or("a range")?;
    let first = index(rt.alloc(), &Log::open(bytes)?, sel)?;
    let mut gathered = Gathered::new(rt.alloc(), &first)?;
    for (bytes, sel) in ranges {
        let range = index(rt.alloc(), &Log::open(bytes)?, sel)?;
        gathered.add(&range).expect(rt, "room for groups");
    }
    Ok(gathered)
}

/// Checks that the groups of ranges make a log which has the same groups as another one.
fn check(
    rt: &(impl AllocGlobal + Abort),
    ranges: &[(&[u8], Selection<'_>)],
    bytes: &[u8],
) -> Result<(), Fail> {
    let normal = forward(rt.alloc(), bytes, &Selection::all())?;
    let gathered = gathered(rt, ranges)?;
    assert!(rt; gathered.len() == normal.len());
    let index = gathered.index(rt.alloc(), 7)?;
    assert!(rt; index.log().bytes() == normal.as_slice());
    Ok(())
}

#[test]
fn parts_of_a_log_are_its_normal_form(rt: HostRuntime) -> Result<(), Fail> {
    let log = two_transactions(&rt)?;
    let all = Selection::all();
    check(&rt, &[(&log, all)], &log)?;
    let first = (log.as_slice(), between(4, SECOND));
    let second = (log.as_slice(), between(SECOND, u32::MAX));
    check(&rt, &[first, second], &log)?;
    check(&rt, &[(&log, all), (&log, between(4, 4))], &log)
}

#[test]
fn ranges_come_in_the_order_that_is_given(rt: HostRuntime) -> Result<(), Fail> {
    let log = two_transactions(&rt)?;
    let first = (log.as_slice(), between(4, SECOND));
    let second = (log.as_slice(), between(SECOND, u32::MAX));
    let in_order = gathered(&rt, &[first, second])?;
    let forward = in_order.index(rt.alloc(), 0)?;
    let exchanged = gathered(&rt, &[second, first])?;
    let backward = exchanged.index(rt.alloc(), 0)?;
    assert!(rt; forward.log().bytes().len() == backward.log().bytes().len());
    assert!(rt; forward.log().bytes() != backward.log().bytes());
    assert!(rt; (backward.transactions(), backward.tables()) == (2, 1));
    Ok(())
}

/// A column was added to the table between the two transactions of the server's log.
#[test]
fn ranges_that_differ_in_a_layout_clash(rt: HostRuntime) -> Result<(), Fail> {
    let before = (&ALTER_BETWEEN[..], between(240, 500));
    let after = (&ALTER_BETWEEN[..], between(682, 947));
    let len = gathered(&rt, &[before])?.len();
    let both = gathered(&rt, &[before, after])?;
    let Some(Fault::MapClash { pos }) = both.index(rt.alloc(), 0).err() else {
        panic!(rt; "no clash");
    };
    assert!(rt; pos as usize > len);
    Ok(())
}

#[test]
fn logs_with_other_tables_are_gathered(rt: HostRuntime) -> Result<(), Fail> {
    let all = Selection::all();
    let tables = two_tables(&rt)?;
    let gathered = gathered(&rt, &[(&MULTI_TABLE, all), (&tables, all)])?;
    let index = gathered.index(rt.alloc(), 3)?;
    assert!(rt; (index.transactions(), index.tables()) == (2, 4));
    Ok(())
}
