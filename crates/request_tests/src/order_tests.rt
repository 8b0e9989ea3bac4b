//! Which reason is the first that holds.

use crate::calls::{
    FIRST, TRANSACTION, check, of_all, of_tables, of_tables_but, of_times, text_of, transactions,
};
use blog_choice::TableName;
use blog_event::Log;
use blog_reasons::Reasons;
use blog_request::Wanted;
use sample_logs::builder::build;
use std::process::Abort;
use std::test::Fail;

/// Checks why nothing is wanted of a range of a log.
fn check_range(
    rt: &(impl AllocGlobal + Abort),
    bytes: &[u8],
    wanted: &Wanted<'_>,
    start: Option<u32>,
    stop: Option<u32>,
    expected: &str,
) -> Result<(), Fail> {
    let mut reasons = Reasons::new(rt.alloc(), wanted)?;
    reasons.look(&Log::open(bytes)?, start, stop)?;
    let text = text_of(rt, &reasons.reason())?;
    assert!(rt; text.as_str() == expected);
    Ok(())
}

#[test]
fn no_unit_is_in_the_range(rt: HostRuntime) -> Result<(), Fail> {
    let log = transactions(&rt, &[7, 9])?;
    let second = FIRST.wrapping_add(TRANSACTION);
    let wanted = of_times(Some(10), None);
    check_range(&rt, &log, &wanted, None, Some(FIRST), "no unit")?;
    check_range(
        &rt,
        &log,
        &wanted,
        Some(second.wrapping_add(1)),
        None,
        "no unit",
    )?;
    check_range(&rt, &log, &wanted, Some(second), Some(second), "no unit")?;
    check_range(&rt, &log, &wanted, Some(second), None, "no time: 9 9")?;
    check_range(&rt, &log, &wanted, None, Some(second), "no time: 7 7")?;
    check_range(&rt, &log, &wanted, None, None, "no time: 7 9")
}

#[test]
fn there_is_no_log_or_no_unit_in_it(rt: HostRuntime) -> Result<(), Fail> {
    let empty = build(&rt, &[])?;
    check(&rt, &[], &of_times(None, None), "no unit")?;
    check(&rt, &[&empty, &empty], &of_times(None, None), "no unit")
}

#[test]
fn no_unit_is_of_the_times(rt: HostRuntime) -> Result<(), Fail> {
    let log = transactions(&rt, &[20, 70, 10, 40])?;
    let other = transactions(&rt, &[80, 30])?;
    let both: [&[u8]; 2] = [&log, &other];
    check(&rt, &[&log], &of_times(Some(71), None), "no time: 10 70")?;
    check(&rt, &[&log], &of_times(None, Some(10)), "no time: 10 70")?;
    check(
        &rt,
        &[&log],
        &of_times(Some(41), Some(70)),
        "no time: 10 70",
    )?;
    check(&rt, &both, &of_times(Some(81), None), "no time: 10 80")?;
    check(&rt, &both, &of_times(Some(80), None), "other")?;
    check(&rt, &[&log], &of_times(Some(70), None), "other")?;
    check(&rt, &[&log], &of_times(None, Some(11)), "other")
}

#[test]
fn a_time_comes_before_a_table(rt: HostRuntime) -> Result<(), Fail> {
    let log = transactions(&rt, &[20])?;
    let tables = [TableName {
        schema: None,
        table: b"u",
    }];
    check(
        &rt,
        &[&log],
        &of_all(&tables, &[], Some(21)),
        "no time: 20 20",
    )?;
    check(&rt, &[&log], &of_tables(&tables), "no table: d.t")
}

#[test]
fn threads_and_tables_together_choose_none(rt: HostRuntime) -> Result<(), Fail> {
    let log = transactions(&rt, &[20])?;
    let tables = [TableName {
        schema: Some(b"d"),
        table: b"t",
    }];
    check(&rt, &[&log], &of_all(&tables, &[99], None), "other")
}

#[test]
fn tables_that_are_left_out_alone_are_no_reason(rt: HostRuntime) -> Result<(), Fail> {
    let log = transactions(&rt, &[20])?;
    let excluded = [TableName {
        schema: Some(b"d"),
        table: b"t",
    }];
    check(&rt, &[&log], &of_tables_but(&[], &excluded), "other")
}
