//! Times of what came later, by the clock of a time zone.

use crate::runs::{Came, UNDO, between, part_in_zone};
use jiff::tz::{TimeZone, Tzif};
use list_calls::zones::BERLIN;
use sample_logs::summed::CLOSED;
use std::process::Abort;
use std::test::Fail;

/// Checks which lines are told, in a zone, of rows of a server's log that were changed since.
fn check(rt: &(impl AllocGlobal + Abort), zone: TimeZone<'_>, wanted: &str) -> Result<(), Fail> {
    let part = between(198, Some(512));
    let (came, _, told) = part_in_zone(rt, zone, &CLOSED, &part, true, &[], &UNDO)?;
    assert!(rt; came == Came::ChangedSince(3));
    assert!(rt; str::from_utf8(&told) == Ok(wanted));
    Ok(())
}

#[test]
fn times_are_those_of_the_zone(rt: HostRuntime) -> Result<(), Fail> {
    let table = Tzif::parse(rt.alloc(), None, BERLIN)?;
    let lines =
        "binlog.000042 1026 2026-11-21 02:02:00 `shop`.`orders`: delete\nbinlog.000042 1439 2026-11-21 02:03:00 `shop`.`orders`: update\n";
    check(&rt, TimeZone::UTC, lines)?;
    let lines =
        "binlog.000042 1026 2026-11-21 03:02:00 `shop`.`orders`: delete\nbinlog.000042 1439 2026-11-21 03:03:00 `shop`.`orders`: update\n";
    check(&rt, TimeZone::tzif(&table), lines)
}
