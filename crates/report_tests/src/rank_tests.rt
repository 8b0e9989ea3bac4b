//! The largest and the longest units, and those that can't be undone.

use crate::sample::{START, count, has_once, sums, unit};
use blog_report::{Report, UnitFact};
use jiff::tz::TimeZone;
use std::test::Fail;

#[test]
fn the_twenty_largest_are_listed(rt: HostRuntime) -> Result<(), Fail> {
    let mut report = Report::new(rt.alloc(), 7, None);
    for n in 1..=30_u32 {
        let one = UnitFact {
            rows: sums(0, u64::from(n % 7), 0),
            ..unit(1000_u32.wrapping_add(n), START)
        };
        report.add_unit(&one)?;
    }
    let mut out = Vec::new(rt.alloc());
    report.put_lines(&mut out, ["a"].as_slice(), TimeZone::UTC)?;
    assert!(rt; count(&out, "binlog undo") == 20);
    // of equal ones the first come first
    assert!(rt;
        has_once(
            &out,
            "Largest transactions\n2026-12-01 02:00:00  at 1006  0 s  400 bytes\n  inserted 0, updated 6, deleted 0\n  binlog show --at 1006 a\n  binlog undo --at 1006 -r undo.sql a\n2026-12-01 02:00:00  at 1013  "
        )
    );
    // four have 6 rows, four 5, four 4, four 3, and the first four of five 2
    assert!(rt;
        has_once(
            &out,
            "binlog undo --at 1023 -r undo.sql a\n\nLongest transactions\nnone\n"
        )
    );
    assert!(rt; count(&out, "--at 1030 ") == 0);
    Ok(())
}

#[test]
fn the_first_twenty_refused_are_listed(rt: HostRuntime) -> Result<(), Fail> {
    let mut report = Report::new(rt.alloc(), 7, None);
    for n in 1..=23_u32 {
        report.add_refused(&unit(1000_u32.wrapping_add(n), START), b"StatementEvent")?;
    }
    assert!(rt; report.totals().refused == 23);
    assert!(rt; report.totals().units == 0);
    let mut out = Vec::new(rt.alloc());
    report.put_lines(&mut out, ["a"].as_slice(), TimeZone::UTC)?;
    assert!(rt; count(&out, "  StatementEvent\n  binlog show --at 10") == 20);
    assert!(rt; has_once(&out, "  binlog show --at 1020 a\nand 3 more\n"));
    out.clear();
    report.put_html(&mut out, ["a"].as_slice(), TimeZone::UTC)?;
    assert!(rt; has_once(&out, "<p>The first 20 of 23:</p>"));
    Ok(())
}

#[test]
fn a_unit_of_no_known_time(rt: HostRuntime) -> Result<(), Fail> {
    let mut report = Report::new(rt.alloc(), 7, None);
    let one = UnitFact {
        thread: Some(3),
        rows: sums(1, 0, 0),
        ..unit(500, 0)
    };
    crate::sample::add(&mut report, &one, b"a", b"b")?;
    let mut out = Vec::new(rt.alloc());
    report.put_lines(&mut out, ["a"].as_slice(), TimeZone::UTC)?;
    assert!(rt; has_once(&out, "no time is known\n"));
    assert!(rt; has_once(&out, "time unknown                1         0         0\n"));
    assert!(rt; has_once(&out, "time unknown         at 500  thread 3  "));
    Ok(())
}
