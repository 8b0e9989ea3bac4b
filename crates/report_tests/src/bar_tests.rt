//! The intervals of the picture.

use crate::sample::{START, add, has_once, sums, unit};
use blog_report::{Report, UnitFact};
use jiff::tz::TimeZone;
use std::alloc::{AllocError, Allocator};
use std::test::Fail;

/// A report of a row each ten seconds over an hour.
fn hour<A: Allocator + Copy>(alloc: A, interval: Option<u32>) -> Result<Report<A>, AllocError> {
    let mut report = Report::new(alloc, 7, interval);
    for n in 0..360_u32 {
        let one = UnitFact {
            rows: sums(1, 0, 0),
            ..unit(n, START.wrapping_add(n.wrapping_mul(10)))
        };
        add(&mut report, &one, b"a", b"b")?;
    }
    Ok(report)
}

#[test]
fn intervals_double_until_they_are_few(rt: HostRuntime) -> Result<(), Fail> {
    let report = hour(rt.alloc(), None)?;
    let mut out = Vec::new(rt.alloc());
    report.put_html(&mut out, ["a"].as_slice(), TimeZone::UTC)?;
    // 225 intervals of 16 seconds have 3,591
    assert!(rt; has_once(&out, "A bar stands for 16 seconds."));
    assert!(rt; has_once(&out, "],\"bars\":225,\"parts\":"));
    assert!(rt; has_once(&out, "viewBox=\"0 -36 225 1036\""));
    Ok(())
}

#[test]
fn an_interval_that_is_given_is_taken(rt: HostRuntime) -> Result<(), Fail> {
    let report = hour(rt.alloc(), Some(60))?;
    let mut out = Vec::new(rt.alloc());
    report.put_lines(&mut out, ["a"].as_slice(), TimeZone::UTC)?;
    assert!(rt; has_once(&out, "Rows by time, a line for 60 seconds\n"));
    assert!(rt;
        has_once(
            &out,
            "2026-12-01 02:00:00         6         0         0 #################################\n"
        )
    );
    assert!(rt;
        has_once(
            &out,
            "2026-12-01 02:59:00         6         0         0 #################################\n"
        )
    );
    Ok(())
}

#[test]
fn times_that_go_backward(rt: HostRuntime) -> Result<(), Fail> {
    let mut report = hour(rt.alloc(), Some(60))?;
    let one = UnitFact {
        rows: sums(0, 0, 5),
        ..unit(9, START - 61)
    };
    add(&mut report, &one, b"a", b"c")?;
    let mut out = Vec::new(rt.alloc());
    report.put_lines(&mut out, ["a"].as_slice(), TimeZone::UTC)?;
    // 62 minutes are too many lines
    assert!(rt; has_once(&out, "Rows by time, a line for 120 seconds\n"));
    assert!(rt;
        has_once(
            &out,
            "from 2026-12-01 01:58:59 to 2026-12-01 02:59:50 (UTC)\n"
        )
    );
    assert!(rt;
        has_once(
            &out,
            "\n2026-12-01 01:58:00         0         0         5 #############\n2026-12-01 02:00:00        12 "
        )
    );
    Ok(())
}
