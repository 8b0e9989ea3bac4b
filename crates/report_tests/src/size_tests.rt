//! How large a page is.

use crate::sample::{START, add, has_once, sums, unit};
use blog_report::{Report, UnitFact};
use jiff::tz::TimeZone;
use std::test::Fail;

/// A name that takes much room: each quote takes six bytes.
const NAME: [u8; 64] = [b'"'; 64];

#[test]
fn a_page_of_many_tables_and_bars_is_small(rt: HostRuntime) -> Result<(), Fail> {
    let mut report = Report::new(rt.alloc(), 7, Some(1));
    for n in 0..2_000_u32 {
        let one = UnitFact {
            log: 0,
            seconds: n,
            thread: Some(4_000_000_000),
            rows: sums(1_000_000_000, 1_000_000_000, u64::from(n)),
            ..unit(n, START.wrapping_add(n))
        };
        add(&mut report, &one, &NAME, &(n / 4).to_le_bytes())?;
        for table in 0..13_u8 {
            add(&mut report, &one, &NAME, &[table])?;
        }
    }
    let mut out = Vec::new(rt.alloc());
    report.put_html(&mut out, ["a"].as_slice(), TimeZone::UTC)?;
    assert!(rt; has_once(&out, ",\"bars\":2000,"));
    assert!(rt; has_once(&out, ">213 more tables</th>"));
    assert!(rt; out.len() > 1_000_000);
    assert!(rt; out.len() < 2_000_000);
    Ok(())
}
