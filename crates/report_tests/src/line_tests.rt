//! Reports as lines.

use crate::sample::{LOGS, START, add, count, has_once, small, sums, unit};
use blog_report::{Report, UnitFact};
use jiff::tz::TimeZone;
use std::test::Fail;

/// The small report: its totals, and its rows by time and table.
const NUMBERS: &str = "\
log binlog.000042
log it's.000043
transactions 3, not undoable 1
rows inserted 10, updated 2, deleted 8
from 2026-12-01 02:00:00 to 2026-12-01 02:00:06 (UTC)

Rows by time, a line for 1 second
time                 inserted   updated   deleted
2026-12-01 02:00:00        10         0         0 #################################
2026-12-01 02:00:01         0         0         0
2026-12-01 02:00:02         0         0         0
2026-12-01 02:00:03         0         0         0
2026-12-01 02:00:04         0         2         7 #############################
2026-12-01 02:00:05         0         0         1 ###
2026-12-01 02:00:06         0         0         0

Rows by table
 inserted   updated   deleted  table
       10         0         0  `shop`.`orders`
        0         2         7  `shop`.`customers`
        0         0         1  `<script>`.`a&\"b'\\xff`

";

/// Its units.
const UNITS: &str = "\
Largest transactions
2026-12-01 02:00:00  at 4021  thread 12  3 s  1200 bytes
  inserted 10, updated 0, deleted 0
  binlog show --at 4021 binlog.000042
  binlog undo --at 4021 -r undo.sql binlog.000042
2026-12-01 02:00:04  at 5300  0 s  400 bytes
  inserted 0, updated 2, deleted 7
  binlog show --at 5300 binlog.000042
  binlog undo --at 5300 -r undo.sql binlog.000042
2026-12-01 02:00:05  at 157  1 h 1 min 1 s  400 bytes
  inserted 0, updated 0, deleted 1
  binlog show --at 157 'it'\\''s.000043'
  binlog undo --at 157 -r undo.sql 'it'\\''s.000043'

Longest transactions
2026-12-01 02:00:05  at 157  1 h 1 min 1 s  400 bytes
  inserted 0, updated 0, deleted 1
  binlog show --at 157 'it'\\''s.000043'
  binlog undo --at 157 -r undo.sql 'it'\\''s.000043'
2026-12-01 02:00:00  at 4021  thread 12  3 s  1200 bytes
  inserted 10, updated 0, deleted 0
  binlog show --at 4021 binlog.000042
  binlog undo --at 4021 -r undo.sql binlog.000042

What can't be undone
2026-12-01 02:00:06  at 900  0 s  400 bytes
  StatementEvent
  binlog show --at 900 'it'\\''s.000043'
";

#[test]
fn a_small_report_as_lines(rt: HostRuntime) -> Result<(), Fail> {
    let report = small(rt.alloc())?;
    let mut out = Vec::new(rt.alloc());
    report.put_lines(&mut out, LOGS.as_slice(), TimeZone::UTC)?;
    let mut expected = Vec::new(rt.alloc());
    expected.extend_from_slice(NUMBERS.as_bytes())?;
    expected.extend_from_slice(UNITS.as_bytes())?;
    assert!(rt; out.as_slice() == expected.as_slice());
    Ok(())
}

#[test]
fn a_report_of_nothing(rt: HostRuntime) -> Result<(), Fail> {
    let report = Report::new(rt.alloc(), 7, None);
    let mut out = Vec::new(rt.alloc());
    report.put_lines(&mut out, LOGS.as_slice(), TimeZone::UTC)?;
    assert!(rt; has_once(&out, "no time is known\n"));
    assert!(rt; count(&out, "none\n") == 3);
    out.clear();
    report.put_html(&mut out, LOGS.as_slice(), TimeZone::UTC)?;
    assert!(rt; has_once(&out, "<p>No rows are changed.</p>"));
    assert!(rt; has_once(&out, "<p>Each transaction can be undone.</p>"));
    Ok(())
}

#[test]
fn no_control_character_of_a_name_is_printed(rt: HostRuntime) -> Result<(), Fail> {
    let mut report = Report::new(rt.alloc(), 7, None);
    let one = UnitFact {
        rows: sums(1, 0, 0),
        ..unit(4, START)
    };
    add(&mut report, &one, b"\x1b[2J", b"b\nc")?;
    report.add_refused(&one, b"\x07Bell")?;
    let mut out = Vec::new(rt.alloc());
    report.put_lines(&mut out, ["-x\x1b[31m \u{202e}y"].as_slice(), TimeZone::UTC)?;
    for byte in &out {
        assert!(rt; *byte == b'\n' || *byte >= b' ');
    }
    assert!(rt; has_once(&out, "`\\x1b[2J`.`b\\nc`\n"));
    assert!(rt; has_once(&out, "  \\x07Bell\n"));
    assert!(rt; count(&out, "  binlog show --at 4 ./'-x?[31m ?y'\n") == 2);
    Ok(())
}
