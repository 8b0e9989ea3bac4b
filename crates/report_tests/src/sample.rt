//! A report of two logs, and what tests of reports share.

use blog_report::{Report, RowSums, TableRows, UnitFact};
use std::alloc::{AllocError, Allocator};

/// 2026-12-01 02:00:00 in UTC.
pub const START: u32 = 1_796_090_400;

/// The names of the logs.
pub const LOGS: [&str; 2] = ["binlog.000042", "it's.000043"];

/// Numbers of rows.
pub fn sums(inserts: u64, updates: u64, deletes: u64) -> RowSums {
    RowSums {
        inserts,
        updates,
        deletes,
    }
}

/// A unit of the first log, without rows, which took no time.
pub fn unit(position: u32, time: u32) -> UnitFact {
    UnitFact {
        log: 0,
        position,
        time,
        seconds: 0,
        bytes: 400,
        thread: None,
        rows: sums(0, 0, 0),
    }
}

/// Adds a unit that changes rows of one table.
pub fn add<A: Allocator + Copy>(
    report: &mut Report<A>,
    unit: &UnitFact,
    schema: &[u8],
    table: &[u8],
) -> Result<(), AllocError> {
    report.add_rows(
        unit.time,
        &TableRows {
            schema,
            table,
            rows: unit.rows,
        },
    )?;
    report.add_unit(unit)
}

/// A report of three transactions in two logs, and of one that can't be undone.
pub fn small<A: Allocator + Copy>(alloc: A) -> Result<Report<A>, AllocError> {
    let mut report = Report::new(alloc, 7, None);
    let first = UnitFact {
        seconds: 3,
        bytes: 1200,
        thread: Some(12),
        rows: sums(10, 0, 0),
        ..unit(4021, START)
    };
    add(&mut report, &first, b"shop", b"orders")?;
    let second = UnitFact {
        rows: sums(0, 2, 7),
        ..unit(5300, START + 4)
    };
    add(&mut report, &second, b"shop", b"customers")?;
    let third = UnitFact {
        log: 1,
        seconds: 3661,
        rows: sums(0, 0, 1),
        ..unit(157, START + 5)
    };
    add(&mut report, &third, b"<script>", b"a&\"b'\xff")?;
    let refused = UnitFact {
        log: 1,
        ..unit(900, START + 6)
    };
    report.add_refused(&refused, b"StatementEvent")?;
    Ok(report)
}

/// How often a text is in bytes.
pub fn count(bytes: &[u8], text: &str) -> usize {
    let mut found = 0_usize;
    for part in bytes.windows(text.len().max(1)) {
        if part == text.as_bytes() {
            found = found.wrapping_add(1);
        }
    }
    found
}

/// Whether a text is in bytes, once.
pub fn has_once(bytes: &[u8], text: &str) -> bool {
    count(bytes, text) == 1
}
