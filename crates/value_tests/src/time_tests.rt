//! DATE, TIME, DATETIME, TIMESTAMP and YEAR columns.

use crate::checks::{check, check_unknown};
use blog_value::{ColumnType, Fraction, Timestamp, Value, put_fraction, read_value};
use std::test::Fail;

const TIMESTAMP: u8 = 7;

const DATE: u8 = 10;

const TIME: u8 = 11;

const DATETIME: u8 = 12;

const YEAR: u8 = 13;

const TIMESTAMP2: u8 = 17;

const DATETIME2: u8 = 18;

const TIME2: u8 = 19;

/// Types without metadata, bytes and text.
const PLAIN: [(u8, &str, &str); 16] = [
    (DATE, "76D50F", "2026-11-22"),
    (DATE, "000000", "0000-00-00"),
    (DATE, "9F1F4E", "9999-12-31"),
    (DATE, "00D40F", "2026-00-00"),
    (YEAR, "00", "0000"),
    (YEAR, "01", "1901"),
    (YEAR, "7E", "2026"),
    (YEAR, "FF", "2155"),
    (TIME, "000000", "00:00:00"),
    (TIME, "590A80", "-838:59:59"),
    (TIME, "8B6101", "09:05:07"),
    (TIME, "A7F57F", "838:59:59"),
    (TIME, "FFFFFF", "-00:00:01"),
    (DATETIME, "0B26FC686D120000", "2026-11-22 09:05:07"),
    (DATETIME, "0000000000000000", "0000-00-00 00:00:00"),
    (DATETIME, "7787D105F15A0000", "9999-12-31 23:59:59"),
];

/// The digits of a TIME's fraction, its bytes and its text.
const TIMES: [(u8, &str, &str); 26] = [
    (0, "800000", "00:00:00"),
    (0, "4B9105", "-838:59:59"),
    (0, "B46EFB", "838:59:59"),
    (0, "817EFB", "23:59:59"),
    (0, "7FFFFF", "-00:00:01"),
    (1, "80000000", "00:00:00.0"),
    (1, "7FFFFFCE", "-00:00:00.5"),
    (1, "7FFFFF00", "-00:00:01.0"),
    (1, "817EFB5A", "23:59:59.9"),
    (2, "80000000", "00:00:00.00"),
    (2, "7FFFFFCE", "-00:00:00.50"),
    (2, "817EFB63", "23:59:59.99"),
    (3, "8000000000", "00:00:00.000"),
    (3, "7FFFFFEC78", "-00:00:00.500"),
    (3, "817EFB2706", "23:59:59.999"),
    (4, "8000000000", "00:00:00.0000"),
    (4, "7FFFFFEC78", "-00:00:00.5000"),
    (4, "817EFB270F", "23:59:59.9999"),
    (5, "800000000000", "00:00:00.00000"),
    (5, "7FFFFFF85EE0", "-00:00:00.50000"),
    (5, "817EFB0F4236", "23:59:59.99999"),
    (6, "800000000000", "00:00:00.000000"),
    (6, "4B9105000000", "-838:59:59.000000"),
    (6, "7FFFFFF85EE0", "-00:00:00.500000"),
    (6, "7FFFFF000000", "-00:00:01.000000"),
    (6, "817EFB0F423F", "23:59:59.999999"),
];

/// The digits of a DATETIME's fraction, its bytes and its text.
const DATETIMES: [(u8, &str, &str); 12] = [
    (0, "99BB6C9147", "2026-11-22 09:05:07"),
    (0, "8000000000", "0000-00-00 00:00:00"),
    (0, "FEF3FF7EFB", "9999-12-31 23:59:59"),
    (1, "99BB6C914714", "2026-11-22 09:05:07.2"),
    (1, "800000000000", "0000-00-00 00:00:00.0"),
    (1, "FEF3FF7EFB5A", "9999-12-31 23:59:59.9"),
    (3, "99BB6C914709C4", "2026-11-22 09:05:07.250"),
    (3, "80000000000000", "0000-00-00 00:00:00.000"),
    (3, "FEF3FF7EFB2706", "9999-12-31 23:59:59.999"),
    (6, "99BB6C914703D090", "2026-11-22 09:05:07.250000"),
    (6, "8000000000000000", "0000-00-00 00:00:00.000000"),
    (6, "FEF3FF7EFB0F423F", "9999-12-31 23:59:59.999999"),
];

/// Types without metadata, and bytes that are no value of them.
const WRONG: [(u8, &str); 10] = [
    // a month of 13, and a year of 10000
    (DATE, "A1D50F"),
    (DATE, "21204E"),
    // 00:00:60, 00:60:00, 838:60:00 and its negative
    (TIME, "3C0000"),
    (TIME, "701700"),
    (TIME, "D0F57F"),
    (TIME, "300A80"),
    // 2026-13-01 00:00:00, 2026-01-32 00:00:00, 2026-01-01 24:00:00, and a year of 10000
    (DATETIME, "4017A6736D120000"),
    (DATETIME, "0091F82D6D120000"),
    (DATETIME, "C034232C6D120000"),
    (DATETIME, "40637F16F35A0000"),
];

/// Types with the digits of a fraction, and bytes that are no value of them.
const WRONG_FRACTIONS: [(u8, u8, &str); 14] = [
    // a hundred hundredths, and so on
    (TIME2, 2, "80000064"),
    (TIME2, 4, "8000002710"),
    (TIME2, 6, "8000000F4240"),
    (DATETIME2, 1, "800000000064"),
    (DATETIME2, 3, "80000000002710"),
    (DATETIME2, 5, "80000000000F4240"),
    (TIMESTAMP2, 2, "0000000064"),
    // 60 seconds, 60 minutes, 839 hours, and the least number
    (TIME2, 0, "80003C"),
    (TIME2, 0, "800F00"),
    (TIME2, 0, "B47000"),
    (TIME2, 0, "000000"),
    // below 0000-00-00, 24 hours, and a year of 10000
    (DATETIME2, 0, "7FFFFFFFFF"),
    (DATETIME2, 0, "8000018000"),
    (DATETIME2, 0, "FEF4400000"),
];

#[test]
fn dates_and_times(rt: HostRuntime) -> Result<(), Fail> {
    for (kind, digits, text) in PLAIN {
        check(&rt, kind, &[], digits, text)?;
    }
    for (fraction, digits, text) in TIMES {
        check(&rt, TIME2, &[fraction], digits, text)?;
    }
    for (fraction, digits, text) in DATETIMES {
        check(&rt, DATETIME2, &[fraction], digits, text)?;
    }
    Ok(())
}

#[test]
fn bytes_that_are_no_time(rt: HostRuntime) -> Result<(), Fail> {
    for (kind, digits) in WRONG {
        check_unknown(&rt, kind, &[], digits)?;
    }
    for (kind, fraction, digits) in WRONG_FRACTIONS {
        check_unknown(&rt, kind, &[fraction], digits)?;
    }
    // seven digits of a fraction
    check_unknown(&rt, TIME2, &[7], "80000000000000")?;
    Ok(())
}

/// Returns the point in time of a TIMESTAMP column.
fn timestamp(kind: u8, metadata: &[u8], bytes: &[u8]) -> Option<Timestamp> {
    match read_value(&ColumnType { kind, metadata }, false, bytes) {
        Value::Timestamp(timestamp) => Some(timestamp),
        _ => None,
    }
}

#[test]
fn timestamps(rt: HostRuntime) -> Result<(), Fail> {
    let old = timestamp(TIMESTAMP, &[], b"\x04\x03\x02\x01").ok_or("a timestamp")?;
    assert_eq!(rt; old.seconds, 0x0102_0304);
    assert_eq!(rt; old.fraction.digits, 0);
    let new = timestamp(TIMESTAMP2, &[3], b"\x01\x02\x03\x04\x09\xC4").ok_or("a timestamp")?;
    assert_eq!(rt; new.seconds, 0x0102_0304);
    assert_eq!(rt;
        new.fraction,
        Fraction {
            micros: 250_000,
            digits: 3
        }
    );
    let mut out = Vec::new(rt.alloc());
    put_fraction(&mut out, &new.fraction)?;
    assert_eq!(rt; out.as_slice(), b".250".as_slice());
    Ok(())
}
