//! Integer, FLOAT, DOUBLE and BIT columns.

use crate::checks::{check, check_of, check_unknown};
use blog_value::ColumnType;
use std::test::Fail;

/// Type, bytes, text with a sign and text without one.
const INTEGERS: [(u8, &str, &str, &str); 16] = [
    (1, "FF", "-1", "255"),
    (1, "80", "-128", "128"),
    (1, "7F", "127", "127"),
    (1, "00", "0", "0"),
    (2, "FFFF", "-1", "65535"),
    (2, "0080", "-32768", "32768"),
    (2, "3412", "4660", "4660"),
    (9, "FFFFFF", "-1", "16777215"),
    (9, "000080", "-8388608", "8388608"),
    (9, "563412", "1193046", "1193046"),
    (3, "FFFFFFFF", "-1", "4294967295"),
    (3, "00000080", "-2147483648", "2147483648"),
    (3, "78563412", "305419896", "305419896"),
    (8, "FFFFFFFFFFFFFFFF", "-1", "18446744073709551615"),
    (
        8,
        "0000000000000080",
        "-9223372036854775808",
        "9223372036854775808",
    ),
    (
        8,
        "FFFFFFFFFFFFFF7F",
        "9223372036854775807",
        "9223372036854775807",
    ),
];

/// The bytes of a FLOAT and its text.
const FLOATS: [(&str, &str); 6] = [
    ("0000003F", "0.5"),
    ("EC78AD60", "1e20"),
    ("000040C0", "-3"),
    ("000080BE", "-0.25"),
    ("CDCCCC3D", "0.1"),
    ("FFFF7F7F", "3.4028235e38"),
];

/// The bytes of a DOUBLE and its text.
const DOUBLES: [(&str, &str); 8] = [
    ("9A9999999999B93F", "0.1"),
    ("9C7500883CE4377E", "1e300"),
    ("000000000000F8BF", "-1.5"),
    ("408CB5781DAF1544", "1e20"),
    ("00000054346F9D41", "123456789"),
    ("0100000000000000", "5e-324"),
    ("FFFFFFFFFFFFEF7F", "1.7976931348623157e308"),
    ("0000000000000000", "0"),
];

/// The metadata of a BIT column, its bytes and its text.
const BITS: [(u8, u8, &str, &str); 7] = [
    (1, 0, "01", "b'1'"),
    (1, 0, "00", "b'0'"),
    (2, 1, "0205", "b'1000000101'"),
    (2, 1, "03FF", "b'1111111111'"),
    (0, 1, "81", "b'10000001'"),
    (
        0,
        8,
        "8000000000000001",
        "b'1000000000000000000000000000000000000000000000000000000000000001'",
    ),
    (
        7,
        7,
        "7000000000000000",
        "b'111000000000000000000000000000000000000000000000000000000000000'",
    ),
];

#[test]
fn integers(rt: HostRuntime) -> Result<(), Fail> {
    for (kind, digits, signed, unsigned) in INTEGERS {
        let column = ColumnType {
            kind,
            metadata: &[],
        };
        check_of(&rt, &column, false, digits, signed)?;
        check_of(&rt, &column, true, digits, unsigned)?;
    }
    Ok(())
}

#[test]
fn floats(rt: HostRuntime) -> Result<(), Fail> {
    for (digits, text) in FLOATS {
        check(&rt, 4, &[4], digits, text)?;
    }
    for (digits, text) in DOUBLES {
        check(&rt, 5, &[8], digits, text)?;
    }
    Ok(())
}

#[test]
fn bits(rt: HostRuntime) -> Result<(), Fail> {
    for (over, whole, digits, text) in BITS {
        check(&rt, 16, &[over, whole], digits, text)?;
    }
    Ok(())
}

#[test]
fn bytes_that_are_no_number(rt: HostRuntime) -> Result<(), Fail> {
    // infinity, and what is no number
    check_unknown(&rt, 4, &[4], "0000807F")?;
    check_unknown(&rt, 4, &[4], "0000C07F")?;
    check_unknown(&rt, 5, &[8], "000000000000F0FF")?;
    check_unknown(&rt, 5, &[8], "000000000000F87F")?;
    // bits above those of the column, no bits, and too many
    check_unknown(&rt, 16, &[2, 1], "0405")?;
    check_unknown(&rt, 16, &[0, 0], "")?;
    check_unknown(&rt, 16, &[1, 8], "010000000000000000")?;
    Ok(())
}
