//! DECIMAL columns.

use crate::checks::{check, check_unknown};
use std::test::Fail;

/// The type of a DECIMAL column.
const NEWDECIMAL: u8 = 246;

/// Digits, digits behind the point, bytes and text. The first two are the examples of MySQL's sources.
const DECIMALS: [(u8, u8, &str, &str); 21] = [
    (14, 4, "810DFB38D204D2", "1234567890.1234"),
    (14, 4, "7EF204C72DFB2D", "-1234567890.1234"),
    (10, 2, "8000003F30", "63.48"),
    (10, 2, "7FFFFFC0CF", "-63.48"),
    (10, 2, "8000000000", "0.00"),
    (10, 2, "8000000005", "0.05"),
    (4, 4, "84D2", "0.1234"),
    (4, 4, "7B2D", "-0.1234"),
    (4, 4, "8000", "0.0000"),
    (10, 0, "8000000000", "0"),
    (10, 0, "7FFFFFFFFE", "-1"),
    (10, 0, "8100000000", "1000000000"),
    (1, 0, "87", "7"),
    (9, 9, "80000001", "0.000000001"),
    (18, 9, "875BCD1500000001", "123456789.000000001"),
    (15, 7, "85F5E0FF0098967F", "99999999.9999999"),
    (
        30,
        0,
        "8000000000640000000000000000",
        "100000000000000000000",
    ),
    (
        65,
        30,
        "85F5E0FF3B9AC9FF3B9AC9FF3B9AC9FF3B9AC9FF3B9AC9FF3B9AC9FF03E7",
        "99999999999999999999999999999999999.999999999999999999999999999999",
    ),
    (
        65,
        30,
        "7A0A1F00C4653600C4653600C4653600C4653600C4653600C4653600FC18",
        "-99999999999999999999999999999999999.999999999999999999999999999999",
    ),
    (
        65,
        30,
        "800000000000000000000000000000000000000000000000000000000001",
        "0.000000000000000000000000000001",
    ),
    (
        65,
        0,
        "E33B9AC9FF3B9AC9FF3B9AC9FF3B9AC9FF3B9AC9FF3B9AC9FF3B9AC9FF",
        "99999999999999999999999999999999999999999999999999999999999999999",
    ),
];

/// Digits, digits behind the point, and bytes that are no such value.
const WRONG: [(u8, u8, &str); 11] = [
    // too few bytes, too many, and none
    (10, 2, "8000003F"),
    (10, 2, "8000003F3000"),
    (10, 2, ""),
    (0, 0, ""),
    // 100 in two digits, in front of the point and behind it
    (11, 9, "E43B9AC9FF"),
    (10, 2, "8000000064"),
    // 1000000000 in nine digits, in front of the point and behind it
    (9, 0, "BB9ACA00"),
    (18, 9, "800000003B9ACA00"),
    // ten in one digit
    (1, 0, "8A"),
    // more digits behind the point than there are, and more than there can be
    (2, 3, "800000"),
    (
        66,
        0,
        "80000000000000000000000000000000000000000000000000000000000000",
    ),
];

#[test]
fn decimals(rt: HostRuntime) -> Result<(), Fail> {
    for (precision, scale, digits, text) in DECIMALS {
        check(&rt, NEWDECIMAL, &[precision, scale], digits, text)?;
    }
    Ok(())
}

#[test]
fn bytes_that_are_no_decimal(rt: HostRuntime) -> Result<(), Fail> {
    for (precision, scale, digits) in WRONG {
        check_unknown(&rt, NEWDECIMAL, &[precision, scale], digits)?;
    }
    Ok(())
}
