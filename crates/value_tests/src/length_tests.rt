//! Bytes of each length in columns of each type: all but one length are unknown.

use crate::checks::is_unknown;
use blog_value::{ColumnType, put_value, read_value};
use std::test::Fail;

/// Bytes of zero, more than any value of these types has.
const ZEROS: [u8; 40] = [0; 40];

/// Returns the same with the first bit set, as zero is stored in some types.
fn first_bit_set() -> [u8; 40] {
    let mut bytes = ZEROS;
    bytes[0] = 0x80;
    bytes
}

/// Types, metadata, how long a value is, and whether the first bit of zero is set.
const LENGTHS: [(u8, &[u8], usize, bool); 27] = [
    (1, &[], 1, false),
    (2, &[], 2, false),
    (3, &[], 4, false),
    (4, &[4], 4, false),
    (5, &[8], 8, false),
    (7, &[], 4, false),
    (8, &[], 8, false),
    (9, &[], 3, false),
    (10, &[], 3, false),
    (11, &[], 3, false),
    (12, &[], 8, false),
    (13, &[], 1, false),
    (16, &[1, 0], 1, false),
    (16, &[2, 1], 2, false),
    (16, &[0, 8], 8, false),
    (17, &[0], 4, false),
    (17, &[6], 7, false),
    (18, &[0], 5, true),
    (18, &[3], 7, true),
    (19, &[0], 3, true),
    (19, &[1], 4, true),
    (19, &[6], 6, true),
    (246, &[10, 2], 5, true),
    (246, &[65, 30], 30, true),
    (246, &[4, 4], 2, true),
    (254, &[247, 1], 1, false),
    (254, &[248, 8], 8, false),
];

#[test]
fn lengths(rt: HostRuntime) -> Result<(), Fail> {
    let others = first_bit_set();
    let mut out = Vec::new(rt.alloc());
    for (kind, metadata, width, first_bit) in LENGTHS {
        let column = ColumnType { kind, metadata };
        let bytes = if first_bit { &others } else { &ZEROS };
        for len in 0..=bytes.len() {
            let value = read_value(&column, false, &bytes[..len]);
            assert_eq!(rt; is_unknown(&value), len != width, "{kind}: {len}");
            put_value(&mut out, &value)?;
        }
    }
    Ok(())
}

#[test]
fn types_and_metadata(rt: HostRuntime) -> Result<(), Fail> {
    let bytes = first_bit_set();
    let mut out = Vec::new(rt.alloc());
    for kind in 0..=255 {
        for first in [0, 1, 2, 6, 7, 9, 10, 64, 65, 128, 246, 247, 248, 255] {
            for second in [0, 1, 2, 8, 9, 30, 65, 255] {
                let column = ColumnType {
                    kind,
                    metadata: &[first, second],
                };
                for len in 0..bytes.len() {
                    let value = read_value(&column, false, &bytes[..len]);
                    out.clear();
                    put_value(&mut out, &value)?;
                    assert!(rt; out.len() < 100, "{kind} {first} {second}: {len}");
                }
            }
        }
    }
    Ok(())
}
