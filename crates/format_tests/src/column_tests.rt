//! Values of each column type, at the limits of its metadata.

use crate::bodies::{body_of, check_image, layout_in};
use crate::bytes::{joined, repeated};
use blog_row::Layout;
use std::process::Abort;

/// The table map of a column of this type.
fn map_of<R: AllocGlobal + Abort>(rt: &R, kind: u8, metadata: &[u8]) -> Vec<u8> {
    let [len, ..] = metadata.len().to_le_bytes();
    body_of(rt, &joined(rt, &[&[1, kind, len], metadata, &[0]]))
}

/// The image of a value of so many bytes behind the bytes of its length, and a byte behind it.
fn image_of<R: AllocGlobal + Abort>(rt: &R, count: &[u8], width: usize) -> Vec<u8> {
    let letters = repeated(rt, b'a', width.saturating_add(1));
    joined(rt, &[&[0xFE], count, &letters])
}

/// A value in an image that is whole, has a byte behind it, and lacks its last; and NULL.
fn check_images(rt: &impl Abort, layout: Layout<'_>, longer: &[u8], width: usize) {
    let (_, image) = longer.split_last().expect(rt, "a byte behind the image");
    let (_, cut) = image.split_last().expect(rt, "an image");
    let len = Some(image.len());
    let value = image.get(image.len().saturating_sub(width)..);
    check_image(rt, layout, image, len, 0, Some(value));
    check_image(rt, layout, image, len, 1, None);
    check_image(rt, layout, longer, len, 0, Some(value));
    check_image(rt, layout, cut, None, 0, None);
    check_image(rt, layout, &[0xFF, 0x61], Some(1), 0, Some(None));
}

/// Images of one column: a value of so many bytes behind the bytes of its length, and NULL.
fn check_column<R: AllocGlobal + Abort>(
    rt: &R,
    kind: u8,
    metadata: &[u8],
    count: &[u8],
    width: usize,
) {
    let map = map_of(rt, kind, metadata);
    let longer = image_of(rt, count, width);
    check_images(rt, layout_in(rt, &map), &longer, width);
}

/// Types, their metadata, the bytes of a length, and how many bytes a value has.
static COLUMNS: [(u8, &[u8], &[u8], usize); 41] = [
    // TINY, SHORT, LONG, FLOAT, DOUBLE, TIMESTAMP, LONGLONG, INT24, DATE, TIME, DATETIME, YEAR
    (1, b"", b"", 1),
    (2, b"", b"", 2),
    (3, b"", b"", 4),
    (4, b"\x04", b"", 4),
    (5, b"\x08", b"", 8),
    (7, b"", b"", 4),
    (8, b"", b"", 8),
    (9, b"", b"", 3),
    (10, b"", b"", 3),
    (11, b"", b"", 3),
    (12, b"", b"", 8),
    (13, b"", b"", 1),
    // VARCHAR: up to 0, 255, 256 and 65,535 bytes
    (15, b"\x00\x00", b"\x00", 0),
    (15, b"\xFF\x00", b"\xFF", 255),
    (15, b"\x00\x01", b"\x00\x01", 256),
    (15, b"\xFF\xFF", b"\xFF\xFF", 65_535),
    // JSON, BLOB, GEOMETRY: lengths of one to four bytes
    (245, b"\x01", b"\xFF", 255),
    (245, b"\x02", b"\x00\x01", 256),
    (245, b"\x03", b"\x00\x00\x01", 65_536),
    (245, b"\x04", b"\x00\x00\x01\x00", 65_536),
    (252, b"\x01", b"\x00", 0),
    (252, b"\x02", b"\xFF\xFF", 65_535),
    (252, b"\x03", b"\x01\x00\x01", 65_537),
    (252, b"\x04", b"\x01\x00\x01\x00", 65_537),
    (255, b"\x01", b"\x19", 25),
    (255, b"\x02", b"\x19\x00", 25),
    (255, b"\x03", b"\x19\x00\x00", 25),
    (255, b"\x04", b"\x19\x00\x00\x00", 25),
    // ENUM and SET
    (254, b"\xF7\x01", b"", 1),
    (254, b"\xF7\x02", b"", 2),
    (254, b"\xF8\x01", b"", 1),
    (254, b"\xF8\x02", b"", 2),
    (254, b"\xF8\x03", b"", 3),
    (254, b"\xF8\x04", b"", 4),
    (254, b"\xF8\x08", b"", 8),
    // CHAR: up to 0, 255, 256, 765 and 1,020 bytes
    (254, b"\xFE\x00", b"\x00", 0),
    (254, b"\xFE\xFF", b"\xFF", 255),
    (254, b"\xEE\x00", b"\x00\x01", 256),
    (254, b"\xDE\xFD", b"\xFD\x02", 765),
    (254, b"\xCE\xFC", b"\xFC\x03", 1_020),
    (254, b"\xCE\xFC", b"\x2C\x01", 300),
];

#[test]
fn each_type_has_values_and_null(rt: HostRuntime) {
    for (kind, metadata, count, width) in &COLUMNS {
        check_column(&rt, *kind, metadata, count, *width);
    }
}

/// All digits of a decimal, those behind the point, and its bytes.
static DECIMALS: [(u8, u8, usize); 25] = [
    (0, 0, 0),
    (1, 0, 1),
    (2, 0, 1),
    (3, 0, 2),
    (4, 0, 2),
    (5, 0, 3),
    (6, 0, 3),
    (7, 0, 4),
    (8, 0, 4),
    (9, 0, 4),
    (18, 0, 8),
    (19, 0, 9),
    (9, 9, 4),
    (18, 9, 8),
    (27, 9, 12),
    (28, 9, 13),
    (18, 18, 8),
    (27, 18, 12),
    (36, 18, 16),
    (37, 18, 17),
    (19, 19, 9),
    (28, 19, 13),
    (37, 19, 17),
    (38, 19, 18),
    (65, 30, 30),
];

#[test]
fn widths_follow_digits(rt: HostRuntime) {
    for (digits, scale, width) in &DECIMALS {
        check_column(&rt, 246, &[*digits, *scale], b"", *width);
    }
}

/// How many digits the seconds have behind the point, and in how many bytes.
static FRACTIONS: [(u8, usize); 7] = [(0, 0), (1, 1), (2, 1), (3, 2), (4, 2), (5, 3), (6, 3)];

/// Columns of TIMESTAMP2, DATETIME2 and TIME2 with so many digits.
fn check_seconds<R: AllocGlobal + Abort>(rt: &R, digits: u8, more: usize) {
    check_column(rt, 17, &[digits], b"", more.saturating_add(4));
    check_column(rt, 18, &[digits], b"", more.saturating_add(5));
    check_column(rt, 19, &[digits], b"", more.saturating_add(3));
}

#[test]
fn widths_follow_digits_of_seconds(rt: HostRuntime) {
    for (digits, more) in &FRACTIONS {
        check_seconds(&rt, *digits, *more);
    }
}

#[test]
fn widths_follow_bits(rt: HostRuntime) {
    for bits in 0..=64u8 {
        let width = usize::from(bits.div_ceil(8));
        check_column(&rt, 16, &[bits % 8, bits / 8], b"", width);
    }
}
