//! Images of worked bytes, and of many columns that are NULL.

use crate::bodies::{body_of, check_image, layout_in};

/// Columns as they stand behind the names of a table map, bytes, how long the image is with which they begin, a column
/// and its value there.
type Worked = (
    &'static [u8],
    &'static [u8],
    Option<usize>,
    usize,
    Option<Option<&'static [u8]>>,
);

static WORKED: [Worked; 27] = [
    (
        b"\x01\xF6\x02\x12\x09\x00",
        b"\xFE12345678",
        Some(9),
        0,
        Some(Some(b"12345678")),
    ),
    (
        b"\x01\x11\x01\x01\x00",
        b"\xFE12345",
        Some(6),
        0,
        Some(Some(b"12345")),
    ),
    (
        b"\x01\x13\x01\x06\x00",
        b"\xFE123456",
        Some(7),
        0,
        Some(Some(b"123456")),
    ),
    (
        b"\x01\xFE\x02\xF7\x01\x00",
        b"\xFE\x01",
        Some(2),
        0,
        Some(Some(b"\x01")),
    ),
    (
        b"\x01\xFE\x02\xFE\x0A\x00",
        b"\xFE\x01a",
        Some(3),
        0,
        Some(Some(b"a")),
    ),
    (
        b"\x01\xFE\x02\xEE\x00\x00",
        b"\xFE\x01\x00a",
        Some(4),
        0,
        Some(Some(b"a")),
    ),
    (b"\x01\xFE\x02\xEE\x00\x00", b"\xFE\x01a", None, 0, None),
    (
        b"\x01\xFC\x01\x03\x00",
        b"\xFE\x02\x00\x00ab",
        Some(6),
        0,
        Some(Some(b"ab")),
    ),
    (
        b"\x01\x10\x02\x00\x02\x00",
        b"\xFE12",
        Some(3),
        0,
        Some(Some(b"12")),
    ),
    (b"\x01\x03\x00\x00", b"\xFF", Some(1), 0, Some(None)),
    (
        b"\x01\x0F\x02\xFF\x00\x00",
        b"\xFE\x02ab",
        Some(4),
        0,
        Some(Some(b"ab")),
    ),
    (
        b"\x01\x0F\x02\x00\x01\x00",
        b"\xFE\x02\x00ab",
        Some(5),
        0,
        Some(Some(b"ab")),
    ),
    (b"\x01\x0F\x02\x00\x01\x00", b"\xFE\x02ab", None, 0, None),
    (
        b"\x01\xF6\x02\x0A\x02\x00",
        b"\xFE12345",
        Some(6),
        0,
        Some(Some(b"12345")),
    ),
    (
        b"\x01\x12\x01\x03\x00",
        b"\xFE1234567",
        Some(8),
        0,
        Some(Some(b"1234567")),
    ),
    (
        b"\x01\x10\x02\x01\x01\x00",
        b"\xFE12",
        Some(3),
        0,
        Some(Some(b"12")),
    ),
    // No bytes are no image.
    (b"\x01\x01\x00\x00", b"", None, 0, None),
    // Bits past the last column are free.
    (b"\x01\x01\x00\x00", b"\x00a", Some(2), 0, Some(Some(b"a"))),
    (b"\x01\x01\x00\x00", b"\x01a", Some(1), 0, Some(None)),
    // Three columns, of which the second is NULL.
    (
        b"\x03\x01\x0F\x02\x02\xFF\x00\x00",
        b"\xFAabc",
        Some(4),
        0,
        Some(Some(b"a")),
    ),
    (
        b"\x03\x01\x0F\x02\x02\xFF\x00\x00",
        b"\xFAabc",
        Some(4),
        1,
        Some(None),
    ),
    (
        b"\x03\x01\x0F\x02\x02\xFF\x00\x00",
        b"\xFAabc",
        Some(4),
        2,
        Some(Some(b"bc")),
    ),
    (
        b"\x03\x01\x0F\x02\x02\xFF\x00\x00",
        b"\xFAabc",
        Some(4),
        3,
        None,
    ),
    // Eight columns, and nine.
    (
        b"\x08\x01\x01\x01\x01\x01\x01\x01\x01\x00\x00",
        b"\x7Fa",
        Some(2),
        7,
        Some(Some(b"a")),
    ),
    (
        b"\x09\x01\x01\x01\x01\x01\x01\x01\x01\x01\x00\x00\x00",
        b"\xFF\x00a",
        Some(3),
        8,
        Some(Some(b"a")),
    ),
    (
        b"\x09\x01\x01\x01\x01\x01\x01\x01\x01\x01\x00\x00\x00",
        b"\xFF\x01a",
        Some(2),
        8,
        Some(None),
    ),
    (
        b"\x09\x01\x01\x01\x01\x01\x01\x01\x01\x01\x00\x00\x00",
        b"\xFF",
        None,
        8,
        None,
    ),
];

#[test]
fn worked_images(rt: HostRuntime) {
    for (columns, bytes, len, column, value) in &WORKED {
        let map = body_of(&rt, columns);
        check_image(&rt, layout_in(&rt, &map), bytes, *len, *column, *value);
    }
}

/// 21 columns, VARCHAR, TINY and BLOB by turns, as they stand behind the names of a table map.
static WIDE: &[u8] =
    b"\x15\x0F\x01\xFC\x0F\x01\xFC\x0F\x01\xFC\x0F\x01\xFC\x0F\x01\xFC\x0F\x01\xFC\x0F\x01\xFC\x15\xFF\x00\x01\xFF\x00\x01\xFF\x00\x01\xFF\x00\x01\xFF\x00\x01\xFF\x00\x01\xFF\x00\x01\x00\x00\x00";

/// An image of them, and the columns that are not NULL in it with their values.
type WideImage = (&'static [u8], &'static [(usize, &'static [u8])]);

static WIDE_IMAGES: [WideImage; 8] = [
    // All are NULL, with the free bits set and clear.
    (b"\xFF\xFF\xFF", &[]),
    (b"\xFF\xFF\x1F", &[]),
    // Sixteen NULL columns, and values behind them.
    (
        b"\xFF\xFF\xE0a\x01b\x02cde\x01f",
        &[(16, b"a"), (17, b"b"), (18, b"cd"), (19, b"e"), (20, b"f")],
    ),
    // Seven of eight: the last of them is there, the first, and one between.
    (b"\x7F\xFF\x1Fa", &[(7, b"a")]),
    (b"\xFE\xFF\xEF\x01a\x02bc", &[(0, b"a"), (20, b"bc")]),
    (b"\xFF\xFB\xFFa", &[(10, b"a")]),
    // Eight NULL columns between values, and eight that lie across two bytes.
    (b"\x7E\xFF\x1E\x01abc", &[(0, b"a"), (7, b"b"), (16, b"c")]),
    (
        b"\xE1\x1F\x1Fa\x01b\x02cdef\x02gh\x00",
        &[
            (1, b"a"),
            (2, b"b"),
            (3, b"cd"),
            (4, b"e"),
            (13, b"f"),
            (14, b"gh"),
            (15, b""),
        ],
    ),
];

#[test]
fn null_columns_by_eight(rt: HostRuntime) {
    let map = body_of(&rt, WIDE);
    let layout = layout_in(&rt, &map);
    for (bytes, values) in &WIDE_IMAGES {
        let len = bytes.len();
        for column in 0..21 {
            let mut value: Option<&[u8]> = None;
            for (at, here) in *values {
                if *at == column {
                    value = Some(*here);
                }
            }
            check_image(&rt, layout, bytes, Some(len), column, Some(value));
        }
        check_image(&rt, layout, bytes, Some(len), 21, None);
        let (_, cut) = bytes.split_last().expect(&rt, "an image");
        check_image(&rt, layout, cut, None, 20, None);
    }
}
