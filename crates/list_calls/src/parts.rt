//! Events of the small logs of these tests.

use sample_logs::builder::{Images, Part, Rows, T};

pub const MAP: Part<'static> = Part::Map(T);

const ROWS: Rows<'static> = Rows {
    kind: 30,
    id: 1,
    flags: 1,
    extra: &[],
    count: 1,
    bitmaps: &[0xFF],
    images: Images::Longs(&[5]),
};

/// A statement's rows event that inserts one row.
pub const ONE: Part<'static> = Part::Rows(ROWS);

/// One that inserts two.
pub const TWO: Part<'static> = Part::Rows(Rows {
    images: Images::Longs(&[5, 6]),
    ..ROWS
});

/// One that inserts none, and isn't the last of its statement.
pub const INSERTED_NONE: Part<'static> = Part::Rows(Rows {
    flags: 0,
    images: Images::Longs(&[]),
    ..ROWS
});

pub const ROLLBACK: Part<'static> = Part::Query {
    status: &[],
    text: b"ROLLBACK",
};

/// An event of a transaction's compressed payload, which isn't known.
pub const PAYLOAD: Part<'static> = Part::Other {
    kind: 40,
    flags: 0,
    body: &[0; 9],
};

/// A Gtid event of the number 9 of a server, with the tag `shop` and a control character.
pub const TAGGED: Part<'static> = Part::Other {
    kind: 33,
    flags: 0,
    body: &[
        0, 0x28, 0x3c, 0x10, 0x5d, 0xe7, 0x30, 0x11, 0xf1, 0x97, 0xff, 0x02, 0xfc, 0, 0, 0, 1, 9,
        0, 0, 0, 0, 0, 0, 0, 42, b's', b'h', b'o', b'p', 1,
    ],
};

/// An event of this type, without a body.
pub const fn event_of(kind: u8) -> Part<'static> {
    Part::Other {
        kind,
        flags: 0,
        body: &[],
    }
}
