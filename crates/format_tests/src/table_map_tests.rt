//! Layouts and table maps of the format's own bytes.

use crate::bodies::{body_of, layout_in};
use crate::bytes::{joined, part_of, repeated};
use blog_row::{Layout, RowFault, TableMap};
use std::process::Abort;

/// Columns as they stand behind the names of a table map, and how many they are.
static LAYOUTS: [(&[u8], Result<usize, RowFault>); 17] = [
    (&[0x00, 0, 0], Err(RowFault::BadBody)),
    (&[0xFB, 3, 0, 0], Err(RowFault::BadBody)),
    (&[0xFC, 0x01, 0x10], Err(RowFault::BadBody)),
    (&[0xFC, 0x01, 0x00, 3, 0, 0], Ok(1)),
    (&[1, 14, 0, 0], Err(RowFault::UnknownType)),
    (&[2, 3, 14, 0, 0], Err(RowFault::UnknownType)),
    (&[1, 3, 0], Err(RowFault::BadBody)),
    (&[1, 3, 0, 0], Ok(1)),
    (&[1, 18, 1, 7, 0], Err(RowFault::BadBody)),
    (&[1, 18, 1, 6, 0], Ok(1)),
    (&[1, 246, 2, 2, 3, 0], Err(RowFault::BadBody)),
    (&[1, 246, 2, 3, 2, 0], Ok(1)),
    (&[1, 4, 1, 8, 0], Err(RowFault::BadBody)),
    (&[1, 4, 1, 4, 0], Ok(1)),
    (&[1, 252, 1, 5, 0], Err(RowFault::BadBody)),
    (&[2, 252, 15, 3, 4, 0x2C, 0x01, 0], Ok(2)),
    (&[2, 252, 15, 2, 4, 0x2C, 0x01, 0], Err(RowFault::BadBody)),
];

/// A table map has so many columns, or is refused so for them.
fn check_map(rt: &impl Abort, body: &[u8], want: Result<usize, RowFault>) {
    let map = TableMap::read(body).expect(rt, "names");
    let columns = map.layout().map(|layout| layout.columns());
    assert!(rt; columns == want, "{columns:?} of {body:?}");
}

/// So many columns begin the bytes behind the names, or the bytes are refused so.
fn check_columns<R: AllocGlobal + Abort>(rt: &R, bytes: &[u8], want: Result<usize, RowFault>) {
    check_map(rt, &body_of(rt, bytes), want);
}

#[test]
fn reads_or_refuses_layouts(rt: HostRuntime) {
    for (bytes, want) in &LAYOUTS {
        check_columns(&rt, bytes, *want);
    }
}

/// The types that a table map may have.
static TYPES: [u8; 22] = [
    1, 2, 3, 4, 5, 7, 8, 9, 10, 11, 12, 13, 15, 16, 17, 18, 19, 245, 246, 252, 254, 255,
];

/// Columns of which one has this type, where nothing that is checked before it is wrong.
fn check_unknown<R: AllocGlobal + Abort>(rt: &R, kind: u8) {
    let unknown = Err(RowFault::UnknownType);
    check_columns(rt, &[1, kind, 0, 0], unknown);
    check_columns(rt, &[3, 3, 1, kind, 0, 0], unknown);
    check_columns(rt, &[2, kind, 3, 0, 0], unknown);
    // What comes behind the types is wrong too: nothing is there, or a metadata length that is no number.
    check_columns(rt, &[1, kind], unknown);
    check_columns(rt, &[1, kind, 0xFB, 0], unknown);
}

#[test]
fn refuses_every_other_type(rt: HostRuntime) {
    // Among them NEWDATE, 14, which a server has for its own tables and writes into no log.
    for kind in 0..=255u8 {
        if !TYPES.contains(&kind) {
            check_unknown(&rt, kind);
        }
    }
    // With fewer types than columns it is no body, whatever types are there.
    check_columns(&rt, &[2, 14], Err(RowFault::BadBody));
}

/// A table map of two columns, LONG and VARCHAR of up to 80 bytes.
static MAP: [u8; 22] = [
    0x6C, 1, 0, 0, 0, 0, 1, 0, 2, b'd', b'b', 0, 1, b't', 0, 2, 3, 15, 2, 80, 0, 0b10,
];

/// The same with a VARCHAR of up to 40 bytes.
static NARROWER: [u8; 22] = [
    0x6C, 1, 0, 0, 0, 0, 1, 0, 2, b'd', b'b', 0, 1, b't', 0, 2, 3, 15, 2, 40, 0, 0b10,
];

#[test]
fn reads_a_table_map(rt: HostRuntime) {
    let map = TableMap::read(&MAP).expect(&rt, "names");
    assert!(rt; map.id() == 0x16C);
    assert!(rt; map.schema() == b"db".as_slice());
    assert!(rt; map.table() == b"t".as_slice());
    assert!(rt; TableMap::read(part_of(&rt, &MAP, 0, 14)).is_err());
    assert!(rt; TableMap::known(&MAP).id() == 0x16C);
}

#[test]
fn reads_the_layout_of_a_table_map(rt: HostRuntime) {
    let map = TableMap::read(&MAP).expect(&rt, "names");
    let layout = map.layout().expect(&rt, "a layout");
    assert!(rt; layout.columns() == 2);
    assert!(rt; layout.same(&layout));
    assert!(rt; !layout.same(&layout_in(&rt, &NARROWER)));
    assert!(rt; Layout::known(&MAP).same(&layout));
}

/// Bodies of table maps, and whether they have names.
static NAMES: [(&[u8], bool); 9] = [
    (b"\x01\0\0\0\0\0\x01\0\x01d\0\x01t\0", true),
    (b"\x01\0\0\0\0\0\x01\0\0\0\0\0", true),
    (b"\x01\0\0\0\0\0\x01\0\x01d\x01\x01t\0", false),
    (b"\x01\0\0\0\0\0\x01\0\x01d\0\x01t\x01", false),
    (b"\x01\0\0\0\0\0\x01\0\x01d\0\x01t", false),
    (b"\x01\0\0\0\0\0\x01\0\x05d\0\x01t\0", false),
    (b"\x01\0\0\0\0\0\x01\0", false),
    (b"\x01\0\0\0\0\0\x01", false),
    (b"", false),
];

/// A body has names, or it is refused.
fn check_names(rt: &impl Abort, body: &[u8], named: bool) {
    let refused = TableMap::read(body).err();
    let want = if named { None } else { Some(RowFault::BadBody) };
    assert!(rt; refused == want, "at {body:?}");
}

#[test]
fn refuses_bodies_without_names(rt: HostRuntime) {
    for (body, named) in &NAMES {
        check_names(&rt, body, *named);
    }
}

/// The table map of 4,096 columns of VARCHAR up to 255 bytes.
fn most_columns<R: AllocGlobal + Abort>(rt: &R) -> Vec<u8> {
    let pairs: [&[u8]; 4096] = [&[0xFF, 0x00]; 4096];
    let metadata = joined(rt, &pairs);
    let types = repeated(rt, 15, 4096);
    let parts: [&[u8]; 5] = [
        &[0xFC, 0x00, 0x10],
        &types,
        &[0xFC, 0x00, 0x20],
        &metadata,
        &[0; 512],
    ];
    body_of(rt, &joined(rt, &parts))
}

/// Only the last of these columns is not NULL in the image.
fn check_last_value(rt: &impl Abort, layout: Layout<'_>, image: &[u8]) {
    assert!(rt; layout.image_len(image) == Some(515));
    assert!(rt; layout.value(image, 4094) == Some(None));
    assert!(rt; layout.value(image, 4095) == Some(Some(b"ab")));
    assert!(rt; layout.value(image, 4096) == None);
}

#[test]
fn reads_the_most_columns(rt: HostRuntime) {
    let map = most_columns(&rt);
    check_map(&rt, &map, Ok(4096));
    let (_, cut) = map.split_last().expect(&rt, "a byte");
    check_map(&rt, cut, Err(RowFault::BadBody));
    let image = joined(&rt, &[&repeated(&rt, 0xFF, 511), b"\x7F\x02ab"]);
    check_last_value(&rt, layout_in(&rt, &map), &image);
}
