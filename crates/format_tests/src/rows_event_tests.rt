//! Rows events that are read, that are known, and that are written in either order.

use crate::bodies::{body_of, layout_in};
use crate::bytes::{joined, repeated};
use blog_row::{Layout, Order, RowsAction, RowsEvent, RowsKind, RowsVersion};
use std::process::Abort;

/// The table map of d.t, which has one VARCHAR column of up to 255 bytes.
static MAP: [u8; 21] = [
    0x6C, 0, 0, 0, 0, 0, 1, 0, 1, b'd', 0, 1, b't', 0, 1, 0x0F, 2, 0xFF, 0x00, 1, 0,
];

/// A rows event of that table.
struct Case {
    action: RowsAction,
    body: &'static [u8],
    bitmaps: (&'static [u8], &'static [u8]),
    images: &'static [u8],
    /// How many images there are.
    len: usize,
    /// The images from the last to the first.
    reversed: &'static [u8],
}

impl Case {
    /// Its kind, of version 2.
    fn kind(&self) -> RowsKind {
        RowsKind {
            version: RowsVersion::Two,
            action: self.action,
        }
    }
}

static CASES: [Case; 4] = [
    // no rows
    Case {
        action: RowsAction::Delete,
        body: b"\x6C\x00\x00\x00\x00\x00\x01\x00\x02\x00\x01\x01",
        bitmaps: (b"\x01", b""),
        images: b"",
        len: 0,
        reversed: b"",
    },
    // the rows "a" and "bcd"
    Case {
        action: RowsAction::Write,
        body: b"\x6C\x00\x00\x00\x00\x00\x01\x00\x02\x00\x01\x01\xFE\x01\x61\xFE\x03\x62\x63\x64",
        bitmaps: (b"\x01", b""),
        images: b"\xFE\x01\x61\xFE\x03\x62\x63\x64",
        len: 2,
        reversed: b"\xFE\x03\x62\x63\x64\xFE\x01\x61",
    },
    // a row changed from "a" to "bcd"; the free bits of the second bitmap are set
    Case {
        action: RowsAction::Update,
        body: b"\x6C\x00\x00\x00\x00\x00\x01\x00\x02\x00\x01\x01\xFF\xFE\x01\x61\xFE\x03\x62\x63\x64",
        bitmaps: (b"\x01", b"\xFF"),
        images: b"\xFE\x01\x61\xFE\x03\x62\x63\x64",
        len: 2,
        reversed: b"\xFE\x03\x62\x63\x64\xFE\x01\x61",
    },
    // a row changed from "a" to "bcd", and one from NULL to ""
    Case {
        action: RowsAction::Update,
        body: b"\x6C\x00\x00\x00\x00\x00\x01\x00\x02\x00\x01\x01\x01\xFE\x01\x61\xFE\x03\x62\x63\x64\xFF\xFE\x00",
        bitmaps: (b"\x01", b"\x01"),
        images: b"\xFE\x01\x61\xFE\x03\x62\x63\x64\xFF\xFE\x00",
        len: 4,
        reversed: b"\xFE\x00\xFF\xFE\x03\x62\x63\x64\xFE\x01\x61",
    },
];

/// Whether the event answers the numbers that its body has.
fn has_numbers(event: &RowsEvent<'_>, case: &Case) -> bool {
    event.kind() == case.kind()
        && event.table_id() == 0x6C
        && event.flags() == 1
        && event.ends()
        && event.rows_len() == case.images.len()
}

/// Whether it answers the parts behind them.
fn has_parts(event: &RowsEvent<'_>, case: &Case) -> bool {
    event.count() == b"\x01".as_slice()
        && event.bitmaps() == case.bitmaps
        && event.images() == case.images
}

/// Whether the event answers what its body says.
fn check_event(rt: &impl Abort, event: &RowsEvent<'_>, layout: &Layout<'_>, case: &Case) {
    let body = case.body;
    assert!(rt; has_numbers(event, case), "numbers of {body:?}");
    assert!(rt; has_parts(event, case), "parts of {body:?}");
    assert!(rt; event.layout().same(layout), "layout of {body:?}");
}

/// The event of a case, and how many images it has.
fn read_case<'a>(rt: &impl Abort, case: &Case, layout: &Layout<'a>) -> (RowsEvent<'a>, usize) {
    let counted = RowsEvent::read_counted(case.kind(), case.body, layout);
    counted.expect(rt, "an event")
}

/// The event is read, and known, as what its body says.
fn check_case(rt: &impl Abort, case: &Case, layout: &Layout<'_>) {
    let kind = case.kind();
    let (event, len) = RowsEvent::read_counted(kind, case.body, layout).expect(rt, "an event");
    check_event(rt, &event, layout, case);
    assert!(rt; len == case.len);
    check_event(rt, &RowsEvent::known(kind, case.body, layout), layout, case);
}

#[test]
fn reads_and_knows_events(rt: HostRuntime) {
    let layout = layout_in(&rt, &MAP);
    for case in &CASES {
        check_case(&rt, case, &layout);
    }
}

/// The images of an event from the last to the first are these.
fn check_reversed<R: AllocGlobal + Abort>(rt: &R, event: &RowsEvent<'_>, wanted: &[u8]) {
    let mut room = vec![in rt.alloc(); 0xAA; event.rows_len()].expect(rt, "memory");
    event.put_reversed(&mut room);
    assert!(rt; room.as_slice() == wanted);
}

#[test]
fn puts_images_in_reverse_order(rt: HostRuntime) {
    let layout = layout_in(&rt, &MAP);
    for case in &CASES {
        let (event, _) = read_case(&rt, case, &layout);
        check_reversed(&rt, &event, case.reversed);
    }
}

/// The body that is written for an event is this.
fn check_written<R: AllocGlobal + Abort>(
    rt: &R,
    event: &RowsEvent<'_>,
    order: Order,
    last: bool,
    wanted: &[u8],
) {
    let mut room = vec![in rt.alloc(); 0xAA; event.body_len()].expect(rt, "memory");
    event.put_body(order, last, &mut room);
    assert!(rt; room.as_slice() == wanted, "{room:?}");
}

/// The bodies that are written for an event: the last of its statement forward, and one before it backward.
fn check_orders<R: AllocGlobal + Abort>(
    rt: &R,
    event: &RowsEvent<'_>,
    forward: &[u8],
    backward: &[u8],
) {
    assert!(rt; event.body_len() == forward.len());
    check_written(rt, event, Order::Forward, true, forward);
    check_written(rt, event, Order::Backward, false, backward);
}

#[test]
fn writes_bodies_without_extra_bytes(rt: HostRuntime) {
    let layout = layout_in(&rt, &MAP);
    // flags of 3, an extra length of 4 with two bytes in version 2, and two rows that are changed
    let two = b"\x6C\0\0\0\0\0\x03\0\x04\0\xAA\xBB\x01\x01\xFF\xFE\x01a\xFE\x02bc\xFF\xFE\0";
    let forward = b"\x6C\0\0\0\0\0\x03\0\x02\0\x01\x01\xFF\xFE\x01a\xFE\x02bc\xFF\xFE\0";
    let backward = b"\x6C\0\0\0\0\0\x02\0\x02\0\x01\xFF\x01\xFE\0\xFF\xFE\x02bc\xFE\x01a";
    let event = RowsEvent::read(31, two, &layout).expect(&rt, "an event");
    check_orders(&rt, &event, forward, backward);
    // the same rows in version 1
    let one = b"\x6C\0\0\0\0\0\x03\0\x01\x01\xFF\xFE\x01a\xFE\x02bc\xFF\xFE\0";
    let backward = b"\x6C\0\0\0\0\0\x02\0\x01\xFF\x01\xFE\0\xFF\xFE\x02bc\xFE\x01a";
    let event = RowsEvent::read(24, one, &layout).expect(&rt, "an event");
    check_orders(&rt, &event, one, backward);
}

/// The event type that a kind has in either order.
fn check_types(rt: &impl Abort, number: u8, opposite: u8) {
    let kind = RowsKind::of_type(number).expect(rt, "a type of rows events");
    assert!(rt; Order::Forward.kind(kind).number() == number);
    assert!(rt; Order::Backward.kind(kind).number() == opposite);
}

#[test]
fn writes_inserts_as_deletes(rt: HostRuntime) {
    for (number, opposite) in [(23, 25), (24, 24), (25, 23), (30, 32), (31, 31), (32, 30)] {
        check_types(&rt, number, opposite);
    }
    let body = b"\x6C\0\0\0\0\0\0\0\x01\x01\xFE\x01a\xFE\x02bc";
    let wanted = b"\x6C\0\0\0\0\0\x01\0\x01\x01\xFE\x02bc\xFE\x01a";
    let event = RowsEvent::read(23, body, &layout_in(&rt, &MAP)).expect(&rt, "an event");
    check_written(&rt, &event, Order::Backward, true, wanted);
}

/// Types of columns by turns, TINY, VARCHAR and BLOB, and the metadata of each.
static TYPES: [&[u8]; 3] = [b"\x01", b"\x0F", b"\xFC"];

static METADATA: [&[u8]; 3] = [b"", b"\xFF\0", b"\x02"];

/// Appends the bytes of each column, which stand by turns; those of columns that are NULL are left out. Each eight columns
/// have the same null bits.
fn push_columns<R: AllocGlobal + Abort>(
    rt: &R,
    bytes: &mut Vec<u8>,
    columns: usize,
    nulls: u8,
    turns: &[&[u8]; 3],
) {
    for i in 0..columns {
        if (nulls >> (i % 8)) & 1 == 0 {
            bytes.extend_from_slice(turns[i % 3]).expect(rt, "memory");
        }
    }
}

/// A byte for each eight columns.
fn bits_of<R: AllocGlobal + Abort>(rt: &R, columns: usize, bits: u8) -> Vec<u8> {
    repeated(rt, bits, columns.div_ceil(8))
}

/// A number in one byte.
fn byte_of(number: usize) -> u8 {
    let [low, ..] = number.to_le_bytes();
    low
}

/// The table map of columns of these types.
fn map_of<R: AllocGlobal + Abort>(rt: &R, columns: usize) -> Vec<u8> {
    let mut types = Vec::new(rt.alloc());
    push_columns(rt, &mut types, columns, 0, &TYPES);
    let mut metadata = Vec::new(rt.alloc());
    push_columns(rt, &mut metadata, columns, 0, &METADATA);
    let nullable = bits_of(rt, columns, 0xFF);
    let (count, len) = ([byte_of(columns)], [byte_of(metadata.len())]);
    body_of(
        rt,
        &joined(rt, &[&count, &types, &len, &metadata, &nullable]),
    )
}

/// The null bits of each eight columns, by turns: none of them is NULL, all are, and some.
static NULLS: [u8; 4] = [0x00, 0xFF, 0x92, 0x6D];

/// Appends the image of a row of such columns.
fn push_image<R: AllocGlobal + Abort>(rt: &R, images: &mut Vec<u8>, columns: usize, row: u8) {
    let nulls = NULLS[usize::from(row % 4)];
    images
        .extend_from_slice(&bits_of(rt, columns, nulls))
        .expect(rt, "memory");
    push_columns(
        rt,
        images,
        columns,
        nulls,
        &[&[row], &[2, row, 0x61], &[1, 0, row]],
    );
}

/// The body of an event that inserts 97 such rows.
fn inserting<R: AllocGlobal + Abort>(rt: &R, columns: usize) -> Vec<u8> {
    let front = [0x6C, 0, 0, 0, 0, 0, 1, 0, 2, 0, byte_of(columns)];
    let mut body = joined(rt, &[&front, &bits_of(rt, columns, 0xFF)]);
    for row in 0..97u8 {
        push_image(rt, &mut body, columns, row);
    }
    body
}

/// Its images from the last to the first.
fn images_from_last<R: AllocGlobal + Abort>(rt: &R, columns: usize) -> Vec<u8> {
    let mut images = Vec::new(rt.alloc());
    for row in 0..97u8 {
        push_image(rt, &mut images, columns, 96 - row);
    }
    images
}

const WRITE: RowsKind = RowsKind {
    version: RowsVersion::Two,
    action: RowsAction::Write,
};

/// Inserts of 97 rows are read, their images are put in reverse order, and a cut body is refused.
fn check_inserts<R: AllocGlobal + Abort>(
    rt: &R,
    layout: &Layout<'_>,
    body: &[u8],
    reversed: &[u8],
) {
    let (event, len) = RowsEvent::read_counted(WRITE, body, layout).expect(rt, "an event");
    assert!(rt; len == 97);
    check_reversed(rt, &event, reversed);
    let (_, cut) = body.split_last().expect(rt, "a byte");
    assert!(rt; RowsEvent::read_counted(WRITE, cut, layout).is_err());
}

/// An event of many images, each of so many columns.
fn check_many<R: AllocGlobal + Abort>(rt: &R, columns: usize) {
    let map = map_of(rt, columns);
    let reversed = images_from_last(rt, columns);
    assert!(rt; reversed.len() / 64 > columns);
    check_inserts(rt, &layout_in(rt, &map), &inserting(rt, columns), &reversed);
}

/// Up to 64 columns are walked by their storages in an event of so many images, and more column by column.
#[test]
fn many_images_of_few_columns_and_of_many(rt: HostRuntime) {
    for columns in [1usize, 8, 9, 64, 65] {
        check_many(&rt, columns);
    }
}
