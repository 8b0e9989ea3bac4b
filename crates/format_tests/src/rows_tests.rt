//! Rows events of the format's own bytes.

use crate::bodies::layout_in;
use blog_row::{
    Layout, RowChange, RowFault, RowsAction, RowsEvent, RowsHead, RowsKind, RowsVersion,
};
use std::process::Abort;

const WRITE: RowsKind = RowsKind {
    version: RowsVersion::Two,
    action: RowsAction::Write,
};

const UPDATE: RowsKind = RowsKind {
    version: RowsVersion::Two,
    action: RowsAction::Update,
};

const DELETE: RowsKind = RowsKind {
    version: RowsVersion::Two,
    action: RowsAction::Delete,
};

const WRITE_V1: RowsKind = RowsKind {
    version: RowsVersion::One,
    action: RowsAction::Write,
};

const UPDATE_V1: RowsKind = RowsKind {
    version: RowsVersion::One,
    action: RowsAction::Update,
};

const DELETE_V1: RowsKind = RowsKind {
    version: RowsVersion::One,
    action: RowsAction::Delete,
};

/// Table maps of `d`.`t`: of one LONG column, of two, and of nine TINY columns.
const ONE_LONG: &[u8] = b"\x01\0\0\0\0\0\x01\0\x01d\0\x01t\0\x01\x03\0\x01";

const TWO_LONGS: &[u8] = b"\x01\0\0\0\0\0\x01\0\x01d\0\x01t\0\x02\x03\x03\0\x03";

const NINE_TINIES: &[u8] =
    b"\x01\0\0\0\0\0\x01\0\x01d\0\x01t\0\x09\x01\x01\x01\x01\x01\x01\x01\x01\x01\0\xFF\x01";

/// The rows event of a body, by its table map.
fn event_of<'a>(
    rt: &impl Abort,
    kind: RowsKind,
    map: &'a [u8],
    body: &'a [u8],
) -> Result<RowsEvent<'a>, RowFault> {
    read_by_type(kind, body, &layout_in(rt, map))
}

/// A table map, the body of a rows event, and what is read from it.
struct Worked {
    kind: RowsKind,
    map: &'static [u8],
    body: &'static [u8],
    id: u64,
    flags: u16,
    ends: bool,
    count: &'static [u8],
    bitmaps: (&'static [u8], &'static [u8]),
    images: &'static [u8],
    columns: usize,
    rows: &'static [RowChange<'static>],
}

static WORKED: [Worked; 10] = [
    // Version 1: the column count stands behind the flags. A row that is inserted, one that is changed, and two that are
    // deleted.
    Worked {
        kind: WRITE_V1,
        map: ONE_LONG,
        body: b"\x01\0\0\0\0\0\x01\0\x01\xFF\xFE\x05\0\0\0",
        id: 1,
        flags: 1,
        ends: true,
        count: b"\x01",
        bitmaps: (b"\xFF", b""),
        images: b"\xFE\x05\0\0\0",
        columns: 1,
        rows: &[RowChange {
            before: None,
            after: Some(b"\xFE\x05\0\0\0"),
        }],
    },
    Worked {
        kind: UPDATE_V1,
        map: ONE_LONG,
        body: b"\x01\0\0\0\0\0\0\0\x01\xFF\x01\xFF\xFE\x02\0\0\0",
        id: 1,
        flags: 0,
        ends: false,
        count: b"\x01",
        bitmaps: (b"\xFF", b"\x01"),
        images: b"\xFF\xFE\x02\0\0\0",
        columns: 1,
        rows: &[RowChange {
            before: Some(b"\xFF"),
            after: Some(b"\xFE\x02\0\0\0"),
        }],
    },
    Worked {
        kind: DELETE_V1,
        map: ONE_LONG,
        body: b"\x01\0\0\0\0\0\x03\0\x01\xFF\xFE\x05\0\0\0\xFF",
        id: 1,
        flags: 3,
        ends: true,
        count: b"\x01",
        bitmaps: (b"\xFF", b""),
        images: b"\xFE\x05\0\0\0\xFF",
        columns: 1,
        rows: &[
            RowChange {
                before: Some(b"\xFE\x05\0\0\0"),
                after: None,
            },
            RowChange {
                before: Some(b"\xFF"),
                after: None,
            },
        ],
    },
    // Two rows of two columns; the second has a NULL.
    Worked {
        kind: WRITE,
        map: TWO_LONGS,
        body: b"\x6C\x01\0\0\0\0\x01\0\x02\0\x02\xFF\xFC\x01\0\0\0\x02\0\0\0\xFE\x03\0\0\0",
        id: 0x16C,
        flags: 1,
        ends: true,
        count: b"\x02",
        bitmaps: (b"\xFF", b""),
        images: b"\xFC\x01\0\0\0\x02\0\0\0\xFE\x03\0\0\0",
        columns: 2,
        rows: &[
            RowChange {
                before: None,
                after: Some(b"\xFC\x01\0\0\0\x02\0\0\0"),
            },
            RowChange {
                before: None,
                after: Some(b"\xFE\x03\0\0\0"),
            },
        ],
    },
    // Two rows, each changed; the second was NULL.
    Worked {
        kind: UPDATE,
        map: ONE_LONG,
        body: b"\x01\0\0\0\0\0\0\0\x02\0\x01\xFF\x01\xFE\x01\0\0\0\xFE\x02\0\0\0\xFF\xFE\x03\0\0\0",
        id: 1,
        flags: 0,
        ends: false,
        count: b"\x01",
        bitmaps: (b"\xFF", b"\x01"),
        images: b"\xFE\x01\0\0\0\xFE\x02\0\0\0\xFF\xFE\x03\0\0\0",
        columns: 1,
        rows: &[
            RowChange {
                before: Some(b"\xFE\x01\0\0\0"),
                after: Some(b"\xFE\x02\0\0\0"),
            },
            RowChange {
                before: Some(b"\xFF"),
                after: Some(b"\xFE\x03\0\0\0"),
            },
        ],
    },
    // Two extra bytes, a column count of three bytes, and two rows.
    Worked {
        kind: DELETE,
        map: ONE_LONG,
        body: b"\x01\x02\x03\x04\x05\x06\x03\x80\x04\0\xAA\xBB\xFC\x01\0\x01\xFE\x05\0\0\0\xFF",
        id: 0x0605_0403_0201,
        flags: 0x8003,
        ends: true,
        count: b"\xFC\x01\0",
        bitmaps: (b"\x01", b""),
        images: b"\xFE\x05\0\0\0\xFF",
        columns: 1,
        rows: &[
            RowChange {
                before: Some(b"\xFE\x05\0\0\0"),
                after: None,
            },
            RowChange {
                before: Some(b"\xFF"),
                after: None,
            },
        ],
    },
    // Nine columns have two bytes of bits; only the first and the last are not NULL.
    Worked {
        kind: WRITE,
        map: NINE_TINIES,
        body: b"\xFF\xFF\xFF\xFF\xFF\xFF\xFE\xFF\x02\0\x09\xFF\x01\xFE\xFEab",
        id: 0xFFFF_FFFF_FFFF,
        flags: 0xFFFE,
        ends: false,
        count: b"\x09",
        bitmaps: (b"\xFF\x01", b""),
        images: b"\xFE\xFEab",
        columns: 9,
        rows: &[RowChange {
            before: None,
            after: Some(b"\xFE\xFEab"),
        }],
    },
    // No rows.
    Worked {
        kind: WRITE,
        map: ONE_LONG,
        body: b"\x01\0\0\0\0\0\0\0\x02\0\x01\xFF",
        id: 1,
        flags: 0,
        ends: false,
        count: b"\x01",
        bitmaps: (b"\xFF", b""),
        images: b"",
        columns: 1,
        rows: &[],
    },
    Worked {
        kind: UPDATE,
        map: ONE_LONG,
        body: b"\x01\0\0\0\0\0\0\0\x02\0\x01\xFF\x01",
        id: 1,
        flags: 0,
        ends: false,
        count: b"\x01",
        bitmaps: (b"\xFF", b"\x01"),
        images: b"",
        columns: 1,
        rows: &[],
    },
    Worked {
        kind: DELETE,
        map: ONE_LONG,
        body: b"\x01\0\0\0\0\0\0\0\x02\0\x01\xFF",
        id: 1,
        flags: 0,
        ends: false,
        count: b"\x01",
        bitmaps: (b"\xFF", b""),
        images: b"",
        columns: 1,
        rows: &[],
    },
];

/// Whether the event answers the numbers that its body has.
fn has_numbers(event: &RowsEvent<'_>, want: &Worked) -> bool {
    event.kind() == want.kind
        && event.table_id() == want.id
        && event.flags() == want.flags
        && event.ends() == want.ends
        && event.rows_len() == want.images.len()
        && event.layout().columns() == want.columns
}

/// Whether it answers the parts behind them.
fn has_parts(event: &RowsEvent<'_>, want: &Worked) -> bool {
    event.count() == want.count && event.bitmaps() == want.bitmaps && event.images() == want.images
}

/// Whether it goes through the rows, which are no more than its images have bytes.
fn has_rows(event: &RowsEvent<'_>, want: &Worked) -> bool {
    let rows = event.rows();
    rows.size_hint() == (0, Some(want.images.len())) && rows.eq(want.rows.iter().copied())
}

/// Whether the event answers what its body says.
fn check_event(rt: &impl Abort, event: &RowsEvent<'_>, want: &Worked) {
    let body = want.body;
    assert!(rt; has_numbers(event, want), "numbers of {body:?}");
    assert!(rt; has_parts(event, want), "parts of {body:?}");
    assert!(rt; has_rows(event, want), "rows of {body:?}");
}

#[test]
fn reads_rows_events(rt: HostRuntime) {
    for want in &WORKED {
        let event = event_of(&rt, want.kind, want.map, want.body).expect(&rt, "an event");
        check_event(&rt, &event, want);
    }
}

/// The rows of a small event, as `{:#?}` shows them.
const SHOWN_BY_LINES: &str = "Rows {
    action: Delete,
    layout: Layout {
        kinds: [
            3,
        ],
        metadata: [],
    },
    rest: [
        254,
        5,
        0,
        0,
        0,
        255,
    ],
}";

#[test]
fn shows_rows(rt: HostRuntime) {
    let body = b"\x01\0\0\0\0\0\x03\0\x01\xFF\xFE\x05\0\0\0\xFF";
    let event = event_of(&rt, DELETE_V1, ONE_LONG, body).expect(&rt, "an event");
    let rows = event.rows();
    let shown = format!(in rt.alloc(); "{rows:?}").expect(&rt, "memory");
    assert!(rt;
        shown.as_str()
            == "Rows { action: Delete, layout: Layout { kinds: [3], metadata: [] }, rest: [254, 5, 0, 0, 0, 255] }"
    );
    let by_lines = format!(in rt.alloc(); "{rows:#?}").expect(&rt, "memory");
    assert!(rt; by_lines.as_str() == SHOWN_BY_LINES);
}

/// The rows event of a body, by its event type.
fn read_by_type<'a>(
    kind: RowsKind,
    body: &'a [u8],
    layout: &Layout<'a>,
) -> Result<RowsEvent<'a>, RowFault> {
    match (kind.version, kind.action) {
        (RowsVersion::One, RowsAction::Write) => RowsEvent::read(23, body, layout),
        (RowsVersion::One, RowsAction::Update) => RowsEvent::read(24, body, layout),
        (RowsVersion::One, RowsAction::Delete) => RowsEvent::read(25, body, layout),
        (RowsVersion::Two, RowsAction::Write) => RowsEvent::read(30, body, layout),
        (RowsVersion::Two, RowsAction::Update) => RowsEvent::read(31, body, layout),
        (RowsVersion::Two, RowsAction::Delete) => RowsEvent::read(32, body, layout),
    }
}

/// Whether no bytes are refused as updates.
fn refuses_no_bytes(layout: &Layout<'_>) -> bool {
    let older = RowsEvent::read(24, b"", layout).err();
    let newer = RowsEvent::read(31, b"", layout).err();
    older == Some(RowFault::BadBody) && newer == Some(RowFault::BadBody)
}

#[test]
fn reads_by_event_types(rt: HostRuntime) {
    for want in &WORKED {
        let layout = layout_in(&rt, want.map);
        let event = read_by_type(want.kind, want.body, &layout).expect(&rt, "an event");
        check_event(&rt, &event, want);
        assert!(rt; refuses_no_bytes(&layout));
    }
}

/// Whether this is read from the fixed part of the body.
fn is_head(read: Result<RowsHead, RowFault>, id: u64, ends: bool) -> bool {
    read.is_ok_and(|head| { head.table_id() == id && head.ends() == ends })
}

#[test]
fn reads_the_heads_of_rows_events(rt: HostRuntime) {
    for want in &WORKED {
        let read = RowsHead::read(want.kind.version, want.body);
        assert!(rt; is_head(read, want.id, want.ends), "{read:?}");
    }
}

/// Bodies that don't have their layout.
static BAD: [(RowsKind, &[u8], &[u8]); 24] = [
    // Version 1: seven bytes; eight, and no column count; no bitmap; one image of an update; columns counted as the extra
    // length of version 2 is.
    (WRITE_V1, ONE_LONG, b"\x01\0\0\0\0\0\0"),
    (WRITE_V1, ONE_LONG, b"\x01\0\0\0\0\0\0\0"),
    (DELETE_V1, ONE_LONG, b"\x01\0\0\0\0\0\0\0\x01"),
    (UPDATE_V1, ONE_LONG, b"\x01\0\0\0\0\0\0\0\x01\xFF\xFF\xFF"),
    (WRITE_V1, ONE_LONG, b"\x01\0\0\0\0\0\0\0\x02\0\x01\xFF\xFF"),
    // Nine bytes; ten, and no column count.
    (WRITE, ONE_LONG, b"\x01\0\0\0\0\0\0\0\x02"),
    (WRITE, ONE_LONG, b"\x01\0\0\0\0\0\0\0\x02\0"),
    // Extra lengths of 1, 0 and 65,535; extra bytes cut short.
    (WRITE, ONE_LONG, b"\x01\0\0\0\0\0\0\0\x01\0\x01\xFF"),
    (WRITE, ONE_LONG, b"\x01\0\0\0\0\0\0\0\0\0\x01\xFF"),
    (WRITE, ONE_LONG, b"\x01\0\0\0\0\0\0\0\xFF\xFF\x01\xFF"),
    (WRITE, ONE_LONG, b"\x01\0\0\0\0\0\0\0\x04\0\xAA"),
    // Column counts of 2 and 0, and such as spell no number.
    (WRITE, ONE_LONG, b"\x01\0\0\0\0\0\0\0\x02\0\x02\xFF"),
    (WRITE, ONE_LONG, b"\x01\0\0\0\0\0\0\0\x02\0\0\xFF"),
    (WRITE, ONE_LONG, b"\x01\0\0\0\0\0\0\0\x02\0\xFB\xFF"),
    (WRITE, ONE_LONG, b"\x01\0\0\0\0\0\0\0\x02\0\xFC\x01"),
    (WRITE, ONE_LONG, b"\x01\0\0\0\0\0\0\0\x02\0\xFE\xFF"),
    (WRITE, ONE_LONG, b"\x01\0\0\0\0\0\0\0\x02\0\xFF\xFF"),
    // No bitmap; no second bitmap; half of one.
    (DELETE, ONE_LONG, b"\x01\0\0\0\0\0\0\0\x02\0\x01"),
    (UPDATE, ONE_LONG, b"\x01\0\0\0\0\0\0\0\x02\0\x01\xFF"),
    (WRITE, NINE_TINIES, b"\x01\0\0\0\0\0\0\0\x02\0\x09\xFF"),
    // An image cut short; a byte behind the last image; one image, and three, of updates.
    (
        WRITE,
        ONE_LONG,
        b"\x01\0\0\0\0\0\0\0\x02\0\x01\xFF\xFE\x01\0\0",
    ),
    (
        DELETE,
        ONE_LONG,
        b"\x01\0\0\0\0\0\0\0\x02\0\x01\xFF\xFF\xFE",
    ),
    (
        UPDATE,
        ONE_LONG,
        b"\x01\0\0\0\0\0\0\0\x02\0\x01\xFF\xFF\xFF",
    ),
    (
        UPDATE,
        ONE_LONG,
        b"\x01\0\0\0\0\0\0\0\x02\0\x01\xFF\xFF\xFF\xFF\xFF",
    ),
];

/// Bodies with a column that isn't in the images, whatever follows.
static PARTIAL: [(RowsKind, &[u8], &[u8]); 6] = [
    (UPDATE_V1, ONE_LONG, b"\x01\0\0\0\0\0\0\0\x01\xFF\xFE"),
    (WRITE, ONE_LONG, b"\x01\0\0\0\0\0\0\0\x02\0\x01\xFE\xFE"),
    (
        UPDATE,
        ONE_LONG,
        b"\x01\0\0\0\0\0\0\0\x02\0\x01\xFE\xFF\xFF",
    ),
    (UPDATE, ONE_LONG, b"\x01\0\0\0\0\0\0\0\x02\0\x01\xFF\xFE"),
    (WRITE, NINE_TINIES, b"\x01\0\0\0\0\0\0\0\x02\0\x09\xFF\0"),
    (DELETE, NINE_TINIES, b"\x01\0\0\0\0\0\0\0\x02\0\x09\x7F\x01"),
];

#[test]
fn refuses_bad_bodies(rt: HostRuntime) {
    for (kind, map, body) in &BAD {
        let refused = event_of(&rt, *kind, map, body).err();
        assert!(rt; refused == Some(RowFault::BadBody), "at {body:?}");
    }
}

#[test]
fn refuses_partial_images(rt: HostRuntime) {
    for (kind, map, body) in &PARTIAL {
        let refused = event_of(&rt, *kind, map, body).err();
        assert!(rt; refused == Some(RowFault::PartialImage), "at {body:?}");
    }
}

/// No head is read.
fn check_no_head(rt: &impl Abort, version: RowsVersion, bytes: &[u8]) {
    let read = RowsHead::read(version, bytes);
    assert!(rt; read == Err(RowFault::BadBody), "{read:?}");
}

/// A head is read from a fixed part, and none from less.
fn check_fixed_part(rt: &impl Abort, version: RowsVersion, body: &[u8]) {
    let head = RowsHead::read(version, body);
    assert!(rt; is_head(head, 0x0605_0403_0201, true), "{head:?}");
    let (_, cut) = body.split_last().expect(rt, "a byte");
    check_no_head(rt, version, cut);
    check_no_head(rt, version, b"");
}

#[test]
fn reads_a_fixed_part_as_a_head(rt: HostRuntime) {
    check_fixed_part(&rt, RowsVersion::One, &[1, 2, 3, 4, 5, 6, 7, 8]);
    check_fixed_part(&rt, RowsVersion::Two, &[1, 2, 3, 4, 5, 6, 7, 8, 0, 0]);
}
