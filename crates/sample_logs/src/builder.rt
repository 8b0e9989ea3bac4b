//! Logs built event by event. Sizes and log positions are computed here, apart from the code that is tested.

ghost use Rattle.std.specs.Prelude.{◌≡◌, length};

use crate::small::{INSERT_ONE_ROW, OLD_SERVER};
use std::alloc::{AllocError, Global};
use std::test::Fail;

/// The magic number, and the format description of a server of version `5.6.51`.
pub fn front() -> &'static [u8]
    ensures { length result.now ≡ 120 }
{
    &INSERT_ONE_ROW[..120]
}

/// The same of a server of version `8.0.36`, which has six more types of events.
#[rattlefmt::skip]
pub static NEWER_FRONT: [u8; 126] = [
    // 0: the magic
    0xFE, 0x62, 0x69, 0x6E,
    // 4: header
    0x00, 0x00, 0x00, 0x00, 0x0F, 0x01, 0x00, 0x00, 0x00, 0x7A, 0x00, 0x00, 0x00, 0x7E, 0x00, 0x00,
    0x00, 0x00, 0x00,
    // 23: binlog version, server version, creation time, header length
    0x04, 0x00, 0x38, 0x2E, 0x30, 0x2E, 0x33, 0x36, 0x00, 0x00, 0x00, 0x00, 0x00, 0x00, 0x00, 0x00,
    0x00, 0x00, 0x00, 0x00, 0x00, 0x00, 0x00, 0x00, 0x00, 0x00, 0x00, 0x00, 0x00, 0x00, 0x00, 0x00,
    0x00, 0x00, 0x00, 0x00, 0x00, 0x00, 0x00, 0x00, 0x00, 0x00, 0x00, 0x00, 0x00, 0x00, 0x00, 0x00,
    0x00, 0x00, 0x00, 0x00, 0x00, 0x00, 0x00, 0x00, 0x13,
    // 80: post-header lengths, from type 1 on
    0x38, 0x0D, 0x00, 0x08, 0x00, 0x12, 0x00, 0x04, 0x04, 0x04, 0x04, 0x12, 0x00, 0x00, 0x5C, 0x00,
    0x04, 0x1A, 0x08, 0x00, 0x00, 0x00, 0x08, 0x08, 0x08, 0x02, 0x00, 0x00, 0x00, 0x0A, 0x0A, 0x0A,
    0x19, 0x19, 0x00, 0x00, 0x00, 0x00, 0x00, 0x00, 0x00,
    // 121: checksum algorithm, checksum
    0x00, 0x00, 0x00, 0x00, 0x00,
];

/// The same of a server of version `5.5.62`, which writes rows events of version 1: 27 types of events, and neither a
/// checksum algorithm nor a checksum.
pub fn old_front() -> &'static [u8]
    ensures { length result.now ≡ 107 }
{
    &OLD_SERVER[..107]
}

/// The length of an event's header.
const HEADER_LEN: usize = 19;

/// A table as its maps tell it. Its schema is `d`.
#[derive(Clone, Copy)]
pub struct Table<'p> {
    pub id: u32,
    pub name: &'p [u8],
    pub types: &'p [u8],
    pub metadata: &'p [u8],
    pub nullable: &'p [u8],
}

/// The table `t`, id 1, of one LONG column.
pub const T: Table<'static> = Table {
    id: 1,
    name: b"t",
    types: &[3],
    metadata: &[],
    nullable: &[1],
};

/// The images of the rows of a rows event.
#[derive(Clone, Copy)]
pub enum Images<'p> {
    /// Rows of one LONG column with these values.
    Longs(&'p [u8]),
    /// All images, one after the other.
    Bytes(&'p [u8]),
}

/// A rows event.
#[derive(Clone, Copy)]
pub struct Rows<'p> {
    pub kind: u8,
    pub id: u32,
    pub flags: u16,
    pub extra: &'p [u8],
    pub count: u8,
    pub bitmaps: &'p [u8],
    pub images: Images<'p>,
}

/// An event of a log that is to be built.
#[derive(Clone, Copy)]
pub enum Part<'p> {
    /// A query in the schema `d`: its status bytes and its text.
    Query {
        status: &'p [u8],
        text: &'p [u8],
    },
    /// A table map.
    Map(Table<'p>),
    /// A rows event, of version 2 unless it is made one of version 1.
    Rows(Rows<'p>),
    /// An event of any type, with its header's flags and its body.
    Other {
        kind: u8,
        flags: u16,
        body: &'p [u8],
    },
}

pub const BEGIN: Part<'static> = Part::Query {
    status: &[],
    text: b"BEGIN",
};

pub const COMMIT: Part<'static> = Part::Query {
    status: &[],
    text: b"COMMIT",
};

pub const DROP_TABLE: Part<'static> = Part::Query {
    status: &[],
    text: b"DROP TABLE t",
};

pub const XID: Part<'static> = Part::Other {
    kind: 16,
    flags: 0,
    body: &[7, 0, 0, 0, 0, 0, 0, 0],
};

pub const ROTATE: Part<'static> = Part::Other {
    kind: 4,
    flags: 0,
    body: &[0; 16],
};

pub const ROWS_QUERY: Part<'static> = Part::Other {
    kind: 29,
    flags: 0,
    body: &[0; 7],
};

pub const GTID: Part<'static> = Part::Other {
    kind: 33,
    flags: 0,
    body: &[0; 25],
};

pub const ANONYMOUS_GTID: Part<'static> = Part::Other {
    kind: 34,
    flags: 0,
    body: &[0; 25],
};

pub const PREVIOUS_GTIDS: Part<'static> = Part::Other {
    kind: 35,
    flags: 0,
    body: &[0; 8],
};

/// A map of a table of one LONG column.
pub fn map_of(id: u32, name: &[u8]) -> Part<'_> {
    Part::Map(Table { id, name, ..T })
}

/// The last rows event of a statement, over one LONG column.
fn rows_of_longs<'p>(kind: u8, id: u32, bitmaps: &'p [u8], values: &'p [u8]) -> Part<'p> {
    Part::Rows(Rows {
        kind,
        id,
        flags: 1,
        extra: &[],
        count: 1,
        bitmaps,
        images: Images::Longs(values),
    })
}

/// The last rows event of a statement: it inserts rows of one LONG column.
pub fn insert(id: u32, values: &[u8]) -> Part<'_> {
    rows_of_longs(30, id, &[0xFF], values)
}

/// The last rows event of a statement: it deletes rows of one LONG column.
pub fn delete(id: u32, values: &[u8]) -> Part<'_> {
    rows_of_longs(32, id, &[0xFF], values)
}

/// The last rows event of a statement: it changes rows of one LONG column, whose values before and after stand in turn.
pub fn update(id: u32, values: &[u8]) -> Part<'_> {
    rows_of_longs(31, id, &[0xFF, 0xFF], values)
}

impl<'p> Part<'p> {
    /// The same rows event, which isn't the last of its statement.
    pub fn open(self) -> Part<'p> {
        match self {
            Part::Rows(rows) => Part::Rows(Rows { flags: 0, ..rows }),
            other => other,
        }
    }

    /// The same rows event, of version 1.
    pub fn old(self) -> Part<'p> {
        match self {
            Part::Rows(rows) => Part::Rows(Rows {
                kind: rows.kind.wrapping_sub(7),
                ..rows
            }),
            other => other,
        }
    }

    /// The same rows event with these extra bytes.
    pub fn with_extra(self, extra: &'p [u8]) -> Part<'p> {
        match self {
            Part::Rows(rows) => Part::Rows(Rows { extra, ..rows }),
            other => other,
        }
    }

    /// The same rows event over as many columns, with this bitmap of the columns present and these images.
    pub fn over(self, count: u8, bitmaps: &'p [u8], images: &'p [u8]) -> Part<'p> {
        match self {
            Part::Rows(rows) => Part::Rows(Rows {
                count,
                bitmaps,
                images: Images::Bytes(images),
                ..rows
            }),
            other => other,
        }
    }
}

/// A log of these events.
pub fn build(rt: &impl AllocGlobal, parts: &[Part<'_>]) -> Result<Vec<u8>, AllocError> {
    build_after(rt, front(), parts)
}

/// A log of these events behind a magic number and a format description.
pub fn build_after(
    rt: &impl AllocGlobal,
    front: &[u8],
    parts: &[Part<'_>],
) -> Result<Vec<u8>, AllocError> {
    let mut log = front.to_vec(rt.alloc())?;
    for part in parts {
        put(&mut log, part)?;
    }
    Ok(log)
}

/// Appends an event.
pub fn put(log: &mut Vec<u8>, part: &Part<'_>) -> Result<(), AllocError> {
    match *part {
        Part::Query { status, text } => {
            let numbers = [0, 0, 0, 0, 0, 0, 0, 0, 1, 0, 0, low_byte(status), 0];
            put_event(log, 2, 0, &[numbers.as_slice(), status, b"d\0", text])
        }
        Part::Map(table) => put_map(log, &table),
        Part::Rows(rows) => put_rows(log, &rows),
        Part::Other { kind, flags, body } => put_event(log, kind, flags, &[body]),
    }
}

fn put_map(log: &mut Vec<u8>, table: &Table<'_>) -> Result<(), AllocError> {
    let id = table.id.to_le_bytes();
    let schema = [0, 0, 1, 0, 1, b'd', 0, low_byte(table.name)];
    let columns = [0, low_byte(table.types)];
    let metadata_len = [low_byte(table.metadata)];
    let body = [
        &id,
        schema.as_slice(),
        table.name,
        &columns,
        table.types,
        &metadata_len,
        table.metadata,
        table.nullable,
    ];
    put_event(log, 19, 0, &body)
}

fn put_rows(log: &mut Vec<u8>, rows: &Rows<'_>) -> Result<(), AllocError> {
    match rows.images {
        Images::Longs(values) => {
            let images = images_of_longs(*log.allocator(), values)?;
            put_rows_with(log, rows, &images)
        }
        Images::Bytes(images) => put_rows_with(log, rows, images),
    }
}

/// Appends a rows event with these images in the place of its own.
fn put_rows_with(log: &mut Vec<u8>, rows: &Rows<'_>, images: &[u8]) -> Result<(), AllocError> {
    let id = rows.id.to_le_bytes();
    let [low, high] = rows.flags.to_le_bytes();
    let extra_len = low_byte(rows.extra).wrapping_add(2);
    let numbers = [0, 0, low, high, extra_len, 0];
    // Version 1 has no extra length.
    let fixed = if rows.kind < 30 { 4 } else { 6 };
    let count = [rows.count];
    let body = [
        &id,
        &numbers[..fixed],
        rows.extra,
        &count,
        rows.bitmaps,
        images,
    ];
    put_event(log, rows.kind, 0, &body)
}

fn images_of_longs(alloc: Global, values: &[u8]) -> Result<Vec<u8>, AllocError> {
    let mut bytes = Vec::new(alloc);
    for value in values {
        bytes.extend_from_slice(&[0xFE, *value, 0, 0, 0])?;
    }
    Ok(bytes)
}

/// Appends an event of server 1 and time 0, whose body is the joined parts.
fn put_event(log: &mut Vec<u8>, kind: u8, flags: u16, body: &[&[u8]]) -> Result<(), AllocError> {
    let size = body
        .iter()
        .fold(HEADER_LEN, |size, part| size.wrapping_add(part.len()));
    let end = log.len().wrapping_add(size);
    log.extend_from_slice(&[0, 0, 0, 0, kind, 1, 0, 0, 0])?;
    log.extend_from_slice(&four_bytes(size))?;
    log.extend_from_slice(&four_bytes(end))?;
    log.extend_from_slice(&flags.to_le_bytes())?;
    for part in body {
        log.extend_from_slice(part)?;
    }
    Ok(())
}

/// A length in one byte.
fn low_byte(bytes: &[u8]) -> u8 {
    let [low, ..] = bytes.len().to_le_bytes();
    low
}

/// A number in four bytes, the lowest first.
fn four_bytes(number: usize) -> [u8; 4] {
    let [first, second, third, fourth, ..] = number.to_le_bytes();
    [first, second, third, fourth]
}

/// Sets some bytes to others: each pair is a position and a byte.
pub fn set_bytes(bytes: &mut [u8], edits: &[(usize, u8)]) -> Result<(), Fail> {
    for (at, byte) in edits {
        *bytes.get_mut(*at).ok_or("an edit past the end")? = *byte;
    }
    Ok(())
}

/// A log with some of its bytes set to others.
pub fn with_bytes(
    rt: &impl AllocGlobal,
    log: &[u8],
    edits: &[(usize, u8)],
) -> Result<Vec<u8>, Fail> {
    let mut log = log.to_vec(rt.alloc())?;
    set_bytes(&mut log, edits)?;
    Ok(log)
}
