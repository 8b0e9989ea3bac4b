//! A log with rows of one table, and what is shown of it.

use blog_choice::TableChoice;
use blog_event::Log;
use blog_show::{LastMap, LineRoom, RowForm, RowStyle, put_unit};
use blog_source::{Reading, Source};
use blog_units::Units;
use jiff::tz::TimeZone;
use sample_logs::builder::{BEGIN, Part, XID, build, insert, update};
use std::alloc::{AllocError, Allocator};
use std::test::Fail;

/// The map of the table `t` in the schema `d`.
#[rattlefmt::skip]
const MAP: [u8; 60] = [
    // table id, flags, names
    1, 0, 0, 0, 0, 0, 1, 0, 1, b'd', 0, 1, b't', 0,
    // INT, VARCHAR(50), DECIMAL(10, 2), ENUM, BIT(4); all but the first can be NULL
    5, 3, 15, 246, 254, 16, 8, 200, 0, 10, 2, 247, 1, 4, 0, 0x1E,
    // signs, a collation of utf8mb4, names of columns, texts of the ENUM
    1, 1, 0,
    2, 3, 0xFC, 255, 0,
    4, 11, 2, b'i', b'd', 1, b'n', 1, b'p', 1, b'e', 1, b'b',
    6, 7, 2, 1, b'x', 3, b'y', b'"', b'z',
];

/// 7, `a"b,c`, 63.48, the second text and 0101; then 8 and NULLs.
#[rattlefmt::skip]
const INSERTED: [u8; 23] = [
    0xE0, 7, 0, 0, 0, 5, b'a', b'"', b'b', b',', b'c', 0x80, 0, 0, 0x3F, 0x30, 2, 5,
    0xFE, 8, 0, 0, 0,
];

/// The first of these rows, and the same with an empty text.
#[rattlefmt::skip]
const UPDATED: [u8; 31] = [
    0xE0, 7, 0, 0, 0, 5, b'a', b'"', b'b', b',', b'c', 0x80, 0, 0, 0x3F, 0x30, 2, 5,
    0xE0, 7, 0, 0, 0, 0, 0x80, 0, 0, 0x3F, 0x30, 2, 5,
];

/// A log of a transaction that inserts two rows at 238, and updates one at 371.
pub(crate) fn orders(rt: &impl AllocGlobal) -> Result<Vec<u8>, AllocError> {
    let map = Part::Other {
        kind: 19,
        flags: 0,
        body: &MAP,
    };
    build(
        rt,
        &[
            BEGIN,
            map,
            insert(1, &[]).over(5, &[0xFF], &INSERTED),
            map,
            update(1, &[]).over(5, &[0xFF, 0xFF], &UPDATED),
            XID,
        ],
    )
}

/// What is shown of the log in a form.
pub(crate) fn shown<A: Allocator + Copy>(
    rt: &impl AllocGlobal,
    alloc: A,
    form: RowForm<'_>,
) -> Result<Result<Vec<u8, A>, AllocError>, Fail> {
    let source = Source::open(orders(rt)?, Reading::ALL)
        .ok()
        .ok_or("a source")?;
    let log = Log::open(source.bytes()).ok().ok_or("a log")?;
    let style = RowStyle {
        zone: TimeZone::UTC,
        form,
        all_columns: false,
        width: 60,
    };
    let choice = TableChoice {
        database: None,
        tables: &[],
        excluded: &[],
    };
    let mut out = Vec::new(alloc);
    let mut room = LineRoom::new(alloc);
    let mut map = LastMap::none(alloc);
    for unit in Units::new(&log) {
        let judged = unit.with_groups(rt.alloc());
        let index = match &judged.groups {
            Ok(index) => index,
            Err(_) => return Err("a refused unit".into()),
        };
        if let Err(error) = put_unit(
            alloc, &mut out, &mut room, &mut map, &source, index, &choice, &style,
        ) {
            return Ok(Err(error));
        }
    }
    Ok(Ok(out))
}
