//! Logs that are larger than others of the tests.

use sample_logs::builder::{BEGIN, Images, Part, Rows, T, Table, XID, build, insert, map_of, put};
use std::alloc::AllocError;

/// A table of one LONGBLOB column. Its map has 37 bytes and its name.
fn texts(name: &[u8]) -> Part<'_> {
    Part::Map(Table {
        name,
        types: &[252],
        metadata: &[4],
        ..T
    })
}

/// The images of a row of such a table, which have 5 bytes more than its text. A rows event of it has 31 more than these.
fn text_of(rt: &impl AllocGlobal, len: u32) -> Result<Vec<u8>, AllocError> {
    let mut images = vec![in rt.alloc(); 0xFE]?;
    images.extend_from_slice(&len.to_le_bytes())?;
    images.resize(images.len().wrapping_add(len as usize), b'x')?;
    Ok(images)
}

/// A log of a transaction of one statement, which inserts as many rows as this by rows events of one row each, with a text of this
/// length. The log has 223 bytes, the table's name, and for each row 36 bytes and its text.
pub fn long_texts(
    rt: &impl AllocGlobal,
    name: &[u8],
    rows: usize,
    len: u32,
) -> Result<Vec<u8>, AllocError> {
    let mut log = build(rt, &[BEGIN, texts(name)])?;
    let images = text_of(rt, len)?;
    for _ in 1..rows {
        put_row(&mut log, 0, &images)?;
    }
    put_row(&mut log, 1, &images)?;
    put(&mut log, &XID)?;
    Ok(log)
}

/// Appends a rows event that inserts a row of such a table, with these flags.
fn put_row(log: &mut Vec<u8>, flags: u16, images: &[u8]) -> Result<(), AllocError> {
    let row = Part::Rows(Rows {
        kind: 30,
        id: 1,
        flags,
        extra: &[],
        count: 1,
        bitmaps: &[0xFF],
        images: Images::Bytes(images),
    });
    put(log, &row)
}

/// A log of as many transactions as this, each of which inserts a row into `d`.`t`. The log has 120 bytes, and for each 139.
pub fn many_transactions(rt: &impl AllocGlobal, number: usize) -> Result<Vec<u8>, AllocError> {
    let mut parts = Vec::new(rt.alloc());
    for _ in 0..number {
        for part in [BEGIN, map_of(1, b"t"), insert(1, &[5]), XID] {
            parts.push(part)?;
        }
    }
    build(rt, &parts)
}
