//! Logs that are made of words, an event each.

use crate::wrong::Wrong;
use sample_logs::builder::{
    BEGIN, COMMIT, Part, T, Table, XID, delete, front, insert, old_front, put, update,
};

/// A log of the events that these words mean.
pub(crate) fn log_of(rt: &HostRuntime, words: &[&str]) -> Result<Vec<u8>, Wrong> {
    let (front, words) = match words {
        ["server:5.5", words @ ..] => (old_front(), words),
        _ => (front(), words),
    };
    let mut log = front.to_vec(rt.alloc())?;
    for word in words {
        put_word(rt, &mut log, word)?;
    }
    Ok(log)
}

/// Appends an event.
fn put_word(rt: &HostRuntime, log: &mut Vec<u8>, word: &str) -> Result<(), Wrong> {
    let (name, rest) = word.split_once(':').unwrap_or((word, ""));
    match name {
        "begin" => put(log, &BEGIN)?,
        "commit" => put(log, &COMMIT)?,
        "xid" => put(log, &XID)?,
        "map" => put_map(rt, log, rest)?,
        "insert" | "delete" | "update" => put_rows(rt, log, name, rest)?,
        "gtid" => put_gtid(log, rest)?,
        "rotate" => put_rotate(rt, log, rest)?,
        "other" => put_other(rt, log, rest)?,
        "event" => put_event(rt, log, rest)?,
        "query" => put_query(rt, log, rest)?,
        _ => return Err(Wrong::Line(String::from_str(rt.alloc(), word)?)),
    }
    Ok(())
}

/// The bytes of a text, in which `\xHH` is the byte of these two digits.
pub(crate) fn bytes_of(rt: &HostRuntime, text: &str) -> Result<Vec<u8>, Wrong> {
    let mut parts = text.split("\\x");
    let first = parts.next().unwrap_or("");
    let mut bytes = first.as_bytes().to_vec(rt.alloc())?;
    for part in parts {
        let digits = part.get(..2).ok_or(Wrong::Change)?;
        bytes.push(u8::from_str_radix(digits, 16)?)?;
        bytes.extend_from_slice(part.get(2..).unwrap_or("").as_bytes())?;
    }
    Ok(bytes)
}

/// Appends a Query event.
fn put_query(rt: &HostRuntime, log: &mut Vec<u8>, text: &str) -> Result<(), Wrong> {
    let text = bytes_of(rt, text)?;
    let query = Part::Query {
        status: &[],
        text: &text,
    };
    put(log, &query)?;
    Ok(())
}

/// Appends a table map, of `ID:NAME`, and behind these `/N` of a table of so many columns.
fn put_map(rt: &HostRuntime, log: &mut Vec<u8>, rest: &str) -> Result<(), Wrong> {
    let (id, rest) = rest.split_once(':').ok_or(Wrong::Change)?;
    let (name, columns) = rest.split_once('/').unwrap_or((rest, "1"));
    let id = id.parse::<u32>()?;
    let types = types_of(columns)?;
    let name = bytes_of(rt, name)?;
    put(log, &map_of(id, &name, types))?;
    Ok(())
}

/// A map of a table with columns of these types.
fn map_of<'p>(id: u32, name: &'p [u8], types: &'static [u8]) -> Part<'p> {
    Part::Map(Table {
        id,
        name,
        types,
        ..T
    })
}

/// The types of so many columns of integers, up to 3.
fn types_of(columns: &str) -> Result<&'static [u8], Wrong> {
    match columns {
        "1" => Ok(&[3]),
        "2" => Ok(&[3, 3]),
        "3" => Ok(&[3, 3, 3]),
        _ => Err(Wrong::Change),
    }
}

/// Appends a rows event, of `ID:ROW,ROW..`, and behind these `+old` of version 1 and `+open` if more follow in its statement.
fn put_rows(rt: &HostRuntime, log: &mut Vec<u8>, name: &str, rest: &str) -> Result<(), Wrong> {
    let (rest, is_open) = without(rest, "+open");
    let (rest, is_old) = without(rest, "+old");
    let (id, rows) = rest.split_once(':').ok_or(Wrong::Change)?;
    let id = id.parse::<u32>()?;
    let columns = columns_of(rows)?;
    let images = images_of(rt, columns, rows)?;
    let part = match name {
        "insert" => insert(id, &[]).over(columns, &[0xFF], &images),
        "delete" => delete(id, &[]).over(columns, &[0xFF], &images),
        _ => update(id, &[]).over(columns, &[0xFF, 0xFF], &images),
    };
    let part = if is_old { part.old() } else { part };
    put(log, &if is_open { part.open() } else { part })?;
    Ok(())
}

/// How many columns the first of some rows has.
fn columns_of(rows: &str) -> Result<u8, Wrong> {
    let row = rows.split(',').next().unwrap_or("");
    Ok(u8::try_from(row.split('/').count())?)
}

/// The images of rows, of which none has a NULL. In those of one column the bits that belong to no column are set.
fn images_of(rt: &HostRuntime, columns: u8, rows: &str) -> Result<Vec<u8>, Wrong> {
    let nulls = if columns == 1 { 0xFE } else { 0 };
    let mut images = Vec::new(rt.alloc());
    for row in rows.split_terminator(',') {
        images.push(nulls)?;
        put_values(&mut images, row)?;
    }
    Ok(images)
}

/// Appends the integers of a row, of `VALUE/VALUE..`.
fn put_values(images: &mut Vec<u8>, row: &str) -> Result<(), Wrong> {
    for text in row.split('/') {
        images.extend_from_slice(&[text.parse::<u8>()?, 0, 0, 0])?;
    }
    Ok(())
}

/// A text without what it ends in, and whether it does.
fn without<'a>(text: &'a str, end: &str) -> (&'a str, bool) {
    match text.strip_suffix(end) {
        Some(text) => (text, true),
        None => (text, false),
    }
}

/// Appends an event of any type, of `KIND:FLAGS:BODY`.
fn put_event(rt: &HostRuntime, log: &mut Vec<u8>, rest: &str) -> Result<(), Wrong> {
    let (kind, rest) = rest.split_once(':').ok_or(Wrong::Change)?;
    let (flags, body) = rest.split_once(':').ok_or(Wrong::Change)?;
    let body = bytes_of(rt, body)?;
    let part = Part::Other {
        kind: kind.parse::<u8>()?,
        flags: flags.parse::<u16>()?,
        body: &body,
    };
    put(log, &part)?;
    Ok(())
}

/// Appends a Gtid event of server 0: a byte of flags, the server's id, and the number.
fn put_gtid(log: &mut Vec<u8>, rest: &str) -> Result<(), Wrong> {
    let mut body = [0; 25];
    body[17] = rest.parse::<u8>()?;
    let part = Part::Other {
        kind: 33,
        flags: 0,
        body: &body,
    };
    put(log, &part)?;
    Ok(())
}

/// Appends a Rotate event: a position of eight bytes, and a name.
fn put_rotate(rt: &HostRuntime, log: &mut Vec<u8>, name: &str) -> Result<(), Wrong> {
    let mut body = [4, 0, 0, 0, 0, 0, 0, 0].to_vec(rt.alloc())?;
    body.extend_from_slice(&bytes_of(rt, name)?)?;
    let part = Part::Other {
        kind: 4,
        flags: 0,
        body: &body,
    };
    put(log, &part)?;
    Ok(())
}

/// Appends an event of any type, of `KIND:LENGTH`, with a body of so many zeroes.
fn put_other(rt: &HostRuntime, log: &mut Vec<u8>, rest: &str) -> Result<(), Wrong> {
    let (kind, len) = rest.split_once(':').ok_or(Wrong::Change)?;
    let mut body = Vec::new(rt.alloc());
    body.resize(usize::from(len.parse::<u8>()?), 0)?;
    let part = Part::Other {
        kind: kind.parse::<u8>()?,
        flags: 0,
        body: &body,
    };
    put(log, &part)?;
    Ok(())
}
