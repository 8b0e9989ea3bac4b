//! What runs write of large logs, in each mode.

use crate::short_reads::check_written;
use blog_flash::Mode;
use sample_logs::builder::{BEGIN, Part, XID, build, delete, insert, map_of, put};
use std::alloc::AllocError;
use std::process::Abort;
use std::test::Fail;

/// How many transactions a log has. Each changes one row, whose value is the transaction's number.
const TRANSACTIONS: u32 = 5_000;

/// The most bytes that a call of the reader gives.
const MOST: usize = 4_096;

/// The tables of a log: one of all transactions, or one of each, whose name is the digits of the transaction's number.
#[derive(Clone, Copy)]
enum Tables {
    One,
    Many,
}

impl Tables {
    fn name<'n>(self, digits: &'n [u8; 8]) -> &'n [u8] {
        match self {
            Tables::One => b"t",
            Tables::Many => digits,
        }
    }
}

/// The four bytes of a number in hexadecimal digits, the lowest byte first.
fn digits_of(number: u32) -> [u8; 8] {
    let [first, second, third, fourth] = number.to_le_bytes();
    [
        digit(first / 16),
        digit(first % 16),
        digit(second / 16),
        digit(second % 16),
        digit(third / 16),
        digit(third % 16),
        digit(fourth / 16),
        digit(fourth % 16),
    ]
}

/// The hexadecimal digit of a number below 16.
fn digit(number: u8) -> u8 {
    if number < 10 {
        number.wrapping_add(b'0')
    } else {
        number.wrapping_sub(10).wrapping_add(b'A')
    }
}

/// Appends a transaction of one rows event, in whose place stands the image of its row.
fn put_transaction(
    log: &mut Vec<u8>,
    tables: Tables,
    number: u32,
    rows: Part<'_>,
) -> Result<(), AllocError> {
    let [first, second, third, fourth] = number.to_le_bytes();
    let image = [0xFE, first, second, third, fourth];
    put(log, &BEGIN)?;
    put(log, &map_of(1, tables.name(&digits_of(number))))?;
    put(log, &rows.over(1, &[0xFF], &image))?;
    put(log, &XID)
}

/// The log that inserts the rows.
fn inserts(rt: &impl AllocGlobal, tables: Tables) -> Result<Vec<u8>, AllocError> {
    let mut log = build(rt, &[])?;
    for number in 0..TRANSACTIONS {
        put_transaction(&mut log, tables, number, insert(1, &[]))?;
    }
    Ok(log)
}

/// The log that deletes them, the last one first.
fn deletes(rt: &impl AllocGlobal, tables: Tables) -> Result<Vec<u8>, AllocError> {
    let mut log = build(rt, &[])?;
    for number in (0..TRANSACTIONS).rev() {
        put_transaction(&mut log, tables, number, delete(1, &[]))?;
    }
    Ok(log)
}

/// Appends texts one after the other.
fn put_texts(text: &mut Vec<u8>, parts: &[&[u8]]) -> Result<(), AllocError> {
    for part in parts {
        text.extend_from_slice(part)?;
    }
    Ok(())
}

/// The inserts as pseudo-SQL.
fn printed_inserts(rt: &impl AllocGlobal, tables: Tables) -> Result<Vec<u8>, AllocError> {
    let mut text = Vec::new(rt.alloc());
    for number in 0..TRANSACTIONS {
        let digits = digits_of(number);
        let parts: [&[u8]; 5] = [
            b"BEGIN\n### INSERT INTO `d`.`",
            tables.name(&digits),
            b"`\n### SET\n###   @1=X'",
            &digits,
            b"'\nCOMMIT\n",
        ];
        put_texts(&mut text, &parts)?;
    }
    Ok(text)
}

/// The deletes as pseudo-SQL.
fn printed_deletes(rt: &impl AllocGlobal, tables: Tables) -> Result<Vec<u8>, AllocError> {
    let mut text = Vec::new(rt.alloc());
    for number in (0..TRANSACTIONS).rev() {
        let digits = digits_of(number);
        let parts: [&[u8]; 5] = [
            b"BEGIN\n### DELETE FROM `d`.`",
            tables.name(&digits),
            b"`\n### WHERE\n###   @1=X'",
            &digits,
            b"'\nCOMMIT\n",
        ];
        put_texts(&mut text, &parts)?;
    }
    Ok(text)
}

/// The summary of the inserts into many tables.
fn counted_by_table(rt: &impl AllocGlobal) -> Result<Vec<u8>, AllocError> {
    let mut text = b"transactions 5000\nstatements 5000\n"
        .as_slice()
        .to_vec(rt.alloc())?;
    for number in 0..TRANSACTIONS {
        let digits = digits_of(number);
        let parts: [&[u8]; 3] = [b"`d`.`", &digits, b"` inserts 1 updates 0 deletes 0\n"];
        put_texts(&mut text, &parts)?;
    }
    Ok(text)
}

/// Runs of a log of so many bytes write what its tables ask for.
fn check_runs<R: AllocGlobal + Abort>(
    rt: &R,
    tables: Tables,
    len: usize,
    summary: &[u8],
) -> Result<(), Fail> {
    let log = inserts(rt, tables)?;
    assert!(rt; log.len() == len);
    check_written(rt, &log, MOST, Mode::Flashback, &deletes(rt, tables)?);
    check_written(rt, &log, MOST, Mode::Forward, &log);
    let text = printed_deletes(rt, tables)?;
    check_written(rt, &log, MOST, Mode::FlashbackSql, &text);
    let text = printed_inserts(rt, tables)?;
    check_written(rt, &log, MOST, Mode::ForwardSql, &text);
    check_written(rt, &log, MOST, Mode::Summary, summary);
    Ok(())
}

#[test]
fn runs_write_each_of_five_thousand_transactions(rt: HostRuntime) -> Result<(), Fail> {
    let summary = b"transactions 5000\nstatements 5000\n`d`.`t` inserts 5000 updates 0 deletes 0\n";
    check_runs(&rt, Tables::One, 695_120, summary)
}

#[test]
fn runs_write_each_of_five_thousand_tables(rt: HostRuntime) -> Result<(), Fail> {
    let summary = counted_by_table(&rt)?;
    check_runs(&rt, Tables::Many, 730_120, &summary)
}
