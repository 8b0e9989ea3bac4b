//! Logs of these tests, what is wanted of them, and the reason as text.

use blog_choice::{TableChoice, TableName};
use blog_event::Log;
use blog_reasons::{Reason, Reasons};
use blog_request::Wanted;
use sample_logs::builder::{BEGIN, Part, XID, build, insert, put, set_bytes};
use std::alloc::{AllocError, Allocator};
use std::process::Abort;
use std::test::Fail;

/// What is wanted of all positions, times, threads and global transaction ids.
pub fn of_choice<'w>(choice: TableChoice<'w>) -> Wanted<'w> {
    Wanted {
        start: None,
        stop: None,
        from_time: None,
        to_time: None,
        threads: &[],
        gtids: &[],
        choice,
    }
}

/// Units of these tables, without others.
pub fn of_tables_but<'w>(tables: &'w [TableName<'w>], excluded: &'w [TableName<'w>]) -> Wanted<'w> {
    of_choice(TableChoice {
        database: None,
        tables,
        excluded,
    })
}

/// Units of these tables.
pub fn of_tables<'w>(tables: &'w [TableName<'w>]) -> Wanted<'w> {
    of_tables_but(tables, &[])
}

/// Units of these tables, of these threads, from a time on.
pub fn of_all<'w>(
    tables: &'w [TableName<'w>],
    threads: &'w [u32],
    from_time: Option<u32>,
) -> Wanted<'w> {
    Wanted {
        start: None,
        stop: None,
        from_time,
        to_time: None,
        threads,
        gtids: &[],
        choice: TableChoice {
            database: None,
            tables,
            excluded: &[],
        },
    }
}

/// Units of these times.
pub fn of_times(from_time: Option<u32>, to_time: Option<u32>) -> Wanted<'static> {
    Wanted {
        start: None,
        stop: None,
        from_time,
        to_time,
        threads: &[],
        gtids: &[],
        choice: TableChoice {
            database: None,
            tables: &[],
            excluded: &[],
        },
    }
}

/// The length of a transaction of `transactions`, in bytes.
pub const TRANSACTION: u32 = 139;

/// Where the first of them starts.
pub const FIRST: u32 = 120;

/// A log of as many transactions as times, each of which inserts a row into the table `t` of the schema `d`.
pub fn transactions(rt: &impl AllocGlobal, times: &[u32]) -> Result<Vec<u8>, Fail> {
    let mut log = build(rt, &[])?;
    for time in times {
        let start = log.len();
        for part in [
            BEGIN,
            Part::Map(sample_logs::builder::T),
            insert(1, &[5]),
            XID,
        ] {
            put(&mut log, &part)?;
        }
        for (n, byte) in time.to_le_bytes().into_iter().enumerate() {
            set_bytes(&mut log, &[(start.wrapping_add(n), byte)])?;
        }
    }
    Ok(log)
}

/// Appends a name as a table map has it: its length, its bytes and a zero byte.
fn put_name(body: &mut Vec<u8>, name: &[u8]) -> Result<(), AllocError> {
    let [len, ..] = name.len().to_le_bytes();
    body.push(len)?;
    body.extend_from_slice(name)?;
    body.push(0)?;
    Ok(())
}

/// Appends a map of a table of one LONG column.
fn put_map(log: &mut Vec<u8>, schema: &[u8], table: &[u8]) -> Result<(), AllocError> {
    let mut body = Vec::new(*log.allocator());
    body.extend_from_slice(&[1, 0, 0, 0, 0, 0, 1, 0])?;
    put_name(&mut body, schema)?;
    put_name(&mut body, table)?;
    body.extend_from_slice(&[1, 3, 0, 1])?;
    let map = Part::Other {
        kind: 19,
        flags: 0,
        body: &body,
    };
    put(log, &map)
}

/// A log with a table map of each of these tables, by schema and name.
pub fn maps(rt: &impl AllocGlobal, tables: &[(&[u8], &[u8])]) -> Result<Vec<u8>, AllocError> {
    let mut log = build(rt, &[BEGIN])?;
    for table in tables {
        put_map(&mut log, table.0, table.1)?;
    }
    put(&mut log, &XID)?;
    Ok(log)
}

/// A reason as text.
pub fn text_of<A: Allocator>(
    rt: &impl AllocGlobal,
    reason: &Reason<'_, A>,
) -> Result<String, Fail> {
    match reason {
        Reason::NoUnit => Ok(format!(in rt.alloc(); "no unit")?),
        Reason::NoTime { first, last } => Ok(format!(in rt.alloc(); "no time: {first} {last}")?),
        Reason::NoTable { near } => {
            let mut text = format!(in rt.alloc(); "no table:")?;
            for table in *near {
                let schema = String::from_utf8_lossy(rt.alloc(), table.schema())?;
                let name = String::from_utf8_lossy(rt.alloc(), table.table())?;
                text.push(' ')?;
                text.push_str(&schema)?;
                text.push('.')?;
                text.push_str(&name)?;
            }
            Ok(text)
        }
        Reason::Other => Ok(format!(in rt.alloc(); "other")?),
    }
}

/// Checks why nothing is wanted of logs, of all positions.
pub fn check(
    rt: &(impl AllocGlobal + Abort),
    logs: &[&[u8]],
    wanted: &Wanted<'_>,
    expected: &str,
) -> Result<(), Fail> {
    let mut reasons = Reasons::new(rt.alloc(), wanted)?;
    for bytes in logs {
        reasons.look(&Log::open(bytes)?, None, None)?;
    }
    let text = text_of(rt, &reasons.reason())?;
    assert!(rt; text.as_str() == expected);
    Ok(())
}
