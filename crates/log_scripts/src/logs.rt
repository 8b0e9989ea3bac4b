//! The logs that scripts name.

use crate::LogProgram;
use sample_logs::builder::{BEGIN, Part, T, Table, XID, build, delete, front, insert};
use sample_logs::logs::{
    NINE_COLUMNS, NINE_COLUMNS_ROWS, extra_bytes, longer_format, map_twice, newer_server,
    nine_columns, three_inserts, two_tables, two_transactions,
};
use sample_logs::samples::{ALTER_BETWEEN, INSERT, MULTI_TABLE, SAVEPOINT_KEPT, UPDATE};
use sample_logs::small::{INSERT_ONE_ROW, OLD_SERVER};
use sample_logs::undone::{
    newer_server_copied, newer_server_undone, three_inserts_copied, three_inserts_undone,
    two_tables_undone, two_transactions_copied, two_transactions_undone,
};
use std::alloc::AllocError;
use std::process::ExitCode;
use transcripts::{Named, play_files};

/// A log with this name in scripts.
fn named<'a>(name: &'a str, bytes: &'a [u8]) -> Named<'a> {
    Named { name, bytes }
}

/// Plays the scripts, which can name these logs.
pub fn play(rt: &HostRuntime, calls: &LogProgram) -> Result<ExitCode, AllocError> {
    let two_transactions = two_transactions(rt)?;
    let two_transactions_undone = two_transactions_undone(rt)?;
    let two_transactions_copied = two_transactions_copied(rt)?;
    let two_tables = two_tables(rt)?;
    let two_tables_undone = two_tables_undone(rt)?;
    let three_inserts = three_inserts(rt)?;
    let three_inserts_undone = three_inserts_undone(rt)?;
    let three_inserts_copied = three_inserts_copied(rt)?;
    let newer_server = newer_server(rt)?;
    let newer_server_undone = newer_server_undone(rt)?;
    let newer_server_copied = newer_server_copied(rt)?;
    let longer_format = longer_format(rt)?;
    let extra_bytes = extra_bytes(rt)?;
    let map_twice = map_twice(rt)?;
    let nine_columns = nine_columns(rt)?;
    let nine_columns_undone = nine_columns_undone(rt)?;
    let null_inserted = with_null(rt, b"t", insert(1, &[]))?;
    let null_deleted = with_null(rt, b"t", delete(1, &[]))?;
    let null_deleted_of_name = with_null(rt, b"a`b", delete(1, &[]))?;
    let logs = [
        named("two_transactions", &two_transactions),
        named("two_transactions_undone", &two_transactions_undone),
        named("two_transactions_copied", &two_transactions_copied),
        named("two_tables", &two_tables),
        named("two_tables_undone", &two_tables_undone),
        named("three_inserts", &three_inserts),
        named("three_inserts_undone", &three_inserts_undone),
        named("three_inserts_copied", &three_inserts_copied),
        named("newer_server", &newer_server),
        named("newer_server_undone", &newer_server_undone),
        named("newer_server_copied", &newer_server_copied),
        named("longer_format", &longer_format),
        named("extra_bytes", &extra_bytes),
        named("map_twice", &map_twice),
        named("nine_columns", &nine_columns),
        named("nine_columns_undone", &nine_columns_undone),
        named("null_inserted", &null_inserted),
        named("null_deleted", &null_deleted),
        named("null_deleted_of_name", &null_deleted_of_name),
        named("INSERT", &INSERT),
        named("UPDATE", &UPDATE),
        named("MULTI_TABLE", &MULTI_TABLE),
        named("SAVEPOINT_KEPT", &SAVEPOINT_KEPT),
        named("ALTER_BETWEEN", &ALTER_BETWEEN),
        named("INSERT_ONE_ROW", &INSERT_ONE_ROW),
        named("OLD_SERVER", &OLD_SERVER),
        named("front", front()),
    ];
    Ok(play_files(rt, calls, &[], logs.as_slice()))
}

/// What undoes `nine_columns`: the rows change places with their free null bits.
fn nine_columns_undone(rt: &impl AllocGlobal) -> Result<Vec<u8>, AllocError> {
    let (first, second) = NINE_COLUMNS_ROWS.split_at(34);
    let mut images = second.to_vec(rt.alloc())?;
    images.extend_from_slice(first)?;
    let rows = delete(1, &[]).over(9, &[0xFF, 1], &images);
    build(rt, &[BEGIN, Part::Map(NINE_COLUMNS), rows, XID])
}

/// A log with a row of the values 5 and NULL of a table of this name, in this rows event.
fn with_null<'l>(
    rt: &impl AllocGlobal,
    name: &'l [u8],
    rows: Part<'l>,
) -> Result<Vec<u8>, AllocError> {
    let two_columns = Table {
        types: &[3, 3],
        nullable: &[3],
        name,
        ..T
    };
    let rows = rows.over(2, &[0xFF], &[0xFE, 5, 0, 0, 0]);
    build(rt, &[BEGIN, Part::Map(two_columns), rows, XID])
}
