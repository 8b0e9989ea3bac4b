//! The logs that several tests speak of.

use crate::builder::{
    ANONYMOUS_GTID, BEGIN, COMMIT, DROP_TABLE, GTID, NEWER_FRONT, PREVIOUS_GTIDS, Part, ROTATE,
    ROWS_QUERY, T, Table, XID, build, build_after, delete, insert, map_of, update,
};
use std::alloc::AllocError;

type Built = Result<Vec<u8>, AllocError>;

/// No transaction.
pub fn no_changes(rt: &impl AllocGlobal) -> Built {
    build(rt, &[])
}

/// A transaction that inserts the row 5.
pub fn one_insert(rt: &impl AllocGlobal) -> Built {
    build(rt, &[BEGIN, Part::Map(T), insert(1, &[5]), XID])
}

/// A transaction that deletes the row 5.
pub fn one_delete(rt: &impl AllocGlobal) -> Built {
    build(rt, &[BEGIN, Part::Map(T), delete(1, &[5]), XID])
}

/// A transaction that inserts the row 5 twice.
pub fn two_inserts(rt: &impl AllocGlobal) -> Built {
    let rows = insert(1, &[5, 5]);
    build(rt, &[BEGIN, Part::Map(T), rows, XID])
}

/// A transaction that inserts the rows 1, NULL and 3, by a rows event that has extra bytes. The free null bits of the last
/// row are clear.
pub fn three_inserts(rt: &impl AllocGlobal) -> Built {
    let images = b"\xFE\x01\0\0\0\xFF\0\x03\0\0\0";
    let rows = insert(1, &[])
        .with_extra(b"\xAA\xBB")
        .over(1, &[0xFF], images);
    build(rt, &[BEGIN, Part::Map(T), rows, XID])
}

/// A transaction that changes the row 1 to 2, and the row 2 to 3.
pub fn two_updates(rt: &impl AllocGlobal) -> Built {
    let rows = update(1, &[1, 2, 2, 3]);
    build(rt, &[BEGIN, Part::Map(T), rows, XID])
}

/// Two transactions: one inserts the row 7, and one deletes the row 8.
pub fn two_transactions(rt: &impl AllocGlobal) -> Built {
    let parts = [
        GTID,
        BEGIN,
        Part::Map(T),
        insert(1, &[7]),
        COMMIT,
        ANONYMOUS_GTID,
        BEGIN,
        Part::Map(T),
        delete(1, &[8]),
        XID,
    ];
    build(rt, &parts)
}

/// A statement that inserts 1 into `t1`, 2 into `t2` and 3 into `t1`.
pub fn two_tables(rt: &impl AllocGlobal) -> Built {
    let parts = [
        BEGIN,
        map_of(1, b"t1"),
        map_of(2, b"t2"),
        insert(1, &[1]).open(),
        insert(2, &[2]).open(),
        insert(1, &[3]),
        XID,
    ];
    build(rt, &parts)
}

/// The same with extra bytes in the rows events.
pub fn extra_bytes(rt: &impl AllocGlobal) -> Built {
    let parts = [
        BEGIN,
        map_of(1, b"t1"),
        map_of(2, b"t2"),
        insert(1, &[1]).open().with_extra(b"\xAA\xBB"),
        insert(2, &[2]).open().with_extra(b"\xAA\xBB"),
        insert(1, &[3]).with_extra(b"\xAA\xBB"),
        XID,
    ];
    build(rt, &parts)
}

/// A statement whose table is mapped twice by the same body.
pub fn map_twice(rt: &impl AllocGlobal) -> Built {
    let rows = insert(1, &[5]);
    build(rt, &[BEGIN, Part::Map(T), Part::Map(T), rows, XID])
}

/// A transaction of two statements: one inserts the row 1, and one deletes the row 2.
pub fn two_statements(rt: &impl AllocGlobal) -> Built {
    let first = insert(1, &[1]);
    let second = delete(1, &[2]);
    build(rt, &[BEGIN, Part::Map(T), first, Part::Map(T), second, XID])
}

/// A table `t` of nine LONG columns.
pub const NINE_COLUMNS: Table<'static> = Table {
    types: &[3; 9],
    nullable: &[0xFF, 1],
    ..T
};

/// Its row of the values 1 to 8 and NULL, twice: with the free null bits clear, and with all of them set.
#[rattlefmt::skip]
pub static NINE_COLUMNS_ROWS: [u8; 68] = [
    0x00, 0x01, 1, 0, 0, 0, 2, 0, 0, 0, 3, 0, 0, 0, 4, 0, 0, 0, 5, 0, 0, 0, 6, 0, 0, 0, 7, 0, 0, 0, 8, 0, 0, 0,
    0x00, 0xFF, 1, 0, 0, 0, 2, 0, 0, 0, 3, 0, 0, 0, 4, 0, 0, 0, 5, 0, 0, 0, 6, 0, 0, 0, 7, 0, 0, 0, 8, 0, 0, 0,
];

/// A transaction that inserts these two equal rows.
pub fn nine_columns(rt: &impl AllocGlobal) -> Built {
    let rows = insert(1, &[]).over(9, &[0xFF, 1], &NINE_COLUMNS_ROWS);
    build(rt, &[BEGIN, Part::Map(NINE_COLUMNS), rows, XID])
}

/// A transaction with a map and without rows.
pub fn map_alone(rt: &impl AllocGlobal) -> Built {
    build(rt, &[BEGIN, Part::Map(T), COMMIT])
}

/// A query with this text, in the transaction that inserts the row 5.
pub fn query_inside(rt: &impl AllocGlobal, text: &[u8]) -> Built {
    let query = Part::Query { status: &[], text };
    let rows = insert(1, &[5]);
    build(rt, &[BEGIN, Part::Map(T), rows, query, XID])
}

/// The events of a newer server: what stands around a transaction is skipped.
pub fn newer_server(rt: &impl AllocGlobal) -> Built {
    let begin = Part::Query {
        status: &[0; 5],
        text: b"BEGIN",
    };
    let parts = [
        PREVIOUS_GTIDS,
        ANONYMOUS_GTID,
        begin,
        ROWS_QUERY,
        Part::Map(T),
        insert(1, &[5]),
        XID,
        ROTATE,
    ];
    build(rt, &parts)
}

/// The insert of the row 5 behind a format description of more entries.
pub fn longer_format(rt: &impl AllocGlobal) -> Built {
    let rows = insert(1, &[5]);
    build_after(rt, &NEWER_FRONT, &[BEGIN, Part::Map(T), rows, XID])
}

/// The insert of the row 5, and another event behind it.
pub fn with_last(rt: &impl AllocGlobal, last: Part<'_>) -> Built {
    let rows = insert(1, &[5]);
    build(rt, &[BEGIN, Part::Map(T), rows, XID, last])
}

/// The insert of the row 5, and a query that drops the table behind it.
pub fn insert_and_drop(rt: &impl AllocGlobal) -> Built {
    with_last(rt, DROP_TABLE)
}
