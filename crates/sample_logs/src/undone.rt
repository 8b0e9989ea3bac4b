//! What small logs are undone by, and their normal forms.

use crate::builder::{BEGIN, COMMIT, Part, T, XID, build, delete, insert, map_of};
use std::alloc::AllocError;

type Built = Result<Vec<u8>, AllocError>;

/// What undoes the statement that changes two tables.
pub fn two_tables_undone(rt: &impl AllocGlobal) -> Built {
    let parts = [
        BEGIN,
        map_of(1, b"t1"),
        map_of(2, b"t2"),
        delete(1, &[3]).open(),
        delete(2, &[2]).open(),
        delete(1, &[1]),
        XID,
    ];
    build(rt, &parts)
}

/// What undoes the three inserts: the rows are deleted from the last to the first, without extra bytes.
pub fn three_inserts_undone(rt: &impl AllocGlobal) -> Built {
    let images = b"\0\x03\0\0\0\xFF\xFE\x01\0\0\0";
    let rows = delete(1, &[]).over(1, &[0xFF], images);
    build(rt, &[BEGIN, Part::Map(T), rows, XID])
}

/// The three inserts in normal form: without extra bytes.
pub fn three_inserts_copied(rt: &impl AllocGlobal) -> Built {
    let images = b"\xFE\x01\0\0\0\xFF\0\x03\0\0\0";
    let rows = insert(1, &[]).over(1, &[0xFF], images);
    build(rt, &[BEGIN, Part::Map(T), rows, XID])
}

/// What undoes the two transactions.
pub fn two_transactions_undone(rt: &impl AllocGlobal) -> Built {
    let parts = [
        BEGIN,
        Part::Map(T),
        insert(1, &[8]),
        XID,
        BEGIN,
        Part::Map(T),
        delete(1, &[7]),
        COMMIT,
    ];
    build(rt, &parts)
}

/// The two transactions in normal form.
pub fn two_transactions_copied(rt: &impl AllocGlobal) -> Built {
    let parts = [
        BEGIN,
        Part::Map(T),
        insert(1, &[7]),
        COMMIT,
        BEGIN,
        Part::Map(T),
        delete(1, &[8]),
        XID,
    ];
    build(rt, &parts)
}

/// The beginning of the newer server's transaction.
const NEWER_BEGIN: Part<'static> = Part::Query {
    status: &[0; 5],
    text: b"BEGIN",
};

/// What undoes the log of a newer server.
pub fn newer_server_undone(rt: &impl AllocGlobal) -> Built {
    build(rt, &[NEWER_BEGIN, Part::Map(T), delete(1, &[5]), XID])
}

/// That log in normal form.
pub fn newer_server_copied(rt: &impl AllocGlobal) -> Built {
    build(rt, &[NEWER_BEGIN, Part::Map(T), insert(1, &[5]), XID])
}
