//! What an event is to a reader of the log.

ghost use Rattle.std.specs.Prelude.{◌≡◌, ◌||◌, bytes_eq, codes, option_map};
ghost use Rattle.blog_event.specs.Event.{event_of};
ghost use Rattle.blog_row.specs.Kinds.{query_text, begins_with, query_kind, may_be_ignored, other_kind, kind_of};

use crate::kind::RowsKind;
use blog_event::Event;
use blog_event::constants::{
    ANONYMOUS_GTID_LOG_EVENT, APPEND_BLOCK_EVENT, BEGIN_LOAD_QUERY_EVENT, CREATE_FILE_EVENT,
    DELETE_FILE_EVENT, EXEC_LOAD_EVENT, EXECUTE_LOAD_QUERY_EVENT, FORMAT_DESCRIPTION_EVENT,
    GTID_LOG_EVENT, HEARTBEAT_LOG_EVENT, IGNORABLE_LOG_EVENT, INTVAR_EVENT, LOAD_EVENT,
    NEW_LOAD_EVENT, PARTIAL_UPDATE_ROWS_EVENT, PREVIOUS_GTIDS_LOG_EVENT, QUERY_EVENT, RAND_EVENT,
    ROTATE_EVENT, ROWS_QUERY_LOG_EVENT, SLAVE_EVENT, START_EVENT_V3, STOP_EVENT, TABLE_MAP_EVENT,
    TRANSACTION_CONTEXT_EVENT, UNKNOWN_EVENT, USER_VAR_EVENT, XID_EVENT,
};
use byteorder::{ByteOrder, LittleEndian};

/// What an event is, by its type, its header flags and, for a query, its text
/// (MySQL Internals manual, "Event Classes and Types").
#[derive(Clone, Copy, Debug, PartialEq, Eq)]
pub enum EventKind {
    /// A query `BEGIN`.
    Begin,
    /// A query `COMMIT`.
    Commit,
    /// A query `ROLLBACK`, or one that begins with `ROLLBACK TO `.
    Rollback,
    /// A query that begins with `SAVEPOINT `.
    Savepoint,
    /// A query of any other text.
    OtherQuery,
    /// A query whose body doesn't have its layout.
    BadQuery,
    /// The end of a transaction of a transactional engine.
    Xid,
    /// A global transaction id, or an anonymous one.
    Gtid,
    /// Stop, Rotate or Previous_gtids.
    BetweenTransactions,
    /// The text of a statement, written beside its rows.
    RowsQuery,
    /// A change written as a statement.
    StatementChange,
    /// A format description that isn't the file's first event.
    SecondFormat,
    /// A table map.
    TableMap,
    /// A rows event.
    Rows(RowsKind),
    /// A rows event with parts of its images.
    PartialRows,
    /// An event of a type that isn't known here, and that its header lets a reader skip.
    Skippable,
    /// An event of any other type, or of one that its header doesn't let a reader skip.
    Unknown,
}

/// The header flag of an event that a reader who doesn't know its type may ignore.
const LOG_EVENT_IGNORABLE_F: u16 = 0x80;

/// The text of a query, if the body has its layout: 13 fixed bytes, status bytes, schema, a zero byte, the text
/// (MySQL Internals manual, "Query_event").
#[tactic(auto, unfolding(crate::specs::Kinds::query_text))]
pub fn query_text(body: &[u8]) -> Option<&[u8]>
    ensures { option_map (λ text. text.now) result ≡ query_text body.now }
{
    if body.len() < 13 {
        return None;
    }
    let status_len = usize::from(LittleEndian::read_u16(&body[11..]));
    let names_end = 13 + status_len + usize::from(body[8]);
    if names_end < body.len() && body[names_end] == 0 {
        Some(&body[names_end + 1..])
    } else {
        None
    }
}

/// Whether a text begins with another.
fn begins_with(text: &[u8], front: &[u8]) -> bool
    ensures { result ≡ begins_with front.now text.now }
{
    text.starts_with(front)
}

/// Whether a query of this text undoes changes that the log has.
fn is_rollback(text: &[u8]) -> bool
    ensures { result ≡ (bytes_eq text.now (codes "ROLLBACK") || begins_with (codes "ROLLBACK TO ") text.now) }
{
    text == b"ROLLBACK".as_slice() || begins_with(text, b"ROLLBACK TO ")
}

/// What a query of this text is.
#[tactic(auto, unfolding(crate::specs::Kinds::query_kind))]
fn query_kind(text: &[u8]) -> EventKind
    ensures { result ≡ query_kind text.now }
{
    if text == b"BEGIN".as_slice() {
        EventKind::Begin
    } else if text == b"COMMIT".as_slice() {
        EventKind::Commit
    } else if is_rollback(text) {
        EventKind::Rollback
    } else if begins_with(text, b"SAVEPOINT ") {
        EventKind::Savepoint
    } else {
        EventKind::OtherQuery
    }
}

/// Whether header flags say that a reader who doesn't know the type may ignore the event.
fn may_be_ignored(flags: u16) -> bool
    ensures { result ≡ may_be_ignored flags }
{
    flags & LOG_EVENT_IGNORABLE_F != 0
}

/// What an event of no other kind is: one may be skipped, if its type isn't known here and its header says so.
fn other_kind(number: u8, flags: u16) -> EventKind
    ensures { result ≡ other_kind number flags }
{
    match number {
        UNKNOWN_EVENT
        | HEARTBEAT_LOG_EVENT
        | IGNORABLE_LOG_EVENT
        | TRANSACTION_CONTEXT_EVENT
        | 41..=159
            if may_be_ignored(flags) => { EventKind::Skippable }
        _ => EventKind::Unknown,
    }
}

/// What an event is.
#[tactic(auto, unfolding(crate::specs::Kinds::kind_of))]
pub fn event_kind(event: &Event<'_>) -> EventKind
    ensures { result ≡ kind_of (event_of event.now) }
{
    match event.header.kind {
        QUERY_EVENT => match query_text(event.body) {
            Some(text) => query_kind(text),
            None => EventKind::BadQuery,
        },
        XID_EVENT => EventKind::Xid,
        GTID_LOG_EVENT | ANONYMOUS_GTID_LOG_EVENT => EventKind::Gtid,
        STOP_EVENT | ROTATE_EVENT | PREVIOUS_GTIDS_LOG_EVENT => EventKind::BetweenTransactions,
        ROWS_QUERY_LOG_EVENT => EventKind::RowsQuery,
        START_EVENT_V3
        | INTVAR_EVENT
        | LOAD_EVENT
        | SLAVE_EVENT
        | CREATE_FILE_EVENT
        | APPEND_BLOCK_EVENT
        | EXEC_LOAD_EVENT
        | DELETE_FILE_EVENT
        | NEW_LOAD_EVENT
        | RAND_EVENT
        | USER_VAR_EVENT
        | BEGIN_LOAD_QUERY_EVENT
        | EXECUTE_LOAD_QUERY_EVENT => { EventKind::StatementChange }
        FORMAT_DESCRIPTION_EVENT => EventKind::SecondFormat,
        TABLE_MAP_EVENT => EventKind::TableMap,
        PARTIAL_UPDATE_ROWS_EVENT => EventKind::PartialRows,
        number => match RowsKind::of_type(number) {
            Some(rows) => EventKind::Rows(rows),
            None => other_kind(number, event.header.flags),
        },
    }
}
