//! What a report is told.

use crate::sums::RowSums;

/// What a report says of a unit: a transaction, or another group of events.
#[derive(Clone, Copy, Debug)]
pub struct UnitFact {
    /// The number of its log, from 0 on, of the names that the report is printed with.
    pub log: usize,
    /// Where it starts in the server's log.
    pub position: u32,
    /// When its first statement was written, in seconds since 1970; 0 where that isn't known.
    pub time: u32,
    /// How many seconds later its end was.
    pub seconds: u32,
    /// How many bytes its events have.
    pub bytes: u64,
    /// The id of the connection, if it is known.
    pub thread: Option<u32>,
    /// How many rows of all tables it changes.
    pub rows: RowSums,
}

/// The rows of a table that a unit changes.
#[derive(Clone, Copy, Debug)]
pub struct TableRows<'a> {
    /// The name of the schema.
    pub schema: &'a [u8],
    /// The name of the table.
    pub table: &'a [u8],
    /// How many rows.
    pub rows: RowSums,
}
