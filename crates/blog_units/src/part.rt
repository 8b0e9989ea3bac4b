//! Which events belong to a unit.

ghost use Rattle.std.specs.Prelude.{◌≡◌, ◌||◌};
ghost use Rattle.blog_row.specs.Kinds.{kind_of, is_end_kind};
ghost use Rattle.blog_trans.specs.Places.{placed, kind_at};
ghost use Rattle.blog_units.specs.Units.{after_gtid, continued, goes_on, is_of_rows, is_query_kind, is_query_or_rows, is_rollback, opened_by};

use blog_event::Event;
use blog_event::constants::{PARTIAL_UPDATE_ROWS_EVENT, QUERY_EVENT};
use blog_trans::{EventKind, query_text};

/// What an open unit has so far.
#[derive(Clone, Copy, Debug, PartialEq, Eq)]
pub(crate) enum Part {
    /// A Gtid event.
    Gtid,
    /// A `BEGIN`.
    Transaction,
    /// An event that stands outside of transactions and may not stand there.
    Statement,
}

/// What a unit has that begins with an event of this kind, if one does.
pub(crate) fn opened_by(kind: EventKind) -> Option<Part>
    ensures { result ≡ opened_by kind }
{
    match kind {
        EventKind::Gtid => Some(Part::Gtid),
        EventKind::Begin => Some(Part::Transaction),
        EventKind::BetweenTransactions | EventKind::RowsQuery | EventKind::Skippable => None,
        _ => Some(Part::Statement),
    }
}

/// Whether an event of this kind is of rows that are changed, or may stand among those.
fn is_of_rows(kind: EventKind) -> bool
    ensures { result ≡ is_of_rows kind }
{
    match kind {
        EventKind::TableMap
        | EventKind::Rows(_)
        | EventKind::PartialRows
        | EventKind::RowsQuery
        | EventKind::Skippable => true,
        _ => false,
    }
}

/// Whether the event rolls a whole transaction back.
fn is_rollback(event: &Event<'_>) -> bool
    ensures { result ≡ is_rollback (placed event.now) }
{
    event.header.kind == QUERY_EVENT
        && match query_text(event.body) {
            Some(text) => text == b"ROLLBACK".as_slice(),
            None => false,
        }
}

/// What a unit has behind its Gtid event and an event of this kind.
fn after_gtid(kind: EventKind) -> Part
    ensures { result ≡ after_gtid kind }
{
    match kind {
        EventKind::Begin => Part::Transaction,
        EventKind::RowsQuery | EventKind::Skippable => Part::Gtid,
        _ => Part::Statement,
    }
}

impl Part {
    /// Whether the unit goes on with an event of this kind.
    pub(crate) fn goes_on(self, kind: EventKind) -> bool
        ensures { result ≡ goes_on self kind }
    {
        match self {
            Part::Gtid => kind != EventKind::Gtid,
            Part::Transaction => kind != EventKind::Gtid && kind != EventKind::Begin,
            Part::Statement => is_of_rows(kind),
        }
    }

    /// What the unit has when it goes on with an event of this kind, None where it ends with it.
    pub(crate) fn continued(self, kind: EventKind, event: &Event<'_>) -> Option<Part>
        requires { kind ≡ kind_at (placed event.now) }
        ensures { result ≡ continued self (placed event.now) }
    {
        match self {
            Part::Gtid => Some(after_gtid(kind)),
            Part::Transaction => {
                if kind == EventKind::Commit || kind == EventKind::Xid || is_rollback(event) {
                    None
                } else {
                    Some(Part::Transaction)
                }
            }
            Part::Statement => Some(Part::Statement),
        }
    }
}

/// Returns whether an event of this kind is a Query event whose body can be read.
pub(crate) fn is_query(kind: EventKind) -> bool
    ensures { result ≡ is_query_kind kind }
{
    match kind {
        EventKind::Begin
        | EventKind::Commit
        | EventKind::Rollback
        | EventKind::Savepoint
        | EventKind::OtherQuery => true,
        _ => false,
    }
}

/// Whether an event of this kind is a Query or a rows event.
pub(crate) fn is_query_or_rows(kind: EventKind, event: &Event<'_>) -> bool
    requires { kind ≡ kind_at (placed event.now) }
    ensures { result ≡ is_query_or_rows (placed event.now) }
{
    event.header.kind == QUERY_EVENT
        || event.header.kind == PARTIAL_UPDATE_ROWS_EVENT
        || match kind {
            EventKind::Rows(_) => true,
            _ => false,
        }
}
