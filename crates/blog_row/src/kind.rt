//! The kinds of rows events.

use blog_event::constants::{
    DELETE_ROWS_EVENT, DELETE_ROWS_EVENT_V1, UPDATE_ROWS_EVENT, UPDATE_ROWS_EVENT_V1,
    WRITE_ROWS_EVENT, WRITE_ROWS_EVENT_V1,
};

/// The version of a rows event's body (MySQL Internals manual, "Rows_event").
#[derive(Clone, Copy, Debug, PartialEq, Eq)]
pub enum RowsVersion {
    /// Without extra bytes: of servers from 5.1.16 on, and of later ones with `log_bin_use_v1_row_events=ON`.
    One,
    /// With extra bytes, behind their length: of servers from 5.6 on.
    Two,
}

/// What a rows event does to its rows (MySQL Internals manual, "Rows_event").
#[derive(Clone, Copy, Debug, PartialEq, Eq)]
pub enum RowsAction {
    /// Rows are inserted: one image a row.
    Write,
    /// Rows are changed: two images a row, the one before and the one after.
    Update,
    /// Rows are deleted: one image a row.
    Delete,
}

impl RowsAction {
    ghost use Rattle.std.specs.Prelude.{◌≡◌};
    ghost use Rattle.blog_row.specs.RowsKind.{images_a_row, opposite};

    /// How many images a row has, and how many bitmaps an event: two in an update, else one.
    pub(crate) fn images_a_row(self) -> usize
        ensures images { result ≡ images_a_row self }
    {
        match self {
            RowsAction::Write | RowsAction::Delete => 1,
            RowsAction::Update => 2,
        }
    }

    /// What undoes it: inserting and deleting are exchanged.
    pub(crate) fn opposite(self) -> RowsAction
        ensures { result ≡ opposite self }
    {
        match self {
            RowsAction::Write => RowsAction::Delete,
            RowsAction::Update => RowsAction::Update,
            RowsAction::Delete => RowsAction::Write,
        }
    }
}

/// The kind of a rows event, which its type tells: the version of its body, and what it does to its rows (MySQL Internals
/// manual, "Rows_event").
#[derive(Clone, Copy, Debug, PartialEq, Eq)]
pub struct RowsKind {
    /// The version of its body.
    pub version: RowsVersion,
    /// What it does to its rows.
    pub action: RowsAction,
}

impl RowsKind {
    ghost use Rattle.std.specs.Prelude.{◌≡◌};
    ghost use Rattle.blog_row.specs.RowsKind.{rows_kind_of, number_of_kind};

    /// The kind of an event type, where that is a type of rows events.
    pub fn of_type(number: u8) -> Option<RowsKind>
        ensures { result ≡ rows_kind_of number }
    {
        let (version, action) = match number {
            WRITE_ROWS_EVENT_V1 => (RowsVersion::One, RowsAction::Write),
            UPDATE_ROWS_EVENT_V1 => (RowsVersion::One, RowsAction::Update),
            DELETE_ROWS_EVENT_V1 => (RowsVersion::One, RowsAction::Delete),
            WRITE_ROWS_EVENT => (RowsVersion::Two, RowsAction::Write),
            UPDATE_ROWS_EVENT => (RowsVersion::Two, RowsAction::Update),
            DELETE_ROWS_EVENT => (RowsVersion::Two, RowsAction::Delete),
            _ => return None,
        };
        Some(RowsKind { version, action })
    }

    /// The event type of the kind.
    pub fn number(self) -> u8
        ensures { result ≡ number_of_kind self }
    {
        match (self.version, self.action) {
            (RowsVersion::One, RowsAction::Write) => WRITE_ROWS_EVENT_V1,
            (RowsVersion::One, RowsAction::Update) => UPDATE_ROWS_EVENT_V1,
            (RowsVersion::One, RowsAction::Delete) => DELETE_ROWS_EVENT_V1,
            (RowsVersion::Two, RowsAction::Write) => WRITE_ROWS_EVENT,
            (RowsVersion::Two, RowsAction::Update) => UPDATE_ROWS_EVENT,
            (RowsVersion::Two, RowsAction::Delete) => DELETE_ROWS_EVENT,
        }
    }
}
