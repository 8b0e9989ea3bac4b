//! Selections that several tests speak of.

use blog_trans::Selection;

/// From a start on.
pub fn from(start: u32) -> Selection<'static> {
    Selection {
        start,
        ..Selection::all()
    }
}

/// Up to a stop.
pub fn up_to(stop: u32) -> Selection<'static> {
    Selection {
        stop: Some(stop),
        ..Selection::all()
    }
}

/// The tables of a schema.
pub fn of_schema(schema: &[u8]) -> Selection<'_> {
    Selection {
        database: Some(schema),
        ..Selection::all()
    }
}

/// The tables of a name.
pub fn of_table(table: &[u8]) -> Selection<'_> {
    Selection {
        table: Some(table),
        ..Selection::all()
    }
}

/// The transaction before the table is altered, and the one behind.
pub const BEFORE: Selection<'static> = Selection {
    start: 127,
    stop: Some(500),
    database: None,
    table: None,
};

pub const BEHIND: Selection<'static> = Selection {
    start: 682,
    stop: Some(984),
    database: None,
    table: None,
};
