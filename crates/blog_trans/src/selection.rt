//! Which changes of a log are meant.

/// A selection of a log's changes: by position, and by the names of their tables.
#[derive(Clone, Copy, Debug)]
pub struct Selection<'s> {
    /// The byte position of the first event of the range; one below 4 counts as 4.
    pub start: u32,
    /// Events that start at this byte position or behind it aren't read; None where all are.
    pub stop: Option<u32>,
    /// The name of the tables' schema, compared byte by byte; None for any.
    pub database: Option<&'s [u8]>,
    /// The name of the tables, compared byte by byte; None for any.
    pub table: Option<&'s [u8]>,
}

impl Selection<'_> {
    ghost use Rattle.std.specs.Prelude.{◌≡◌};
    ghost use Rattle.blog_trans.specs.Selection.{selection_of, all};

    /// Every change: a start of 4 and nothing else.
    pub fn all() -> Self
        ensures { selection_of result ≡ all }
    {
        Selection {
            start: 4,
            stop: None,
            database: None,
            table: None,
        }
    }
}
