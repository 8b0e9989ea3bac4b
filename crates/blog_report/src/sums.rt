//! Numbers of rows.

ghost use Rattle.std.specs.Prelude.{◌≡◌};
ghost use Rattle.blog_report.specs.Sums.{none, plus, rows_in};

/// How many rows are inserted, updated and deleted, each at most the greatest number of 64 bits.
#[derive(Clone, Copy, Debug, PartialEq, Eq)]
pub struct RowSums {
    /// How many are inserted.
    pub inserts: u64,
    /// How many are updated.
    pub updates: u64,
    /// How many are deleted.
    pub deletes: u64,
}

impl RowSums {
    /// No rows.
    pub fn none() -> RowSums
        ensures { result ≡ none }
    {
        RowSums {
            inserts: 0,
            updates: 0,
            deletes: 0,
        }
    }

    /// These rows and others.
    pub fn plus(self, other: RowSums) -> RowSums
        ensures { result ≡ plus self other }
    {
        RowSums {
            inserts: self.inserts.saturating_add(other.inserts),
            updates: self.updates.saturating_add(other.updates),
            deletes: self.deletes.saturating_add(other.deletes),
        }
    }

    /// How many rows that is.
    pub(crate) fn rows(self) -> u64
        ensures { result ≡ rows_in self }
    {
        self.deletes
            .saturating_add(self.updates)
            .saturating_add(self.inserts)
    }
}
