//! Rows by their fingerprints: those of selected changes, and those that other changes take.

ghost use Rattle.std.specs.Prelude.{◌≡◌};
ghost use Rattle.blog_untouched.specs.Rows.{print_left, print_taken};

/// The row of a selected change, by fingerprints.
#[derive(Clone, Copy, Debug, PartialEq, Eq)]
pub enum SelectedRow {
    /// It is inserted, and so left.
    Inserted(u64),
    /// It is deleted, and so taken.
    Deleted(u64),
    /// The row before the change is taken, and the one after it is left.
    Updated(u64, u64),
}

/// A row that a change takes, where the change isn't selected.
#[derive(Clone, Copy, Debug, PartialEq, Eq)]
pub struct TakenRow {
    /// How many selected changes come before that change.
    pub before: usize,
    /// The fingerprint of the row.
    pub print: u64,
}

/// Which change takes a row.
#[derive(Clone, Copy, Debug, PartialEq, Eq)]
pub enum Taker {
    /// The selected change of this number, counted from 0.
    Selected(usize),
    /// The other change whose `TakenRow` has this number, counted from 0.
    Other(usize),
}

/// A selected change that can't be undone while the other changes are left.
#[derive(Clone, Copy, Debug, PartialEq, Eq)]
pub struct Touched {
    /// The number of the selected change, counted from 0.
    pub row: usize,
    /// The next change after it that takes a row with the fingerprint of the one that it left, and isn't kept.
    pub by: Taker,
}

impl SelectedRow {
    /// Returns the fingerprint of the row that the change left, if it left one.
    pub(crate) fn left(self) -> Option<u64>
        ensures { result ≡ print_left self }
    {
        match self {
            SelectedRow::Inserted(left) | SelectedRow::Updated(_, left) => Some(left),
            SelectedRow::Deleted(_) => None,
        }
    }

    /// Returns the fingerprint of the row that the change took, if it took one.
    pub(crate) fn taken(self) -> Option<u64>
        ensures { result ≡ print_taken self }
    {
        match self {
            SelectedRow::Deleted(taken) | SelectedRow::Updated(taken, _) => Some(taken),
            SelectedRow::Inserted(_) => None,
        }
    }
}
