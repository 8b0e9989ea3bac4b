//! In which order rows are written.

use crate::kind::RowsKind;

/// In which order the changes of a log are written.
#[derive(Clone, Copy, Debug, PartialEq, Eq)]
pub enum Order {
    /// As they stand in the log.
    Forward,
    /// From the last to the first, each undone: inserting and deleting are exchanged, and the two images of an update.
    Backward,
}

impl Order {
    ghost use Rattle.std.specs.Prelude.{◌≡◌};
    ghost use Rattle.blog_row.specs.RowsWriting.{kind_in};

    /// The kind of the rows event that is written for one of this kind; of the same version.
    pub fn kind(self, kind: RowsKind) -> RowsKind
        ensures { result ≡ kind_in self kind }
    {
        match self {
            Order::Forward => kind,
            Order::Backward => RowsKind {
                action: kind.action.opposite(),
                ..kind
            },
        }
    }
}
