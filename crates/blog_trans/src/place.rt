//! Where an event stands in the file's order of transactions.

/// The place before an event of the range, or at the range's end.
#[derive(Clone, Copy, Debug, PartialEq, Eq)]
pub enum Place {
    /// In no transaction.
    Outside,
    /// After a transaction's id, before its `BEGIN`.
    AfterGtid,
    /// After `BEGIN`.
    Inside,
}

impl Place {
    ghost use Rattle.std.specs.Prelude.{◌≡◌};
    ghost use Rattle.blog_trans.specs.Places.{is_inside, is_outside};

    /// Whether it is inside a transaction.
    pub fn is_inside(self) -> bool
        ensures { result ≡ is_inside self }
    {
        matches!(self, Place::Inside)
    }

    /// Whether it is outside, and not after a transaction's id.
    pub fn is_outside(self) -> bool
        ensures { result ≡ is_outside self }
    {
        matches!(self, Place::Outside)
    }
}
