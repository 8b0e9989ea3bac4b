//! What is promised of one pass over changes that decides whether others touch the selected ones.

ghost use Rattle.std.specs.Prelude.{◌≡◌, ℕ, true, List, []};
ghost use Rattle.blog_undo.specs.ByRows.{passes, passes_by};
ghost use Rattle.blog_undo.specs.Mixed.{Marked, TableRow, is_untouched};

/// One pass from the first change to the last, with the rows that selected changes left so far, decides whether no other change
/// touches a selected one before it. The call does nothing.
pub fn rows_left_decide()
    ensures { (ms : List Marked) → is_untouched ms ≡ passes [] ms }
{}

/// If the pass with fingerprints in place of rows succeeds, no other change touches a selected one before it. This holds for every
/// function of rows: it has the same value for equal rows. The call does nothing.
pub fn fingerprints_suffice()
    ensures { (f : TableRow → ℕ) (ms : List Marked) → passes_by f [] ms ≡ true → is_untouched ms ≡ true }
{}
