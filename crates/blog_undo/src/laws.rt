//! What is promised of an undo.

ghost use Rattle.std.specs.Prelude.{List};
ghost use Rattle.blog_undo.specs.Laws.{TakesBack};
ghost use Rattle.blog_undo.specs.Mixed.{Marked};

/// Undoing the selected changes, last to first, makes no fault if no other change takes a row that a selected one before it
/// left. The tables are then as if only the others had been made, and the selected changes lead back. The call does nothing.
pub fn untouched_changes_are_taken_back()
    ensures { (ms : List Marked) → TakesBack ms }
{}
