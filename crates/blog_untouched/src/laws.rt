//! What is promised of the part by fingerprints. Each law holds for every function from rows to numbers: equal rows have equal values.

ghost use Rattle.std.specs.Prelude.{◌≡◌, ℕ, true, List, [], take};
ghost use Rattle.std.specs.List.{flat_map};
ghost use Rattle.blog_later.specs.Among.{Step, marked_in, selected_in};
ghost use Rattle.blog_later.specs.Prints.{HavePrints, print_of, prints_left};
ghost use Rattle.blog_untouched.specs.Recorded.{IsRecorded};
ghost use Rattle.blog_untouched.specs.Steps.{rows_in, taken_in};
ghost use Rattle.blog_undo.specs.ByRows.{passes_by};
ghost use Rattle.blog_undo.specs.Mixed.{Marked, TableRow};
ghost use Rattle.blog_undo.specs.Part.{untouched_part};
ghost use Rattle.blog_untouched.specs.ByPrints.{part_by};
ghost use Rattle.blog_untouched.specs.Laws.{IsUndoable, LeavesOutTouchedBy, TellsApart};

/// The part by fingerprints can be undone: it has selected changes only, and no change outside of it takes a row that a change of
/// it before left. The tables are then as if only the others had been made. The call does nothing.
pub fn part_by_fingerprints_is_taken_back()
    ensures { (f : TableRow → ℕ) (ms : List Marked) → IsUndoable ms (part_by f ms) }
{}

/// If equal fingerprints are those of equal rows, it is the greatest such part. The call does nothing.
pub fn part_by_fingerprints_is_greatest()
    ensures { (f : TableRow → ℕ) (ms : List Marked) → TellsApart f ms → part_by f ms ≡ untouched_part ms }
{}

/// A change outside of the part comes after each selected change that is left out of it, and takes a row with the fingerprint of the
/// row that was left. The call does nothing.
pub fn changes_left_out_are_touched_by_fingerprints()
    ensures { (f : TableRow → ℕ) (ms : List Marked) → LeavesOutTouchedBy f ms (part_by f ms) }
{}

/// If no other change takes a row with the fingerprint of one that a selected change before it left, all selected changes are kept.
/// The call does nothing.
pub fn all_are_kept_if_none_is_touched()
    ensures { (f : TableRow → ℕ) (ms : List Marked) → passes_by f [] ms ≡ true → part_by f ms ≡ ms }
{}

/// What is recorded of steps is what is recorded of their changes, if the fingerprints of the first lists are those of the rows that these left. The
/// call does nothing.
pub fn records_of_steps_are_those_of_their_changes()
    ensures { (prints : ℕ → List ℕ) (ss : List Step) → ((k : ℕ) → HavePrints (prints_left print_of (flat_map (λ cs. cs) (take k (selected_in ss)))) (prints k))
        → IsRecorded print_of (marked_in ss) (rows_in ss) (taken_in prints 0 0 ss) }
{}
