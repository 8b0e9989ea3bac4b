//! What is promised of a merge.

ghost use Rattle.std.specs.Prelude.{◌≡◌, ℕ, true, List};
ghost use Rattle.blog_merge.specs.Laws.{Differs, HasNoDifference, Merges, UndoesAndMerges, UndoesAndMergesAll, UndoesAndMergesBy, all_differ, none_selected};
ghost use Rattle.blog_merge.specs.Merge.{pairs_of};
ghost use Rattle.blog_merge.specs.Touching.{HaveSamePairs};
ghost use Rattle.blog_undo.specs.Mixed.{Marked, TableRow};

/// The tables as they are, and as they would be without the selected changes, differ in the rows of the pairs alone. The call does
/// nothing.
pub fn pairs_are_the_difference()
    ensures { (ms : List Marked) → Differs ms }
{}

/// The updates of the pairs make no fault. The tables are then as the changes of others alone, rebased, would have made them, but
/// for the rows that stay. The call does nothing.
pub fn updates_merge()
    ensures { (ms : List Marked) → Merges ms }
{}

/// Undoing a part that no other change touches, and then the updates for the changes outside of it, makes no fault. The tables are
/// then as the changes of others alone, rebased, would have made them, but for the rows that stay. The call does nothing.
pub fn part_is_undone_and_rest_merged()
    ensures { (ms part : List Marked) → UndoesAndMerges ms part }
{}

/// For the greatest part that no other change touches, this holds of all changes. The call does nothing.
pub fn greatest_part_is_undone_and_rest_merged()
    ensures { (ms : List Marked) → UndoesAndMergesAll ms }
{}

/// So it does for the part that is found by fingerprints of rows, whatever they are: rows whose fingerprints agree by chance can be merged where they
/// could be undone. The call does nothing.
pub fn part_by_fingerprints_is_undone_and_rest_merged()
    ensures { (f : TableRow → ℕ) (ms : List Marked) → UndoesAndMergesBy f ms }
{}

/// Changes of others that take no row with the fingerprint of a row that was left, by a selected change or by one of others that took such a row,
/// make no difference to the pairs. So of what others changed only the rest has to be kept. The call does nothing.
pub fn untouched_rows_make_no_difference()
    ensures { (f : TableRow → ℕ) (part ms : List Marked) → HaveSamePairs f part ms }
{}

/// The two rows of each pair differ, so no update leaves its row as it is. The call does nothing.
pub fn rows_of_pairs_differ()
    ensures { (ms : List Marked) → all_differ (pairs_of ms) ≡ true }
{}

/// If nothing is selected, there are no pairs, and the changes stay as they are. The call does nothing.
pub fn nothing_selected_makes_no_difference()
    ensures { (ms : List Marked) → none_selected ms ≡ true → HasNoDifference ms }
{}
