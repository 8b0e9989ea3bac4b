//! What is promised of units of which rows are left as they are, or merged.

ghost use Rattle.std.specs.Prelude.{◌≡◌, ◌≤◌, ◌∷◌, ◌++◌, Bool, List, None, Option, length, ℕ};
ghost use Rattle.blog_event.specs.File.{AreBytes};
ghost use Rattle.blog_flash.specs.States.{inverse_all};
ghost use Rattle.blog_merge.specs.Merge.{updates_of};
ghost use Rattle.blog_sum.specs.declared.fault.SumFault.{SumFault};
ghost use Rattle.blog_trans.specs.Changes.{changes};
ghost use Rattle.blog_trans.specs.Selection.{Selection, all};
ghost use Rattle.blog_undo.specs.Mixed.{selected_changes};
ghost use Rattle.blog_units.specs.Units.{Facts};
ghost use Rattle.list_run.specs.Listed.{NamedLog};
ghost use Rattle.undo_run.specs.Leaving.{log_undone, part_undone};
ghost use Rattle.undo_run.specs.Merging.{IsMergedLog, pairs_left};
ghost use Rattle.undo_run.specs.Several.{Names};
ghost use Rattle.undo_run.specs.Units.{AreSound, chosen_taken, chosen_units, kept_log};

/// The log from which it is written what undoes chosen units, where rows are left as they are, has those changes that are undone, in their order. The
/// call does nothing.
pub fn what_is_written_is_what_is_undone()
    ensures { (names : Names) → (p : Facts → Bool) → (sel : Selection) → (handed : List ℕ) → (end : ℕ) → (fault : Option SumFault) → (logs : List NamedLog) → (u : Facts) → (us : List Facts)
        → chosen_units p sel handed ≡ u ∷ us → AreBytes handed → AreBytes (kept_log sel handed (chosen_units p sel handed)) → AreSound p sel handed None → length (kept_log sel handed (chosen_units p sel handed)) ≤ 4294967295
        → length (log_undone (chosen_taken names p sel handed end fault) logs) ≤ 4294967295
        → changes (log_undone (chosen_taken names p sel handed end fault) logs) all ≡ selected_changes (part_undone (chosen_taken names p sel handed end fault) logs) }
{}

/// The undo of a log from which it is written what undoes chosen units, where rows are merged, undoes those changes of the part, and then updates each
/// other row to what it would be, that of the last pair first. The call does nothing.
pub fn what_is_merged_is_what_is_undone()
    ensures { (names : Names) → (p : Facts → Bool) → (sel : Selection) → (handed : List ℕ) → (end : ℕ) → (fault : Option SumFault) → (logs : List NamedLog) → (u : Facts) → (us : List Facts) → (log : List ℕ)
        → chosen_units p sel handed ≡ u ∷ us → AreBytes handed → AreSound p sel handed None → length (kept_log sel handed (chosen_units p sel handed)) ≤ 4294967295
        → IsMergedLog (chosen_taken names p sel handed end fault) logs log
        → inverse_all (changes log all) ≡ inverse_all (selected_changes (part_undone (chosen_taken names p sel handed end fault) logs)) ++ updates_of (pairs_left (chosen_taken names p sel handed end fault) logs) }
{}
