//! What is promised of the undo of a merge.

ghost use Rattle.std.specs.Prelude.{◌≡◌, ◌++◌, List};
ghost use Rattle.blog_flash.specs.States.{inverse_all};
ghost use Rattle.blog_merge.specs.Merge.{updates_of};
ghost use Rattle.blog_merge.specs.Pairs.{Pair};
ghost use Rattle.blog_merged.specs.Nets.{nets_of};
ghost use Rattle.blog_trans.specs.Changes.{Change};

/// The undo of a merge undoes the other changes first, and then updates each row to what it would be, that of the last pair first. The call does
/// nothing.
pub fn undo_of_a_merge_updates_rows_last()
    ensures { (ps : List Pair) (cs : List Change) → inverse_all (nets_of ps ++ cs) ≡ inverse_all cs ++ updates_of ps }
{}
