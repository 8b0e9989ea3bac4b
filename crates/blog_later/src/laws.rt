//! What is promised where no change since takes a row with the fingerprint of one that was left.

ghost use Rattle.std.specs.Prelude.{List};
ghost use Rattle.blog_trans.specs.Changes.{Change};
ghost use Rattle.blog_later.specs.Among.{PrintsAmongSuffice, Step};
ghost use Rattle.blog_later.specs.Laws.{PrintsSuffice};

/// If no later change takes a row with the fingerprint of one that selected changes left, the selected changes are untouched. The
/// call does nothing.
pub fn fingerprints_of_left_rows_suffice()
    ensures { (selected later : List Change) → PrintsSuffice selected later }
{}

/// The same where others are among the selected changes: if none of them takes a row with the fingerprint of one that selected changes
/// before it left, the selected changes are untouched. The call does nothing.
pub fn fingerprints_of_rows_left_before_suffice()
    ensures { (ss : List Step) → PrintsAmongSuffice ss }
{}
