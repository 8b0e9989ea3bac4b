//! What is promised of rows that are followed. Each law holds for every function from rows to numbers: equal rows have equal values.

ghost use Rattle.std.specs.Prelude.{ℕ, Bool, List};
ghost use Rattle.blog_followed.specs.Laws.{AreOfOthers, FollowsAlike, FollowsOn, FollowsPairs, TouchingSuffices};
ghost use Rattle.blog_later.specs.Among.{Step};
ghost use Rattle.blog_later.specs.Prints.{HavePrints};
ghost use Rattle.blog_merge.specs.Pairs.{Pair};
ghost use Rattle.blog_trans.specs.Changes.{Change};
ghost use Rattle.blog_trans.specs.Selection.{Selection};
ghost use Rattle.blog_undo.specs.Mixed.{TableRow};
ghost use Rattle.blog_units.specs.Units.{Facts};

/// If the real rows of pairs are followed, only the changes of others that take followed rows make a difference to the pairs, and the real rows
/// of the pairs are followed after them. The call does nothing.
pub fn changes_of_followed_rows_suffice()
    ensures { (f : TableRow → ℕ) (prints : List ℕ) (cs : List Change) (ps : List Pair) → TouchingSuffices f prints cs ps }
{}

/// If the rows that selected changes leave are followed through the changes of others, the real rows of the pairs are followed which the selected
/// changes make that aren't undone by themselves. The call does nothing.
pub fn real_rows_are_followed()
    ensures { (f : TableRow → ℕ) (prints : List ℕ) (marks : List Bool) (ss : List Step) → FollowsPairs f prints marks ss }
{}

/// The changes of others in the steps of a log's units are those of the units that aren't chosen. The call does nothing.
pub fn changes_of_others_are_those_of_their_units()
    ensures { (p : Facts → Bool) (sel : Selection) (bytes : List ℕ) (us : List Facts) → AreOfOthers p sel bytes us }
{}

/// Lists of the same fingerprints follow the same rows. The call does nothing.
pub fn fingerprints_decide_what_is_followed()
    ensures { (f : TableRow → ℕ) (prints kept : List ℕ) (cs : List Change) (ps : List Pair) → HavePrints prints kept → FollowsAlike f prints kept cs ps }
{}

/// Rows are followed through a list of changes, and then through another, as through both. The call does nothing.
pub fn rows_are_followed_through_several_lists()
    ensures { (f : TableRow → ℕ) (prints : List ℕ) (cs ds : List Change) → FollowsOn f prints cs ds }
{}
