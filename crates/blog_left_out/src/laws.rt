//! What is promised of groups of which rows are left out.

ghost use Rattle.std.specs.Prelude.{◌≡◌, ◌≤◌, ℕ, Bool, List, length, replicate, true};
ghost use Rattle.blog_event.specs.File.{AreBytes};
ghost use Rattle.blog_trans.specs.Acceptance.{IsAccepted};
ghost use Rattle.blog_trans.specs.Changes.{Change, changes};
ghost use Rattle.blog_trans.specs.Groups.{groups};
ghost use Rattle.blog_trans.specs.Selection.{Selection, all};
ghost use Rattle.blog_left_out.specs.LeftOut.{kept, left_out_text, transactions_kept};

/// The log of the rows that stay is accepted. The call does nothing.
pub fn logs_of_those_that_stay_are_accepted()
    ensures { (ms : List Bool) → (bytes : List ℕ) → (sel : Selection) → AreBytes bytes → IsAccepted bytes sel → length (left_out_text ms bytes sel) ≤ 4294967295
        → IsAccepted (left_out_text ms bytes sel) all }
{}

/// It has the groups that stay. The call does nothing.
pub fn groups_are_those_that_stay()
    ensures { (ms : List Bool) → (bytes : List ℕ) → (sel : Selection) → AreBytes bytes → IsAccepted bytes sel → length (left_out_text ms bytes sel) ≤ 4294967295
        → groups (left_out_text ms bytes sel) all ≡ transactions_kept ms (groups bytes sel) }
{}

/// Its changes are those whose mark is true, in order. The call does nothing.
pub fn changes_are_those_that_stay()
    ensures { (ms : List Bool) → (bytes : List ℕ) → (sel : Selection) → AreBytes bytes → IsAccepted bytes sel → length (left_out_text ms bytes sel) ≤ 4294967295
        → changes (left_out_text ms bytes sel) all ≡ kept ms (changes bytes sel) }
{}

/// Where all stay, these are all. The call does nothing.
pub fn all_that_stay_are_all()
    ensures { (cs : List Change) → kept (replicate (length cs) true) cs ≡ cs }
{}
