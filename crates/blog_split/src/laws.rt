//! What is promised of logs whose statements are cut.

ghost use Rattle.std.specs.Prelude.{◌≡◌, ◌≤◌, ℕ, List, length};
ghost use Rattle.blog_event.specs.File.{AreBytes};
ghost use Rattle.blog_row.specs.declared.order.Order.TheVariants.{Forward, Backward};
ghost use Rattle.blog_trans.specs.Acceptance.{IsAccepted};
ghost use Rattle.blog_trans.specs.Selection.{Selection, all};
ghost use Rattle.blog_trans.specs.Groups.{Transaction, groups};
ghost use Rattle.blog_flash.specs.Reversal.{reversed};
ghost use Rattle.blog_flash.specs.Texts.{flashback_text, normal_text};
ghost use Rattle.blog_split.specs.Laws.{AreSmall, IsSplit, KeepsChanges};
ghost use Rattle.blog_split.specs.code.Greedy.{cut_groups, cut_text};

/// Of each accepted log and selection, each limit, and each way to cut the statements by it: what is laid out is an
/// accepted log, its groups are the cut ones, it has the selected changes in their order and as many transactions, and what
/// is written to undo it gives the state back that was before the selected changes. The call does nothing.
pub fn split_keeps_changes()
    ensures { (limit : ℕ) (bytes : List ℕ) (sel : Selection) (cut : List Transaction) (text : List ℕ) → AreBytes bytes → IsSplit limit bytes sel cut text
        → KeepsChanges limit bytes sel cut text }
{}

/// Where no statement has more bytes of maps and rows events than the limit, nothing is cut, and what is laid out is the
/// normal form, byte for byte. The call does nothing.
pub fn split_of_small_is_normal()
    ensures { (limit : ℕ) (bytes : List ℕ) (sel : Selection) (cut : List Transaction) (text : List ℕ) → AreBytes bytes → IsSplit limit bytes sel cut text
        → AreSmall limit (groups bytes sel) → text ≡ normal_text bytes sel }
{}

/// Of each accepted log and selection, and each limit: the log that `write_cut` writes forward is cut from the log; the one that
/// it writes backward, from the log that undoes the selection. So either has the changes of what it is cut from
/// (`split_keeps_changes`). Each must be short enough for a log. The call does nothing.
pub fn written_cuts_are_split()
    ensures forward { (limit : ℕ) (bytes : List ℕ) (sel : Selection) → IsAccepted bytes sel → length (cut_text Forward limit bytes sel) ≤ 4294967295
        → IsSplit limit bytes sel (cut_groups limit (groups bytes sel)) (cut_text Forward limit bytes sel) }
    ensures backward { (limit : ℕ) (bytes : List ℕ) (sel : Selection) → AreBytes bytes → IsAccepted bytes sel → length (cut_text Backward limit bytes sel) ≤ 4294967295
        → IsSplit limit (flashback_text bytes sel) all (cut_groups limit (reversed (groups bytes sel))) (cut_text Backward limit bytes sel) }
{}
