//! What is promised of the part of the selected changes that can be undone while the rest is left.

ghost use Rattle.std.specs.Prelude.{◌≡◌, List, Some};
ghost use Rattle.blog_flash.specs.States.{State, apply_all};
ghost use Rattle.blog_undo.specs.Laws.{AsIfNever};
ghost use Rattle.blog_undo.specs.Mixed.{Marked, all_changes};
ghost use Rattle.blog_undo.specs.Part.{IsGreatestPart, LeavesOutTouched, untouched_part};

/// The part has selected changes only, and no change outside of it touches a change of it before. Every other choice of selected
/// changes that none of the rest touches is within the part. The call does nothing.
pub fn untouched_part_is_greatest()
    ensures { (ms : List Marked) → IsGreatestPart ms (untouched_part ms) }
{}

/// A selected change that is left out of the part is touched by a change after it that is outside of the part, too. The call
/// does nothing.
pub fn changes_left_out_are_touched()
    ensures { (ms : List Marked) → LeavesOutTouched ms (untouched_part ms) }
{}

/// From every state on which all changes apply: undoing the part, last to first, makes no fault. The tables are then as if only
/// the changes outside of the part had been made. The call does nothing.
pub fn untouched_part_is_taken_back()
    ensures { (ms : List Marked) (before after : State) → apply_all (all_changes ms) before ≡ Some after → AsIfNever (untouched_part ms) before after }
{}
