//! What is promised of the logs that are written.

ghost use Rattle.std.specs.Prelude.{◌≡◌, ℕ, List};
ghost use Rattle.blog_event.specs.File.{AreBytes};
ghost use Rattle.blog_trans.specs.Selection.{Selection, all};
ghost use Rattle.blog_trans.specs.Acceptance.{IsAccepted};
ghost use Rattle.blog_trans.specs.Groups.{placed_groups};
ghost use Rattle.blog_trans.specs.Changes.{changes};
ghost use Rattle.blog_flash.specs.States.{inverse_all};
ghost use Rattle.blog_flash.specs.Texts.{normal_text, flashback_text};
ghost use Rattle.blog_trans.specs.Shown.{ShowsEachOnce};
ghost use Rattle.blog_flash.specs.Shown.{GoByOwnMaps};
ghost use Rattle.blog_flash.specs.Agreement.{MapsAgree};
ghost use Rattle.blog_flash.specs.Theorems.{Undoes, IsNormal, StopsAnywhere, IsNoLonger};

/// Of each accepted log and selection the log that is written to undo it gives the state back: from every state on
/// which the selected changes apply, the written ones then apply without a fault, and leave each table with as many
/// copies of each row as before. The written log is accepted too, and what is written to undo it has the selected
/// changes. The call does nothing.
pub fn flashback_undoes()
    ensures { (bytes : List ℕ) (sel : Selection) → AreBytes bytes → IsAccepted bytes sel → Undoes bytes sel (flashback_text bytes sel) }
{}

/// Of each accepted log and selection the normal form is an accepted log with the same changes, and the normal form of
/// itself. The log that undoes it is the one that undoes the selection, byte for byte, and undoing the selection twice
/// gives the normal form. The call does nothing.
pub fn forward_is_normal()
    ensures { (bytes : List ℕ) (sel : Selection) → AreBytes bytes → IsAccepted bytes sel → IsNormal bytes sel (normal_text bytes sel) }
{}

/// Of each accepted log and selection the log that is written to undo it can be stopped behind each of its
/// transactions. Its front up to the k-th end event is an accepted log of k transactions. From every state on which the
/// selected changes apply, the front leads back to the state that all but the last k selected transactions give. The
/// call does nothing.
pub fn every_stop_stands()
    ensures { (bytes : List ℕ) (sel : Selection) → AreBytes bytes → IsAccepted bytes sel → StopsAnywhere bytes sel (flashback_text bytes sel) }
{}

/// Of each accepted log and selection neither the log that is written to undo it nor the normal form has more bytes than
/// the log, so written positions fit where the log's do. The call does nothing.
pub fn written_logs_are_no_longer()
    ensures { (bytes : List ℕ) (sel : Selection) → AreBytes bytes → IsAccepted bytes sel → IsNoLonger bytes sel }
{}

/// Of each accepted log and selection the groups have events of the range, none of them twice, and so no more than that
/// has; their sizes and the position behind the event at 4 add up to at most the length of the log. Of every log each rows
/// event of the groups goes by the map of its table id that its statement has. The call does nothing.
pub fn groups_show_each_event_once()
    ensures maps { (bytes : List ℕ) (sel : Selection) → GoByOwnMaps (placed_groups bytes sel) }
    ensures once { (bytes : List ℕ) (sel : Selection) → AreBytes bytes → IsAccepted bytes sel → ShowsEachOnce bytes sel }
{}

/// Of each accepted log and selection each table map of the groups has names and a layout, and any two maps of the same
/// table have the same layout, wherever they stand. The call does nothing.
pub fn maps_agree_on_layouts()
    ensures { (bytes : List ℕ) (sel : Selection) → AreBytes bytes → IsAccepted bytes sel → MapsAgree bytes sel }
{}

/// Of each accepted log and selection the changes of the log that is written to undo it are the inverse of the selected
/// ones: the last first, a delete for an insert, an insert for a delete, and an update back. The call does nothing.
pub fn written_changes_are_inverse()
    ensures { (bytes : List ℕ) (sel : Selection) → AreBytes bytes → IsAccepted bytes sel → changes (flashback_text bytes sel) all ≡ inverse_all (changes bytes sel) }
{}
