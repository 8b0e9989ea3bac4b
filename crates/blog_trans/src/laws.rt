//! What is promised of the opening of a log, and of the transactions that are kept while it is walked.

ghost use Rattle.std.specs.Prelude.{◌≡◌, ℕ, List, [], ◌∷◌, ◌++◌, take, reverse, map, filter, Some, true, false};
ghost use Rattle.std.specs.List.{AllByRecursion, Contains, flat_map};
ghost use Rattle.blog_event.specs.declared.fault.Fault.{Fault};
ghost use Rattle.blog_event.specs.Fault.{first_failing};
ghost use Rattle.blog_event.specs.File.{Placed, placed_from, read};
ghost use Rattle.blog_event.specs.Opening.{opening_fault};
ghost use Rattle.blog_trans.specs.Selection.{Selection};
ghost use Rattle.blog_trans.specs.Places.{place, is_inside, is_begin, is_last_rows, since};
ghost use Rattle.blog_trans.specs.Acceptance.{range, lines, fault, IsAccepted, HavePassed, Passes};
ghost use Rattle.blog_trans.specs.Groups.{statements_of, kept_rows, first_maps, ids_of, placed_groups_in, placed_groups};
ghost use Rattle.blog_trans.specs.code.Progress.{Open, with_rows, progress};
ghost use Rattle.blog_trans.specs.code.StatementMaps.{first_of_ids, is_used};
ghost use Rattle.blog_trans.specs.PlacedFacts.{IsPlacedTransaction};

/// Under every selection, what opening a log refuses is what the first four lines of the log's fault refuse, and so it is
/// the fault of the log. The call does nothing.
pub fn opening_asks_the_first_lines()
    ensures lines { (bytes : List ℕ) (sel : Selection) → opening_fault bytes ≡ first_failing (take 4 (lines bytes sel (read bytes sel.stop))) }
    ensures refused { (bytes : List ℕ) (sel : Selection) (f : Fault) → opening_fault bytes ≡ Some f → fault bytes sel ≡ Some f }
{}

/// Of events that pass their checks and end outside of a transaction, the transactions that the progress has kept are
/// the groups of the events. The call does nothing.
pub fn progress_gives_groups()
    ensures { (sel : Selection) (es : List Placed) → Passes sel [] es → is_inside (place (reverse es)) ≡ false → placed_groups_in sel es ≡ (progress sel (reverse es)).done }
{}

/// Of events among which none is a `BEGIN`, the statements that are cut going forward are those that are seen looking back:
/// a rows event with the end flag ends the statement of which it is the last (`ended`), and the events that are in no
/// statement are those since the last one ended (`joined`). The call does nothing.
pub fn statements_are_those_since()
    ensures ended { (earlier left : List Placed) (p : Placed) → AllByRecursion (λ e. is_begin e ≡ false) earlier → is_last_rows p ≡ true
        → statements_of (reverse earlier ++ p ∷ left) ≡ statements_of (reverse earlier) ++ reverse (p ∷ since earlier) ∷ statements_of left }
    ensures joined { (earlier : List Placed) → AllByRecursion (λ e. is_begin e ≡ false) earlier
        → flat_map (λ s. s) (statements_of (reverse earlier)) ++ reverse (since earlier) ≡ reverse earlier }
{}

/// Of a statement that is open, with one more event that passes its checks, the maps that its kept rows events go by are
/// the used ones of its first maps. The call does nothing.
pub fn statements_have_used_maps()
    ensures { (sel : Selection) (earlier : List Placed) (p : Placed) (o : Open) → HavePassed sel (p ∷ earlier) → (progress sel earlier).current ≡ Some o
        → first_maps (ids_of (with_rows (kept_rows sel (reverse (since earlier)) p) o).rows) (reverse (p ∷ since earlier))
        ≡ filter (is_used sel (p ∷ since earlier)) (first_of_ids (p ∷ since earlier)) }
{}

/// Of any events the groups are made of these: each begins with a `BEGIN` and ends with a `COMMIT` or an Xid, and has a
/// statement; each statement has a map and a rows event; each map is one of a selected table; each rows event goes by
/// one of its statement's maps, and is read by it. The call does nothing.
pub fn groups_are_of_events()
    ensures { (sel : Selection) (es : List Placed) → AllByRecursion (IsPlacedTransaction (Contains es) sel) (placed_groups_in sel es) }
{}

/// The groups of an accepted log are the transactions that the progress over its range has kept. The call does nothing.
pub fn accepted_logs_have_groups()
    ensures { (bytes : List ℕ) (sel : Selection) → IsAccepted bytes sel
        → placed_groups bytes sel ≡ (progress sel (reverse (range sel (placed_from 4 (read bytes sel.stop))))).done }
{}
