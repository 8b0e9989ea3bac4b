//! Laws of a plain log.

ghost use Rattle.std.specs.Prelude.{◌≡◌, ◌≤◌, List, ℕ, drop, false, length, None};
ghost use Rattle.std.specs.List.{AllByRecursion};
ghost use Rattle.blog_event.specs.File.{AreBytes, placed_from, read};
ghost use Rattle.blog_event.specs.Opening.{opening_fault};
ghost use Rattle.blog_sum.specs.Sums.{has_sums, sum_fault};
ghost use Rattle.blog_source.specs.Laws.{IsEnded, StayThemselves};
ghost use Rattle.blog_source.specs.Plain.{plain_events, plain_log};
ghost use Rattle.blog_source.specs.Whole.{reading_fault};

/// The plain log of a log opens as a log, and is no longer than the log. The call does nothing.
#[tactic(auto, using(crate::proofs::PlainLog::plain_opens, crate::proofs::PlainLog::plain_no_longer))]
pub fn plain_logs_open()
    ensures opened { (bytes : List ℕ) → AreBytes bytes → reading_fault bytes ≡ None → opening_fault (plain_log bytes) ≡ None }
    ensures length { (bytes : List ℕ) → AreBytes bytes → reading_fault bytes ≡ None → length (plain_log bytes) ≤ length bytes }
{}

/// Reading the plain log of a log gives its events. The call does nothing.
#[tactic(auto, using(crate::proofs::PlainLog::plain_read_again))]
pub fn plain_log_has_the_events()
    ensures events { (bytes : List ℕ) → AreBytes bytes → reading_fault bytes ≡ None → read (plain_log bytes) None ≡ plain_events (has_sums bytes) (read bytes None) }
{}

/// The plain log of a log has no sums, and is its own plain log. The call does nothing.
#[tactic(auto, using(crate::proofs::PlainLog::plain_unsummed, crate::proofs::PlainLog::plain_fine, crate::proofs::PlainLog::plain_read, crate::proofs::PlainLog::plain_same))]
pub fn plain_log_is_its_own()
    ensures unsummed { (bytes : List ℕ) → AreBytes bytes → reading_fault bytes ≡ None → has_sums (plain_log bytes) ≡ false }
    ensures accepted { (bytes : List ℕ) → AreBytes bytes → reading_fault bytes ≡ None → sum_fault (plain_log bytes) ≡ None }
    ensures read { (bytes : List ℕ) → AreBytes bytes → reading_fault bytes ≡ None → reading_fault (plain_log bytes) ≡ None }
    ensures same { (bytes : List ℕ) → AreBytes bytes → reading_fault bytes ≡ None → plain_log (plain_log bytes) ≡ plain_log bytes }
{}

/// A log without sums is its own plain log, if each event stays itself and its log_pos is where it ends. The call does nothing.
#[tactic(auto, using(crate::proofs::PlainLog::plain_kept))]
pub fn unsummed_logs_are_plain()
    ensures same { (bytes : List ℕ) → AreBytes bytes → reading_fault bytes ≡ None → has_sums bytes ≡ false → StayThemselves (read bytes None)
        → AllByRecursion IsEnded (drop 1 (placed_from 4 (read bytes None))) → plain_log bytes ≡ bytes }
{}
