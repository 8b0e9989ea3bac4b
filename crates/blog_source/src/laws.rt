//! Laws of a log that is handed out.

ghost use Rattle.std.specs.Prelude.{◌≡◌, ◌≤◌, List, ℕ, drop, false, length, map, Some, None};
ghost use Rattle.std.specs.List.{AllByRecursion};
ghost use Rattle.blog_event.specs.Event.{unplaced};
ghost use Rattle.blog_event.specs.File.{AreBytes, placed_from, read};
ghost use Rattle.blog_event.specs.Opening.{opening_fault};
ghost use Rattle.blog_sum.specs.declared.fault.SumFault.{SumFault};
ghost use Rattle.blog_sum.specs.Sums.{has_sums, sum_fault};
ghost use Rattle.blog_source.specs.declared.reading.Reading.{Reading};
ghost use Rattle.blog_source.specs.Found.{found_of, source_refusal};
ghost use Rattle.blog_source.specs.Handed.{handed_events, handed_log};
ghost use Rattle.blog_source.specs.Laws.{IsUnmoved, StayThemselves, StandsIn, handed_out, placed_of, whole_reading};
ghost use Rattle.blog_source.specs.Places.{place_of, position_of};
ghost use Rattle.blog_source.specs.Whole.{NoneEncrypted};

/// The log that is handed out opens as a log, and is no longer than the server's log. The call does nothing.
#[tactic(auto, using(crate::proofs::HandedLog::handed_opens, crate::proofs::HandedLog::handed_no_longer))]
pub fn handed_logs_open()
    ensures opened { (how : Reading) (bytes : List ℕ) → AreBytes bytes → source_refusal bytes ≡ None → opening_fault (handed_log how bytes) ≡ None }
    ensures length { (how : Reading) (bytes : List ℕ) → AreBytes bytes → source_refusal bytes ≡ None → length (handed_log how bytes) ≤ length bytes }
{}

/// Reading the log that is handed out gives the events that are handed out. The call does nothing.
#[tactic(auto, using(crate::proofs::HandedLog::handed_read_again))]
pub fn handed_log_has_the_events()
    ensures events { (how : Reading) (bytes : List ℕ) → AreBytes bytes → source_refusal bytes ≡ None
        → read (handed_log how bytes) None ≡ handed_events how (has_sums bytes) (length bytes) (read bytes how.stop) }
{}

/// Reading a log to its end, or to its first fault, finds the fault that a check of its sums finds, if nothing in it is encrypted. So
/// such a log opens, and without a fault, exactly where that check finds none. The call does nothing.
#[tactic(auto, using(crate::proofs::WholeReading::whole_fault, crate::proofs::WholeReading::whole_refused))]
pub fn whole_reading_finds_the_sums_faults()
    ensures fault { (bytes : List ℕ) → source_refusal bytes ≡ None → NoneEncrypted (read bytes None) → (found_of whole_reading bytes).fault ≡ sum_fault bytes }
    ensures refusal { (bytes : List ℕ) (fault : SumFault) → source_refusal bytes ≡ Some fault → sum_fault bytes ≡ Some fault }
{}

/// An event that is handed out begins at a position. The place of that position is where its event begins in the server's log. The
/// position of that place is where the first event begins that is handed out for the same event. The call does nothing.
#[tactic(auto, using(crate::proofs::HandedPlaces::handed_are, crate::proofs::HandedPlaces::handed_sources, crate::proofs::HandedPlaces::handed_places, crate::proofs::HandedPlaces::handed_positions, crate::proofs::HandedPlaces::handed_firsts))]
pub fn places_are_of_the_source()
    ensures are { (how : Reading) (bytes : List ℕ) → AreBytes bytes → source_refusal bytes ≡ None
        → map placed_of (handed_out how bytes) ≡ drop 1 (placed_from 4 (read (handed_log how bytes) None)) }
    ensures source { (how : Reading) (bytes : List ℕ) → AreBytes bytes → source_refusal bytes ≡ None
        → AllByRecursion (λ h. StandsIn bytes h.source) (handed_out how bytes) }
    ensures place { (how : Reading) (bytes : List ℕ) → AreBytes bytes → source_refusal bytes ≡ None
        → AllByRecursion (λ h. place_of (handed_log how bytes) (found_of how bytes).end h.at ≡ h.source.pos) (handed_out how bytes) }
    ensures position { (how : Reading) (bytes : List ℕ) → AreBytes bytes → source_refusal bytes ≡ None
        → AllByRecursion (λ h. position_of (handed_log how bytes) h.source.pos ≡ h.first) (handed_out how bytes) }
    ensures first { (how : Reading) (bytes : List ℕ) → AreBytes bytes → source_refusal bytes ≡ None → AllByRecursion (λ h. h.first ≤ h.at) (handed_out how bytes) }
{}

/// Each event that is read of a log without sums is handed out, if each stays itself. Only its log_pos changes, and it begins at the
/// same position. The call does nothing.
#[tactic(auto, using(crate::proofs::Unmoved::unsummed_events, crate::proofs::Unmoved::unsummed_unmoved))]
pub fn unsummed_logs_keep_their_places()
    ensures events { (how : Reading) (bytes : List ℕ) → AreBytes bytes → source_refusal bytes ≡ None → has_sums bytes ≡ false → StayThemselves (read bytes how.stop)
        → map unplaced (read (handed_log how bytes) None) ≡ map unplaced (read bytes how.stop) }
    ensures places { (how : Reading) (bytes : List ℕ) → source_refusal bytes ≡ None → has_sums bytes ≡ false → StayThemselves (read bytes how.stop)
        → AllByRecursion IsUnmoved (handed_out how bytes) }
{}
