//! Laws of the definitions.

ghost use Rattle.std.specs.Prelude.{◌≡◌, ℕ, List, length, Option, None};
ghost use Rattle.blog_event.specs.Event.{Event};
ghost use Rattle.blog_event.specs.File.{AreBytes, ReadsEvent, ReadsLongest};
ghost use Rattle.blog_event.specs.code.Going.{AreRead, IsLeft, ReadsOn, FrontsGrow};
ghost use Rattle.blog_event.specs.Items.{items_from, items_of};
ghost use Rattle.blog_event.specs.Opening.{opening_fault, OpensLogs};

/// An event is read at a position exactly where it stands there: its fields fit theirs, and the bytes from the position on
/// begin with its text. The call does nothing.
pub fn reading_an_event_is_exact()
    ensures exact { (bytes : List ℕ) (at : ℕ) → AreBytes bytes → ReadsEvent bytes at }
{}

/// Of each list of bytes and each stop the computed list of events is the one longest list with which the bytes
/// begin, each event but the first starting below the stop. The call does nothing.
#[tactic(auto, using(crate::proofs::Framing::reads_longest))]
pub fn read_list_is_longest()
    ensures longest { (bytes : List ℕ) (stop : Option ℕ) → AreBytes bytes → ReadsLongest bytes stop }
{}

/// Bytes are opened as a log exactly where they have its parts: fewer than 4,294,967,296 bytes, the magic number, and behind
/// it a format description of this profile. The call does nothing.
#[tactic(auto, using(crate::proofs::Openings::opens_logs))]
pub fn opened_logs_have_their_parts()
    ensures parts { (bytes : List ℕ) → OpensLogs bytes }
{}

/// Of a log that is opened and each stop the computed list of events is the event at the position 4 and the events that are
/// left behind it, and they end within the log. The call does nothing.
pub fn opened_log_is_read_on()
    ensures read_on { (bytes : List ℕ) (stop : Option ℕ) → opening_fault bytes ≡ None → ReadsOn bytes stop }
{}

/// The events that are left to be read from a position on are determined, and end within the bytes if the position lies
/// there. The call does nothing.
#[tactic(auto, using(crate::proofs::Going::is_left))]
pub fn events_left_are_determined()
    ensures left { (bytes : List ℕ) (stop : Option ℕ) (at : ℕ) (es : List Event) → AreRead bytes stop at es → IsLeft bytes stop at es }
{}

/// The items that a log gives from a position on are the events that are left there with no stop, each with its start, and
/// then a fault if they don't reach to the log's end. The call does nothing.
#[tactic(auto, using(crate::proofs::Going::items_left))]
pub fn items_are_the_events_left()
    ensures items { (bytes : List ℕ) (at : ℕ) (es : List Event) → AreRead bytes None at es → items_from bytes at ≡ items_of at (length bytes) es }
{}

/// Events with which bytes begin, each but the first starting below the stop, are made one by one: the first behind the
/// magic number, each further one behind those before, and where none is left they are the computed list. The call does
/// nothing.
#[tactic(auto, using(crate::proofs::Going::fronts_grow))]
pub fn fronts_grow_to_the_read_list()
    ensures fronts { (bytes : List ℕ) (stop : Option ℕ) → AreBytes bytes → FrontsGrow bytes stop }
{}
