//! Looking at what one more log has after a part.

ghost use Rattle.std.specs.Prelude.{◌≡◌, ℕ, ◌+◌, ◌++◌, ◌∷◌, Bool, IfOk, List, [], map, option_map, slice_get};
ghost use Rattle.blog_choice.specs.Choice.{Choice};
ghost use Rattle.blog_choice.specs.code.ChosenView.{names_choice};
ghost use Rattle.blog_event.specs.code.LogView.{log_bytes};
ghost use Rattle.blog_later.specs.Among.{from_first, others_of, touches_by};
ghost use Rattle.blog_later.specs.Later.{later_units, touches_in};
ghost use Rattle.blog_later.specs.code.LookedView.{left_before};
ghost use Rattle.blog_units.specs.Units.{Facts};
ghost use Rattle.blog_source.specs.code.SourceView.{end_of, fault_of, log_of};
ghost use Rattle.blog_trans.specs.Places.{placed};
ghost use Rattle.undo_run.specs.After.{Later, Place as APlace, next_log, place_at, rotated_to};
ghost use Rattle.undo_run.specs.code.NamesView.{names_told};
ghost use Rattle.undo_run.specs.code.SinceView.{AreSeen, IsLooked, later_of, place_seen};

use crate::lines::Lines;
use crate::log_names::Names;
use crate::since::{Place, Since};
use blog_choice::ChosenNames;
use blog_event::constants::ROTATE_EVENT;
use blog_event::{Event, Log};
use blog_later::{LeftRows, Looked, look, look_among};
use blog_source::Source;
use std::alloc::{AllocError, Allocator};

/// The first place, where the first so far is given, and the first of more is the place of the first of some positions.
fn first_place<'n, N: Allocator, B: Allocator>(
    first: Option<Place<'n>>,
    logs: &Names<'n, N>,
    source: &Source<B>,
    positions: &[u32],
) -> Option<Place<'n>>
    ensures { (ps : List APlace) → option_map place_seen first.entry ≡ slice_get ps 0
        → option_map place_seen result ≡ slice_get (ps ++ map (place_at (names_told logs.now) (log_of source.now) (end_of source.now)) positions.now) 0 }
{
    match first {
        Some(place) => Some(place),
        None => match positions.first() {
            Some(at) => Some(logs.place(source.place(*at))),
            None => None,
        },
    }
}

/// Returns the name of the log in which a log goes on, from the Rotate event at its end; no bytes if there is none.
fn next_log<'l>(log: &Log<'l>) -> &'l [u8]
    ensures { result.now ≡ next_log (log_bytes log.now) }
{
    let mut pos = log.first();
    let mut last = None;
    'events: while let Ok(event) = log.event_at(pos) {
        pos += event.header.size;
        last = Some(event);
    }
    match last {
        Some(event) => rotated_to(&event),
        None => &[],
    }
}

/// Returns the name in a Rotate event; no bytes of another.
fn rotated_to<'l>(event: &Event<'l>) -> &'l [u8]
    ensures { result.now ≡ rotated_to (placed event.now) }
{
    if event.header.kind == ROTATE_EVENT && event.body.len() > 8 {
        &event.body[8..]
    } else {
        &[]
    }
}

impl<'n, A: Allocator> Since<'n, A> {
    /// What was seen of no log.
    pub(crate) fn none(alloc: A) -> Since<'n, A>
        ensures { (choice : Choice) → AreSeen 0 choice [] result }
    {
        Since {
            units: 0,
            touched: 0,
            unknown: 0,
            apart: 0,
            first: None,
            end: None,
            next: Vec::new(alloc),
            is_damaged: false,
        }
    }

    /// What was seen with one more log, which goes on in that of a name.
    fn with<N: Allocator, B: Allocator, C: Allocator>(
        &self,
        alloc: A,
        logs: &Names<'n, N>,
        source: &Source<B>,
        looked: &Looked<'_, C>,
        next: &[u8],
    ) -> Result<Since<'n, A>, AllocError>
        requires { next.now ≡ next_log (log_of source.now) }
        ensures { (n m : ℕ) → (choice : Choice) → (us : List Facts) → (ls : List Later) → IsLooked m choice (later_of (names_told logs.now) source.now us) looked.now → AreSeen n choice ls self.now
            → IfOk result (AreSeen (n + m) choice (ls ++ later_of (names_told logs.now) source.now us ∷ [])) }
    {
        let mut goes_on = Vec::new(alloc);
        goes_on.extend_from_slice(next)?;
        Ok(Since {
            units: self.units.saturating_add(looked.units),
            touched: self.touched.saturating_add(looked.touched),
            unknown: self.unknown.saturating_add(looked.unknown.len() as u64),
            apart: self.apart.saturating_add(looked.apart.len() as u64),
            first: first_place(self.first, logs, source, &looked.apart),
            end: Some(logs.place(source.end())),
            next: goes_on,
            is_damaged: self.is_damaged || source.fault().is_some(),
        })
    }
}

/// Looks at what one more log has after a position, or several that are read as one, in bytes from the start of what is handed out of it, and returns what was seen so far.
pub(crate) fn look_on<'n, A: Allocator + Copy, N: Allocator, B: Allocator>(
    alloc: A,
    since: &Since<'n, A>,
    lines: &mut Lines<'_, A>,
    logs: &Names<'n, N>,
    source: &Source<B>,
    log: &Log<'_>,
    at: u32,
    left: &LeftRows<A>,
    lists: u32,
    names: &ChosenNames<'_, A>,
) -> Result<Since<'n, A>, AllocError>
    requires { log_bytes log.now ≡ log_of source.now }
    ensures { (n : ℕ) → (ls : List Later) → AreSeen n (names_choice names.now) ls since.now
        → IfOk result (AreSeen (n + touches_in (left_before left.now lists) (log_of source.now) (later_units (log_of source.now) at)) (names_choice names.now)
        (ls ++ later_of (names_told logs.now) source.now (later_units (log_of source.now) at) ∷ [])) }
{
    let looked = look(alloc, left, lists, names, log, at)?;
    lines.put(logs, source, &looked)?;
    since.with(alloc, logs, source, &looked, next_log(log))
}

/// Looks at what a log has after the first chosen unit, from a position on, but for the chosen units, and returns what was seen. `chosen` says of
/// each unit in turn whether it is chosen.
pub(crate) fn look_between<'n, A: Allocator + Copy, N: Allocator, B: Allocator>(
    alloc: A,
    lines: &mut Lines<'_, A>,
    logs: &Names<'n, N>,
    source: &Source<B>,
    log: &Log<'_>,
    at: u32,
    chosen: &[bool],
    left: &LeftRows<A>,
    names: &ChosenNames<'_, A>,
) -> Result<Since<'n, A>, AllocError>
    requires { log_bytes log.now ≡ log_of source.now }
    ensures { (p : Facts → Bool) → chosen.now ≡ map p (later_units (log_of source.now) at)
        → IfOk result (AreSeen (0 + touches_by (left_before left.now) p (log_of source.now) 0 (from_first p (later_units (log_of source.now) at))) (names_choice names.now)
        (later_of (names_told logs.now) source.now (others_of p (from_first p (later_units (log_of source.now) at))) ∷ [])) }
{
    let looked = look_among(alloc, left, names, chosen, log, at)?;
    lines.put(logs, source, &looked)?;
    Since::none(alloc).with(alloc, logs, source, &looked, next_log(log))
}
