//! A unit of a log: where it starts and stops, and what it changes.

ghost use Rattle.std.specs.Prelude.{◌≡◌, ◌≤◌, [], None, Some, IfSome, option_map};
ghost use Rattle.blog_event.specs.Event.{event_of};
ghost use Rattle.blog_event.specs.code.LogView.{log_bytes};
ghost use Rattle.blog_units.specs.code.Boundaries.{IsBoundary, events_behind};
ghost use Rattle.blog_units.specs.Units.{id_of, is_query, is_query_or_rows, is_whole, tag_of, thread_of, units_in};
ghost use Rattle.blog_units.specs.code.UnitsView.{HasStopped, IsFirst, id_told, none_seen, or_this, seen_with, timestamp_of};
ghost use Rattle.blog_trans.specs.Places.{kind_at, placed};

use crate::part::{Part, is_query, is_query_or_rows, opened_by};
use crate::unit_facts::UnitFacts;
use blog_event::constants::GTID_LOG_EVENT;
use blog_event::{Event, Fault, Log};
use blog_trans::{EventKind, Index, Selection, event_kind, index_from};
use byteorder::{ByteOrder, LittleEndian};
use std::alloc::{Allocator, Global};

/// A global transaction id (MySQL Internals manual, "Gtid_event").
#[derive(Clone, Copy, Debug, PartialEq, Eq)]
pub struct GlobalId<'a> {
    /// The 16 bytes of the id of the server that began the transaction.
    pub server: &'a [u8],
    /// The tag between the two, empty where there is none.
    pub tag: &'a [u8],
    /// Its number there.
    pub number: u64,
}

impl<'a> UnitFacts<'a> {
    ghost use Rattle.std.specs.Prelude.{true};
    ghost use Rattle.blog_trans.specs.Selection.{selection_of};
    ghost use Rattle.blog_units.specs.Units.{is_behind, range_of_unit};
    ghost use Rattle.blog_units.specs.code.UnitsView.{AreGroups, IsJudged, facts_told};

    /// Looks at the changes of the unit to the tables of a selection, up to the selection's stop, which is behind the unit's start. The
    /// selection's start isn't looked at. Returns the groups, or the fault of that range, or `OutOfMemory` if memory was refused, which
    /// is taken from `alloc`.
    pub fn groups_of<'s, A: Allocator + Copy>(
        &self,
        alloc: A,
        sel: &Selection<'s>,
    ) -> Result<Index<'a, 's, A>, Fault>
        requires { is_behind sel.now.stop self.now.start ≡ true }
        ensures { AreGroups (log_bytes self.now.log) (range_of_unit (selection_of sel.now) (facts_told self.now)) result }
    {
        let stop = match sel.stop {
            Some(stop) => stop.min(self.stop),
            None => self.stop,
        };
        let range = Selection {
            start: self.start,
            stop: Some(stop),
            ..*sel
        };
        index_from(alloc, &self.log, &range, self.start)
    }

    /// Looks at the changes of the unit. Memory for them is taken from `alloc`.
    pub fn with_groups<A: Allocator + Copy>(self, alloc: A) -> Unit<'a, A>
        ensures facts { result.facts ≡ self.entry }
        ensures judged { IsJudged (log_bytes self.entry.log) result }
    {
        Unit {
            facts: self,
            groups: self.groups_of(alloc, &Selection::all()),
        }
    }
}

/// A unit of a log, with what it changes.
#[derive(Drop)]
pub struct Unit<'a, A: Allocator = Global> {
    /// Where it starts and stops, its time, thread and id.
    pub facts: UnitFacts<'a>,
    /// What it changes: the groups of the range from its start to its stop; or the fault of that range, or `OutOfMemory` where
    /// memory for them was refused.
    pub groups: Result<Index<'a, 'static, A>, Fault>,
}

/// What was seen of a unit so far.
#[derive(Clone, Copy, Debug)]
pub(crate) struct Seen {
    /// The time of its first Query or rows event.
    pub(crate) time: Option<u32>,
    /// The thread that wrote its first Query event.
    pub(crate) thread: Option<u32>,
}

impl Seen {
    /// Nothing.
    pub(crate) const NONE: Seen = Seen {
        time: None,
        thread: None,
    };

    /// The same with an event of this kind.
    pub(crate) fn with(self, kind: EventKind, event: &Event<'_>) -> Seen
        requires { kind ≡ kind_at (placed event.now) }
        ensures { result ≡ seen_with self (placed event.now) }
    {
        Seen {
            time: time_with(self.time, kind, event),
            thread: thread_with(self.thread, kind, event),
        }
    }
}

/// The tag in the body of a Gtid event, empty where there is none: the bytes behind the byte 42, behind the 25 of a body.
fn tag_of(body: &[u8]) -> &[u8]
    ensures { result.now ≡ tag_of body.now }
{
    if body.len() > 26 && body[25] == 42 {
        &body[26..]
    } else {
        &[]
    }
}

/// The global transaction id of an event, where it has one.
pub(crate) fn global_id<'a>(event: &Event<'a>) -> Option<GlobalId<'a>>
    ensures { option_map id_told result ≡ id_of (event_of event.now) }
{
    if event.header.kind == GTID_LOG_EVENT && event.body.len() >= 25 {
        Some(GlobalId {
            server: &event.body[1..17],
            tag: tag_of(event.body),
            number: LittleEndian::read_u64(&event.body[17..]),
        })
    } else {
        None
    }
}

/// The next event, from a position on, that begins a unit, its kind, and what the unit has with it.
pub(crate) fn next_first<'a>(log: &Log<'a>, from: u32) -> Option<(Event<'a>, EventKind, Part)>
    requires boundary { IsBoundary (log_bytes log.now) from }
    ensures none { result ≡ None → units_in None (events_behind (log_bytes log.now) from) ≡ [] }
    ensures some { IfSome result (λ found. IsFirst (log_bytes log.now) from (found.0, found.2)) }
    ensures kind { IfSome result (λ found. found.1 ≡ kind_at (placed found.0)) }
{
    let mut at = from;
    'between: while let Ok(event) = log.event_at(at) {
        let kind = event_kind(&event);
        if let Some(part) = opened_by(kind) {
            return Some((event, kind, part));
        }
        at += event.header.size;
    }
    None
}

/// Whether a unit that has this at its end is whole.
pub(crate) fn is_whole(part: Option<Part>) -> bool
    ensures { result ≡ is_whole part }
{
    match part {
        Some(Part::Gtid | Part::Transaction) => false,
        _ => true,
    }
}

/// The time that is known, or else that of an event of this kind, if it is a Query or a rows event.
fn time_with(known: Option<u32>, kind: EventKind, event: &Event<'_>) -> Option<u32>
    requires { kind ≡ kind_at (placed event.now) }
    ensures { result ≡ or_this is_query_or_rows timestamp_of known (placed event.now) }
{
    match known {
        Some(time) => Some(time),
        None if is_query_or_rows(kind, event) => Some(event.header.timestamp),
        None => None,
    }
}

/// Returns the thread that is known, or else the one that wrote an event of this kind, if it is a Query event.
#[tactic(auto, unfolding(crate::specs::Units::thread_of))]
fn thread_with(known: Option<u32>, kind: EventKind, event: &Event<'_>) -> Option<u32>
    requires { kind ≡ kind_at (placed event.now) }
    ensures { result ≡ or_this is_query thread_of known (placed event.now) }
{
    match known {
        Some(thread) => Some(thread),
        None if is_query(kind) => Some(LittleEndian::read_u32(event.body)),
        None => None,
    }
}

/// Goes through the events with which a unit goes on that has a part, from a position on. Answers where the unit stops, what
/// was seen of it, with what is known already, and what it has then.
pub(crate) fn go_through(
    log: &Log<'_>,
    from: u32,
    part: Part,
    known: Seen,
) -> (u32, Seen, Option<Part>)
    requires boundary { IsBoundary (log_bytes log.now) from }
    ensures stopped { HasStopped from result.0 part known result.1 result.2 (events_behind (log_bytes log.now) from) (events_behind (log_bytes log.now) result.0) }
    ensures boundary { IsBoundary (log_bytes log.now) result.0 }
    ensures behind { from ≤ result.0 }
{
    let mut at = from;
    let mut seen = known;
    let mut open = Some(part);
    'events: while let Some(part) = open {
        let Ok(event) = log.event_at(at) else {
            return (at, seen, open);
        };
        let kind = event_kind(&event);
        if !part.goes_on(kind) {
            return (at, seen, open);
        }
        seen = seen.with(kind, &event);
        open = part.continued(kind, &event);
        at += event.header.size;
    }
    (at, seen, None)
}
