//! Statements that a choice of tables passes over.

ghost use Rattle.std.specs.Prelude.{◌≡◌, ◌<◌, length};
ghost use Rattle.blog_event.specs.code.LogView.{log_bytes};
ghost use Rattle.blog_event.specs.Event.{event_of};
ghost use Rattle.blog_row.specs.Kinds.{is_begin_kind};
ghost use Rattle.blog_trans.specs.Places.{kind_at, placed};
ghost use Rattle.blog_choice.specs.code.ChosenView.{names_choice};
ghost use Rattle.blog_request.specs.Passing.{all_leave_alone, has_begin, is_bare, is_passed_over, is_twin_at, is_twin_set, leaves_alone, may_have_twins, names_table, query_schema, query_status, unit_events};

use blog_choice::ChosenNames;
use blog_event::{Event, Log};
use blog_trans::{EventKind, event_kind, query_text};
use byteorder::{ByteOrder, LittleEndian};
use std::alloc::Allocator;

/// Returns the default schema of a query whose body has its layout.
#[tactic(auto, unfolding(crate::specs::Passing::query_schema))]
fn query_schema(body: &[u8]) -> &[u8]
    ensures { result.now ≡ query_schema body.now }
{
    if body.len() < 13 {
        return &[];
    }
    let start = 13 + usize::from(LittleEndian::read_u16(&body[11..]));
    let end = start + usize::from(body[8]);
    &body[start.min(body.len())..end.min(body.len())]
}

/// Returns the status variables of a query whose body has its layout.
fn query_status(body: &[u8]) -> &[u8]
    ensures { result.now ≡ query_status body.now }
{
    if body.len() < 13 {
        return &[];
    }
    let end = 13 + usize::from(LittleEndian::read_u16(&body[11..]));
    &body[13..end.min(body.len())]
}

/// Returns whether a number is that of a collation of armscii8, sjis or ujis.
fn is_twin_set(number: u16) -> bool
    ensures { result ≡ is_twin_set number }
{
    matches!(number % 1024, 32 | 64 | 13 | 88 | 12 | 91)
}

/// Returns whether status variables have such a number at a place, as that of the client's character set.
fn is_twin_at(status: &[u8], place: usize) -> bool
    requires { place < length status.now }
    ensures { result ≡ is_twin_at status.now place }
{
    status[place] == 4
        && status.len() - place >= 3
        && is_twin_set(LittleEndian::read_u16(&status[place + 1..]))
}

/// Returns whether the client of a query may have a character set in which some characters of ASCII have two spellings.
#[tactic(auto, unfolding(crate::specs::Passing::may_have_twins))]
fn may_have_twins(body: &[u8]) -> bool
    ensures { result ≡ may_have_twins body.now }
{
    let status = query_status(body);
    (0..status.len()).any(|place| is_twin_at(status, place))
}

/// Whether a statement names a chosen table. One that can't be read does.
fn names_table<A: Allocator + Copy>(
    names: &ChosenNames<'_, A>,
    inside: bool,
    event: &Event<'_>,
) -> bool
    ensures { result ≡ names_table (names_choice names.now) inside (event_of event.now) }
{
    match query_text(event.body) {
        Some(text) => names.is_named(
            query_schema(event.body),
            text,
            inside,
            may_have_twins(event.body),
        ),
        None => true,
    }
}

/// Whether an event of this kind begins or ends a transaction, is a savepoint, or may be ignored.
fn is_bare(kind: EventKind) -> bool
    ensures { result ≡ is_bare kind }
{
    match kind {
        EventKind::Gtid
        | EventKind::Begin
        | EventKind::Savepoint
        | EventKind::Commit
        | EventKind::Xid
        | EventKind::RowsQuery
        | EventKind::Skippable => true,
        _ => false,
    }
}

/// Whether an event leaves the chosen tables alone.
fn leaves_alone<A: Allocator + Copy>(
    names: &ChosenNames<'_, A>,
    inside: bool,
    event: &Event<'_>,
) -> bool
    ensures { result ≡ leaves_alone (names_choice names.now) inside (kind_at (placed event.now)) (event_of event.now) }
{
    match event_kind(event) {
        EventKind::OtherQuery => !names_table(names, inside, event),
        kind => is_bare(kind),
    }
}

/// Whether an event begins a transaction.
fn is_begin(event: &Event<'_>) -> bool
    ensures { result ≡ is_begin_kind (kind_at (placed event.now)) }
{
    match event_kind(event) {
        EventKind::Begin => true,
        _ => false,
    }
}

/// Whether one of the events between two positions begins a transaction.
fn has_begin(log: &Log<'_>, start: u32, stop: u32) -> bool
    ensures { result ≡ has_begin (unit_events (log_bytes log.now) start stop) }
{
    let mut at = start;
    'events: while at < stop {
        let Ok(event) = log.event_at(at) else {
            return false;
        };
        if is_begin(&event) {
            return true;
        }
        at += event.header.size;
    }
    false
}

/// Whether each of the events between two positions leaves the chosen tables alone.
fn all_leave_alone<A: Allocator + Copy>(
    names: &ChosenNames<'_, A>,
    inside: bool,
    log: &Log<'_>,
    start: u32,
    stop: u32,
) -> bool
    ensures { result ≡ all_leave_alone (names_choice names.now) inside (unit_events (log_bytes log.now) start stop) }
{
    let mut at = start;
    'events: while at < stop {
        let Ok(event) = log.event_at(at) else {
            return true;
        };
        if !leaves_alone(names, inside, &event) {
            return false;
        }
        at += event.header.size;
    }
    true
}

/// Returns whether a choice of tables, by its names, passes over a unit that is refused for a statement: each of its statements names none of
/// the chosen tables, and it has no table maps or rows events. `start` and `stop` are where the unit starts and stops.
pub fn is_passed_over<A: Allocator + Copy>(
    names: &ChosenNames<'_, A>,
    log: &Log<'_>,
    start: u32,
    stop: u32,
) -> bool
    ensures { result ≡ is_passed_over (names_choice names.now) (unit_events (log_bytes log.now) start stop) }
{
    let inside = has_begin(log, start, stop);
    !names.choice().is_all() && all_leave_alone(names, inside, log, start, stop)
}
