//! Events with another timestamp and another schema.

ghost use Rattle.std.specs.Prelude.{◌≡◌, ◌≤◌, ◌+◌, [], ◌∷◌, ◌++◌, length, map, MatchOption, vec_len, vec_capacity};
ghost use Rattle.std.specs.List.{AllByRecursion};
ghost use Rattle.blog_event.specs.Event.{event_of, event_size, unplaced};
ghost use Rattle.blog_flash.specs.Written.{event_written};
ghost use Rattle.blog_flash.specs.code.LaidOut.{text_from};
ghost use Rattle.blog_flash.specs.code.WrittenView.{rows_told, written_told};
ghost use Rattle.blog_flash.specs.Texts.{rows_event};
ghost use Rattle.blog_sql.specs.Changed.{HasShortNames, changed, changed_map, changed_rows, renamed_body, renamed_schema, retimed};

use crate::options::{Renamed, SqlOptions};
use blog_event::{Event, Header, put_event_from};
use blog_flash::{WrittenEvent, WrittenRows};
use blog_row::TableMap;
use std::alloc::Allocator;

/// Where the name of the schema begins in the body of a table map, and how many bytes are around it: its length before it and
/// a zero after it.
const SCHEMA_AT: usize = 8;

/// Returns the timestamp that is written.
fn timestamp(time: Option<u32>, own: u32) -> u32
    ensures { result ≡ retimed time own }
{
    match time {
        Some(time) => time,
        None => own,
    }
}

/// Returns the new name of a schema, if it has one.
fn new_name<'s>(schemas: &[Renamed<'s>], name: &[u8]) -> Option<&'s [u8]>
    requires { AllByRecursion (λ pair. length pair.to.now ≤ 255) schemas.now }
    ensures { MatchOption result (renamed_schema schemas.now name.now ≡ name.now)
        (λ to. (renamed_schema schemas.now name.now ≡ to.now) × (length to.now ≤ 255)) }
{
    'pairs: for pair in schemas {
        if pair.from == name {
            return Some(pair.to);
        }
    }
    None
}

/// Appends a table map with its new log_pos, its timestamp and its schema changed. `out` has the log from position `from` on.
fn put_map<A: Allocator>(out: &mut Vec<u8, A>, from: usize, event: &Event<'_>, how: &SqlOptions<'_>)
    requires names { HasShortNames how.now }
    requires room { vec_len out.old + event_size (changed_map how.now (unplaced (event_of event.now))) ≤ vec_capacity out.old }
    requires short { from + vec_len out.old + event_size (changed_map how.now (unplaced (event_of event.now))) ≤ 4294967295 }
    ensures items { out.new.items ≡ out.old.items ++ text_from (from + vec_len out.old) (changed_map how.now (unplaced (event_of event.now)) ∷ []) }
    ensures len { vec_len out.new ≡ vec_len out.old + event_size (changed_map how.now (unplaced (event_of event.now))) }
    ensures capacity { vec_capacity out.old ≤ vec_capacity out.new }
{
    let header = Header {
        timestamp: timestamp(how.time, event.header.timestamp),
        ..event.header
    };
    let body = event.body;
    let Ok(map) = TableMap::read(body) else {
        put_event_from(out, from, header, &[body]).unwrap();
        return;
    };
    let schema = map.schema();
    let Some(to) = new_name(how.schemas, schema) else {
        put_event_from(out, from, header, &[body]).unwrap();
        return;
    };
    let after = &body[SCHEMA_AT + 1 + schema.len()..];
    let parts = [&body[..SCHEMA_AT], &[to.len() as u8], to, after];
    put_event_from(out, from, header, &parts).unwrap();
}

/// Appends a rows event with its new log_pos and its timestamp changed.
fn put_rows<A: Allocator>(
    out: &mut Vec<u8, A>,
    from: usize,
    rows: &WrittenRows<'_>,
    how: &SqlOptions<'_>,
)
    requires room { vec_len out.old + event_size (rows_event rows.now.last (changed_rows how.now (rows_told rows.now))) ≤ vec_capacity out.old }
    requires short { from + vec_len out.old + event_size (rows_event rows.now.last (changed_rows how.now (rows_told rows.now))) ≤ 4294967295 }
    ensures items { out.new.items ≡ out.old.items ++ text_from (from + vec_len out.old) (rows_event rows.now.last (changed_rows how.now (rows_told rows.now)) ∷ []) }
    ensures len { vec_len out.new ≡ vec_len out.old + event_size (rows_event rows.now.last (changed_rows how.now (rows_told rows.now))) }
    ensures capacity { vec_capacity out.old ≤ vec_capacity out.new }
{
    let header = Header {
        timestamp: timestamp(how.time, rows.event.header.timestamp),
        ..rows.event.header
    };
    let event = Event {
        header,
        ..rows.event
    };
    WrittenEvent::Rows(WrittenRows { event, ..*rows }).put(out, from);
}

/// Appends an event with its new log_pos, changed. `out` has the log from position `from` on, and room for the event.
pub(crate) fn put_changed<A: Allocator>(
    out: &mut Vec<u8, A>,
    from: usize,
    event: &WrittenEvent<'_>,
    how: &SqlOptions<'_>,
)
    requires names { HasShortNames how.now }
    requires room { vec_len out.old + event_size (event_written (changed how.now (written_told event.now))) ≤ vec_capacity out.old }
    requires short { from + vec_len out.old + event_size (event_written (changed how.now (written_told event.now))) ≤ 4294967295 }
    ensures items { out.new.items ≡ out.old.items ++ text_from (from + vec_len out.old) (event_written (changed how.now (written_told event.now)) ∷ []) }
    ensures len { vec_len out.new ≡ vec_len out.old + event_size (event_written (changed how.now (written_told event.now))) }
    ensures capacity { vec_capacity out.old ≤ vec_capacity out.new }
{
    match event {
        WrittenEvent::Same(_) => event.put(out, from),
        WrittenEvent::Map(map) => put_map(out, from, map, how),
        WrittenEvent::Rows(rows) => put_rows(out, from, rows, how),
    }
}

/// Returns how many bytes the body of a table map has with its schema changed.
pub(crate) fn changed_body_len(body: &[u8], schemas: &[Renamed<'_>]) -> usize
    requires { AllByRecursion (λ pair. length pair.to.now ≤ 255) schemas.now }
    ensures { result ≡ length (renamed_body schemas.now body.now) }
{
    let Ok(map) = TableMap::read(body) else {
        return body.len();
    };
    match new_name(schemas, map.schema()) {
        Some(to) => body.len() - map.schema().len() + to.len(),
        None => body.len(),
    }
}
