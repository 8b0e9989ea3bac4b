//! Events to write, and how one is appended to a log.

ghost use Rattle.std.specs.Prelude.{◌≡◌, ◌+◌, ◌≤◌, List, [], ◌∷◌, ◌++◌, length, take, vec_len, vec_capacity};
ghost use Rattle.blog_event.specs.Event.{event_of, event_size, unplaced};
ghost use Rattle.blog_row.specs.code.RowsEventView.{rows_content};
ghost use Rattle.blog_row.specs.RowsWriting.{content_in, written_body};
ghost use Rattle.blog_flash.specs.code.LaidOut.{text_from};

use blog_event::{Event, HEADER_LEN, Header, open_event_from, put_event_from};
use blog_row::{Order, RowsEvent};
use std::alloc::Allocator;

/// A rows event to write.
#[derive(Clone, Copy, Debug)]
pub struct WrittenRows<'a> {
    /// The event as it was read.
    pub event: Event<'a>,
    /// The body of its table map.
    pub map: &'a [u8],
    /// Its rows, as they were read.
    pub rows: RowsEvent<'a>,
    /// The order in which the rows are written. Backward, they are undone, the last one first.
    pub order: Order,
    /// Whether it is the last of its statement.
    pub last: bool,
}

/// An event to write.
#[derive(Clone, Copy, Debug)]
pub enum WrittenEvent<'a> {
    /// A `BEGIN`, or the event that ends a transaction.
    Same(Event<'a>),
    /// A table map.
    Map(Event<'a>),
    /// A rows event.
    Rows(WrittenRows<'a>),
}

/// Appends an event with its new log_pos. `out` has the log from position `from` on.
#[inline(always)]
fn put_same<A: Allocator>(out: &mut Vec<u8, A>, from: usize, event: &Event<'_>)
    requires room { vec_len out.old + event_size (event_of event.now) ≤ vec_capacity out.old }
    requires short { from + vec_len out.old + event_size (event_of event.now) ≤ 4294967295 }
    ensures items { out.new.items ≡ out.old.items ++ text_from (from + vec_len out.old) (unplaced (event_of event.now) ∷ []) }
    ensures len { vec_len out.new ≡ vec_len out.old + event_size (event_of event.now) }
    ensures capacity { vec_capacity out.old ≤ vec_capacity out.new }
{
    put_event_from(out, from, event.header, &[event.body]).unwrap();
}

/// Writes the body of a rows event over the last bytes, from position `at` on.
#[inline(always)]
fn put_body_at<A: Allocator>(
    out: &mut Vec<u8, A>,
    at: usize,
    order: Order,
    rows: &RowsEvent<'_>,
    last: bool,
)
    requires room { vec_len out.old ≡ at + length (written_body last (content_in order (rows_content rows.now))) }
    ensures items { out.new.items ≡ take at out.old.items ++ written_body last (content_in order (rows_content rows.now)) }
    ensures len { vec_len out.new ≡ vec_len out.old }
    ensures capacity { vec_capacity out.old ≤ vec_capacity out.new }
{
    rows.put_body(order, last, &mut out[at..]);
}

impl<'a> WrittenRows<'a> {
    ghost use Rattle.blog_flash.specs.Texts.{rows_event};
    ghost use Rattle.blog_flash.specs.code.WrittenView.{rows_told};

    /// Appends the rows event: without extra bytes, with its rows in their order, and with the end flag if it is the last of its
    /// statement.
    #[inline(always)]
    fn put<A: Allocator>(&self, out: &mut Vec<u8, A>, from: usize)
        requires room { vec_len out.old + event_size (rows_event self.now.last (rows_told self.now)) ≤ vec_capacity out.old }
        requires short { from + vec_len out.old + event_size (rows_event self.now.last (rows_told self.now)) ≤ 4294967295 }
        ensures items { out.new.items ≡ out.old.items ++ text_from (from + vec_len out.old) (rows_event self.now.last (rows_told self.now) ∷ []) }
        ensures len { vec_len out.new ≡ vec_len out.old + event_size (rows_event self.now.last (rows_told self.now)) }
        ensures capacity { vec_capacity out.old ≤ vec_capacity out.new }
    {
        let header = Header {
            kind: self.order.kind(self.rows.kind()).number(),
            ..self.event.header
        };
        let body = open_event_from(out, from, header, self.rows.body_len()).unwrap();
        put_body_at(out, body, self.order, &self.rows, self.last);
    }
}

impl<'a> WrittenEvent<'a> {
    ghost use Rattle.blog_flash.specs.Written.{event_written};
    ghost use Rattle.blog_flash.specs.code.WrittenView.{written_told};

    /// Returns how many bytes its body has.
    #[inline(always)]
    pub fn body_len(&self) -> usize
        ensures { event_size (event_written (written_told self.now)) ≡ 19 + result }
    {
        match self {
            WrittenEvent::Same(event) | WrittenEvent::Map(event) => event.body.len(),
            WrittenEvent::Rows(rows) => rows.rows.body_len(),
        }
    }

    /// Appends the event with its new log_pos. `out` has the log from position `from` on, and room for the event. The event must
    /// end at 4,294,967,295 or before.
    #[inline(always)]
    pub fn put<A: Allocator>(&self, out: &mut Vec<u8, A>, from: usize)
        requires room { vec_len out.old + event_size (event_written (written_told self.now)) ≤ vec_capacity out.old }
        requires short { from + vec_len out.old + event_size (event_written (written_told self.now)) ≤ 4294967295 }
        ensures items { out.new.items ≡ out.old.items ++ text_from (from + vec_len out.old) (event_written (written_told self.now) ∷ []) }
        ensures len { vec_len out.new ≡ vec_len out.old + event_size (event_written (written_told self.now)) }
        ensures capacity { vec_capacity out.old ≤ vec_capacity out.new }
    {
        match self {
            WrittenEvent::Same(event) | WrittenEvent::Map(event) => put_same(out, from, event),
            WrittenEvent::Rows(rows) => rows.put(out, from),
        }
    }
}
