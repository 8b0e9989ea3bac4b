//! A further log of a server, whose events are handed out behind those of the logs before it.

ghost use Rattle.std.specs.Prelude.{◌≡◌, ◌+◌, ◌<◌, ◌^◌, ◌++◌, IfErr, IfOk, None, OnOk, drop, length, map, take, false, true};
ghost use Rattle.std.specs.List.{flat_map, list_all, list_any};
ghost use Rattle.blog_event.specs.Event.{event_of, event_text};
ghost use Rattle.blog_event.specs.File.{events_from};
ghost use Rattle.blog_event.specs.Opening.{opening_fault};
ghost use Rattle.blog_event.specs.Writing.{header_text};
ghost use Rattle.blog_source.specs.Appended.{appended, are_alike, are_of_one_server, format_server, is_of_log, is_own_by, lengths_of, moved_on};
ghost use Rattle.blog_source.specs.code.Appending.{RefusesMoved};

use crate::source::{Source, format_time};
use blog_event::constants::PREVIOUS_GTIDS_LOG_EVENT;
use blog_event::{Event, Header, event_at, header_bytes};
use blog_sum::SumFault;
use std::alloc::{AllocError, Allocator};

/// Why a further log isn't read behind others.
#[derive(Clone, Copy, Debug, PartialEq, Eq)]
pub enum AppendFault {
    /// The log before it wasn't read to its end, for this fault at its place in that log.
    Damaged(SumFault),
    /// It is of another server, or of another version.
    OtherServer,
    /// It is older than the log before it.
    OutOfOrder,
    /// The logs have more than 4,294,967,295 bytes together.
    TooLong,
    /// Memory was refused.
    OutOfMemory,
}

impl From<AllocError> for AppendFault {
    ghost use Rattle.blog_source.specs.declared.append.AppendFault.TheVariants.{OutOfMemory};

    ghost from_gives = { λ _ fault. fault ≡ OutOfMemory };

    fn from(_error: AllocError) -> AppendFault {
        AppendFault::OutOfMemory
    }
}

/// How many bytes of the body of a format description are in front of the lengths of headers.
const LENGTHS_AT: usize = 56;

/// How many bytes the checksum algorithm and the sum have.
const TAIL_LEN: usize = 5;

/// How many bytes of it have the versions of the log and of the server.
const VERSIONS_LEN: usize = 52;

/// The versions of the log and of the server.
fn versions_of<'a>(body: &'a [u8]) -> &'a [u8]
    ensures { result.now ≡ take 52 body.now }
{
    if body.len() < VERSIONS_LEN {
        body
    } else {
        &body[..VERSIONS_LEN]
    }
}

/// The lengths that a format description has.
fn lengths_of<'a>(format: &Event<'a>) -> &'a [u8]
    ensures { result.now ≡ lengths_of (event_of format.now) }
{
    let body = format.body;
    if body.len() < LENGTHS_AT + TAIL_LEN {
        &[]
    } else {
        &body[LENGTHS_AT..body.len() - TAIL_LEN]
    }
}

/// Whether two format descriptions are of one server.
fn are_alike(one: &Event<'_>, other: &Event<'_>) -> bool
    ensures { result ≡ are_alike (event_of one.now) (event_of other.now) }
{
    one.header.server_id == other.header.server_id
        && one.body.len() == other.body.len()
        && versions_of(one.body) == versions_of(other.body)
        && lengths_of(one) == lengths_of(other)
}

/// Whether two logs are of one server.
fn are_of_one_server(log: &[u8], further: &[u8]) -> bool
    ensures { result ≡ are_of_one_server log.now further.now }
{
    match event_at(log, 4) {
        Some(one) => match event_at(further, 4) {
            Some(other) => are_alike(&one, &other),
            None => false,
        },
        None => false,
    }
}

/// Whether an event is no list of the GTIDs before the log.
fn is_of_log(event: &Event<'_>) -> bool
    ensures { result ≡ is_of_log (event_of event.now) }
{
    event.header.kind != PREVIOUS_GTIDS_LOG_EVENT
}

/// Whether a log has such an event from a position on.
fn has_events(log: &[u8], first: u32) -> bool
    requires short { length log.now < 2 ^ 32 }
    ensures { result ≡ list_any is_of_log (events_from (length log.now) None first (drop first log.now)) }
{
    let mut at = first;
    'events: while let Some(event) = event_at(log, at) {
        if is_of_log(&event) {
            return true;
        }
        at += event.header.size;
    }
    false
}

/// Whether an event is one of a server, and not later than a time.
fn is_own_by(event: &Event<'_>, server: u32, time: u32) -> bool
    ensures { result ≡ is_own_by server time (event_of event.now) }
{
    event.header.server_id == server && event.header.timestamp <= time
}

/// Whether each event of a log from a position on is one of a server, and none is later than a time.
fn are_own_by(log: &[u8], first: u32, server: u32, time: u32) -> bool
    requires short { length log.now < 2 ^ 32 }
    ensures { result ≡ list_all (is_own_by server time) (events_from (length log.now) None first (drop first log.now)) }
{
    let mut at = first;
    'events: while let Some(event) = event_at(log, at) {
        if !is_own_by(&event, server, time) {
            return false;
        }
        at += event.header.size;
    }
    true
}

/// The number of the server that wrote a log; 0 where there is no format description.
fn format_server(log: &[u8]) -> u32
    ensures { result ≡ format_server log.now }
{
    match event_at(log, 4) {
        Some(format) => format.header.server_id,
        None => 0,
    }
}

/// Appends an event with this header.
fn put_event<A: Allocator>(
    out: &mut Vec<u8, A>,
    header: Header,
    body: &[u8],
) -> Result<(), AllocError>
    ensures { OnOk result (out.new.items ≡ out.old.items ++ (header_text header ++ body.now)) }
{
    out.extend_from_slice(&header_bytes(header))?;
    out.extend_from_slice(body)
}

/// Appends the events of a log from a position on. The log begins at the place `start`.
fn put_moved<A: Allocator>(
    out: &mut Vec<u8, A>,
    log: &[u8],
    first: u32,
    start: u32,
) -> Result<(), AppendFault>
    requires short { length log.now < 2 ^ 32 }
    ensures text { OnOk result (out.new.items ≡ out.old.items ++ flat_map event_text (map (moved_on start) (events_from (length log.now) None first (drop first log.now)))) }
    ensures refused { IfErr result (RefusesMoved start (events_from (length log.now) None first (drop first log.now))) }
{
    let mut at = first;
    'events: while let Some(event) = event_at(log, at) {
        let Some(place) = start.checked_add(event.header.log_pos) else {
            return Err(AppendFault::TooLong);
        };
        let header = Header {
            log_pos: place,
            ..event.header
        };
        put_event(out, header, event.body)?;
        at += event.header.size;
    }
    Ok(())
}

impl<A: Allocator> Source<A> {
    ghost use Rattle.blog_source.specs.Appended.{is_older};
    ghost use Rattle.blog_source.specs.code.Appending.{RefusesFurther};
    ghost use Rattle.blog_source.specs.code.SourceView.{damaged_of, end_of, fault_of, log_of, time_of};

    /// Reads a further log of the server behind those that were read: its events follow, and each of its places is counted from the start of the
    /// first log, as if the server had written one file. So its first byte is where the reading of the log before it ended. Then `fault` is
    /// that of the further log, by its own places.
    ///
    /// Fails at the first of these that holds: with `Damaged` if the reading of the log before it ended with a fault; with `OtherServer` if the
    /// format descriptions have another version of the log or of the server, other lengths, or another number of the server; with `OutOfOrder`
    /// if the format description of the further log has an earlier time than that of the log before it, and it has events, of which all are the server's
    /// own and none is later;
    /// with `TooLong` if all logs together have more than 4,294,967,295 bytes, or with `OutOfMemory`.
    pub fn append<B: Allocator>(self, further: &Source<B>) -> Result<Self, AppendFault>
        ensures log { IfOk result (λ all. log_of all ≡ appended (log_of self) (end_of self) (log_of further.now)) }
        ensures end { IfOk result (λ all. end_of all ≡ end_of self + end_of further.now) }
        ensures fault { IfOk result (λ all. fault_of all ≡ fault_of further.now) }
        ensures damaged { IfOk result (λ all. damaged_of all ≡ damaged_of self) }
        ensures time { IfOk result (λ all. time_of all ≡ time_of further.now) }
        ensures alike { IfOk result (λ all. (fault_of self ≡ None) × (are_of_one_server (log_of self) (log_of further.now) ≡ true)) }
        ensures ordered { IfOk result (λ all. is_older (log_of further.now) (time_of self) ≡ false) }
        ensures refused { IfErr result (RefusesFurther (fault_of self) (log_of self) (end_of self) (time_of self) (log_of further.now) (end_of further.now)) }
        ensures opens { opening_fault (log_of self) ≡ None → IfOk result (λ all. opening_fault (log_of all) ≡ None) }
    {
        if let Some(fault) = self.fault {
            return Err(AppendFault::Damaged(fault));
        }
        if !are_of_one_server(self.bytes(), further.bytes()) {
            return Err(AppendFault::OtherServer);
        }
        if further.is_older(self.time) {
            return Err(AppendFault::OutOfOrder);
        }
        let Some(end) = self.end.checked_add(further.end) else {
            return Err(AppendFault::TooLong);
        };
        let start = self.end;
        let damaged = self.damaged;
        let mut bytes = self.bytes;
        bytes.reserve_exact(further.bytes.len())?;
        put_moved(&mut bytes, further.bytes(), further.first(), start)?;
        if bytes.len() > u32::MAX as usize {
            return Err(AppendFault::TooLong);
        }
        Ok(Source {
            bytes,
            end,
            damaged,
            fault: further.fault,
            time: further.time,
        })
    }

    /// Whether this log is older than one with a time.
    fn is_older(&self, time: u32) -> bool
        ensures { result ≡ is_older (log_of self.now) time }
    {
        format_time(self.bytes()) < time
            && has_events(self.bytes(), self.first())
            && are_own_by(
                self.bytes(),
                self.first(),
                format_server(self.bytes()),
                time,
            )
    }
}
