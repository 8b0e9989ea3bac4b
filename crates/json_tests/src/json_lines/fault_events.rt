//! The events of faults: the text of a statement, and what another event is.

use blog_event::constants::{FORMAT_DESCRIPTION_EVENT, QUERY_EVENT};
use blog_event::{Event, Fault, Log};
use blog_source::DAMAGED_EVENT;
use blog_trans::query_text;

/// The types of events that say by themselves why a log is refused (MySQL Internals manual, "Event Classes and Types"; MariaDB
/// Knowledge Base, "Replication Protocol").
const INCIDENT_EVENT: u8 = 26;

const VIEW_CHANGE_EVENT: u8 = 37;

const XA_PREPARE_LOG_EVENT: u8 = 38;

const TRANSACTION_PAYLOAD_EVENT: u8 = 40;
/// The first type that MariaDB has for itself.
const MARIA_EVENTS: u8 = 160;

/// Returns the event of a fault, where it lies below a position.
fn event_of_fault<'a>(log: &Log<'a>, fault: &Fault, below: u32) -> Option<Event<'a>> {
    let pos = fault.at()?;
    if pos >= below {
        return None;
    }
    log.event_at(pos).ok()
}

/// Returns the text of the Query event of a fault, where it speaks of one below a position.
pub(crate) fn statement_of<'a>(log: &Log<'a>, fault: &Fault, below: u32) -> Option<&'a [u8]> {
    let event = event_of_fault(log, fault, below)?;
    if event.header.kind == QUERY_EVENT {
        query_text(event.body)
    } else {
        None
    }
}

/// Returns what an event of this type is, where that says why it isn't read.
fn event_words(kind: u8) -> Option<&'static str> {
    match kind {
        TRANSACTION_PAYLOAD_EVENT => Some("a compressed transaction"),
        XA_PREPARE_LOG_EVENT => Some("a prepared XA transaction"),
        INCIDENT_EVENT => Some("an incident"),
        VIEW_CHANGE_EVENT => Some("a change of view in group replication"),
        165..=171 => Some("a compressed event of MariaDB"),
        _ if kind >= MARIA_EVENTS => Some("an event of MariaDB"),
        _ => None,
    }
}

/// Returns what a damaged event was.
fn damaged_words(kind: u16) -> Option<&'static str> {
    match kind {
        2 => Some("a query"),
        16 => Some("the end of a transaction"),
        19 => Some("a table map"),
        33 | 34 | 42 => Some("a GTID"),
        23..=25 | 30..=32 | 39 => Some("rows"),
        _ => None,
    }
}

/// Returns the name of a fault, `Damaged` if the event there is damaged.
pub(crate) fn name_in(log: &Log<'_>, fault: &Fault, below: u32) -> &'static str {
    match event_of_fault(log, fault, below) {
        Some(event) if event.header.kind == DAMAGED_EVENT => "Damaged",
        _ => fault.name(),
    }
}

/// Returns what the event of a fault is, where that explains the fault and it lies below a position.
pub(crate) fn words_of(log: &Log<'_>, fault: &Fault, below: u32) -> Option<&'static str> {
    let event = event_of_fault(log, fault, below)?;
    if event.header.kind == DAMAGED_EVENT {
        return damaged_words(event.header.flags);
    }
    match fault {
        Fault::UnknownEvent { .. } => event_words(event.header.kind),
        Fault::OutOfPlace { .. } => {
            if event.header.kind == FORMAT_DESCRIPTION_EVENT {
                Some("a relay log")
            } else {
                event_words(event.header.kind)
            }
        }
        _ => None,
    }
}
