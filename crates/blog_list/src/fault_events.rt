//! The events of faults: the text of a statement, and what another event is.

ghost use Rattle.std.specs.Prelude.{◌≡◌, option_and_then, option_map};
ghost use Rattle.blog_event.specs.Event.{event_of};
ghost use Rattle.blog_event.specs.code.LogView.{log_bytes};
ghost use Rattle.blog_list.specs.Shown.{damaged_words, event_of_fault, event_words, shown_name, shown_words, text_of_query};

use blog_event::constants::{FORMAT_DESCRIPTION_EVENT, QUERY_EVENT};
use blog_event::{Event, Fault, Log};
use blog_source::DAMAGED_EVENT;
use blog_trans::query_text;

/// The types of events that say by themselves why a log is refused (MySQL Internals manual, "Event Classes and Types"; MariaDB
/// Knowledge Base, "Replication Protocol").
const INCIDENT_EVENT: u8 = 26;

const VIEW_CHANGE_EVENT: u8 = 37;

const XA_PREPARE_LOG_EVENT: u8 = 38;

const TRANSACTION_PAYLOAD_EVENT: u8 = 40;
/// The first type that MariaDB has for itself.
const MARIA_EVENTS: u8 = 160;

/// Returns the event of a fault, where it lies below a position.
fn event_of_fault<'a>(log: &Log<'a>, fault: &Fault, below: u32) -> Option<Event<'a>>
    ensures { option_map event_of result ≡ event_of_fault (log_bytes log.now) below fault.now }
{
    let pos = fault.at()?;
    if pos >= below {
        return None;
    }
    log.event_at(pos).ok()
}

/// Returns the text of the Query event of a fault, where it speaks of one below a position.
pub(crate) fn statement_of<'a>(log: &Log<'a>, fault: &Fault, below: u32) -> Option<&'a [u8]>
    ensures { option_map (λ text. text.now) result ≡ option_and_then text_of_query (event_of_fault (log_bytes log.now) below fault.now) }
{
    let event = event_of_fault(log, fault, below)?;
    if event.header.kind == QUERY_EVENT {
        query_text(event.body)
    } else {
        None
    }
}

/// Returns what an event of this type is, where that says why it isn't read.
fn event_words(kind: u8) -> Option<&'static str>
    ensures { option_map (λ words. words.now) result ≡ event_words kind }
{
    match kind {
        TRANSACTION_PAYLOAD_EVENT => Some("a compressed transaction"),
        XA_PREPARE_LOG_EVENT => Some("a prepared XA transaction"),
        INCIDENT_EVENT => Some("an incident"),
        VIEW_CHANGE_EVENT => Some("a change of view in group replication"),
        165..=171 => Some("a compressed event of MariaDB"),
        _ if kind >= MARIA_EVENTS => Some("an event of MariaDB"),
        _ => None,
    }
}

/// Returns what a damaged event was, by its type.
fn damaged_words(kind: u16) -> Option<&'static str>
    ensures { option_map (λ words. words.now) result ≡ damaged_words kind }
{
    match kind {
        2 => Some("a query"),
        16 => Some("the end of a transaction"),
        19 => Some("a table map"),
        33 | 34 | 42 => Some("a GTID"),
        23..=25 | 30..=32 | 39 => Some("rows"),
        _ => None,
    }
}

/// Returns the name of a fault, which is another one if the event there, below a position, is a damaged one that was passed over.
pub(crate) fn name_in(log: &Log<'_>, fault: &Fault, below: u32) -> &'static str
    ensures { result.now ≡ shown_name fault.now (event_of_fault (log_bytes log.now) below fault.now) }
{
    match event_of_fault(log, fault, below) {
        Some(event) if event.header.kind == DAMAGED_EVENT => "Damaged",
        _ => fault.name(),
    }
}

/// Returns what the event of a fault is, where that explains the fault and it lies below a position.
pub(crate) fn words_of(log: &Log<'_>, fault: &Fault, below: u32) -> Option<&'static str>
    ensures { option_map (λ words. words.now) result ≡ option_and_then (shown_words fault.now) (event_of_fault (log_bytes log.now) below fault.now) }
{
    let event = event_of_fault(log, fault, below)?;
    if event.header.kind == DAMAGED_EVENT {
        return damaged_words(event.header.flags);
    }
    match fault {
        Fault::UnknownEvent { .. } => event_words(event.header.kind),
        Fault::OutOfPlace { .. } => {
            if event.header.kind == FORMAT_DESCRIPTION_EVENT {
                Some("a relay log")
            } else {
                event_words(event.header.kind)
            }
        }
        _ => None,
    }
}
