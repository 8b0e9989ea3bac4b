//! The events of a log, by their positions and one after another.

use crate::bytes::{part_of, with_bytes};
use blog_event::{Events, Fault, Header, Log};
use sample_logs::small::INSERT_ONE_ROW;
use std::process::Abort;

/// Where events begin, their types, and where their bodies begin and end.
static EVENTS: [(u32, u8, usize, usize); 5] = [
    (4, 15, 23, 120),
    (120, 2, 139, 159),
    (159, 19, 178, 196),
    (196, 30, 215, 232),
    (232, 16, 251, 259),
];

/// An event is found at its start.
fn check_found(rt: &impl Abort, log: &Log<'_>, at: u32, kind: u8, body: &[u8]) {
    let event = log.event_at(at).expect(rt, "an event");
    assert!(rt; event.pos == at, "at {at}");
    assert!(rt; event.header.kind == kind, "at {at}");
    assert!(rt; event.body == body, "at {at}");
}

#[test]
fn finds_events_at_their_starts(rt: HostRuntime) {
    let log = Log::open(&INSERT_ONE_ROW).expect(&rt, "a log");
    for (at, kind, body, end) in &EVENTS {
        check_found(
            &rt,
            &log,
            *at,
            *kind,
            part_of(&rt, &INSERT_ONE_ROW, *body, *end),
        );
    }
}

/// No event is found there.
fn check_cut(rt: &impl Abort, log: &Log<'_>, pos: u32) {
    let fault = log.event_at(pos).err();
    assert!(rt; fault == Some(Fault::CutEvent { pos }), "at {pos}");
}

#[test]
fn finds_no_event_elsewhere(rt: HostRuntime) {
    let log = Log::open(&INSERT_ONE_ROW).expect(&rt, "a log");
    // Beside the last event, with 19 and 18 bytes left, and at and past the end.
    for at in [0, 231, 233, 240, 241, 258, 259, 260, u32::MAX] {
        check_cut(&rt, &log, at);
    }
}

/// A header at 196, whose type and size are those of the event there.
const HEADER: [u8; 19] = [
    1, 2, 3, 4, 30, 5, 6, 7, 8, 36, 0, 0, 0, 9, 10, 11, 12, 13, 14,
];

/// What it says.
const FIELDS: Header = Header {
    timestamp: 0x0403_0201,
    kind: 30,
    server_id: 0x0807_0605,
    size: 36,
    log_pos: 0x0C0B_0A09,
    flags: 0x0E0D,
};

#[test]
fn reads_each_field_of_a_header(rt: HostRuntime) {
    let changed = with_bytes(&rt, &INSERT_ONE_ROW, 196, &HEADER);
    let log = Log::open(&changed).expect(&rt, "a log");
    let event = log.event_at(196).expect(&rt, "an event");
    assert!(rt; event.header == FIELDS);
    assert!(rt; event.pos == 196);
    assert!(rt; event.body == part_of(&rt, &INSERT_ONE_ROW, 215, 232));
}

/// Where events begin, their types and sizes.
static SIZES: [(u32, u8, u32); 4] = [(120, 2, 39), (159, 19, 37), (196, 30, 36), (232, 16, 27)];

/// The next event is this one.
fn check_next(rt: &impl Abort, events: &mut Events<'_>, pos: u32, kind: u8, size: u32) {
    let next = events.next().expect(rt, "an event or a fault");
    let event = next.expect(rt, "an event");
    assert!(rt; event.pos == pos, "at {pos}");
    assert!(rt; event.header.kind == kind, "at {pos}");
    assert!(rt; event.header.size == size, "at {pos}");
}

/// There are no more events.
fn check_end(rt: &impl Abort, events: &mut Events<'_>) {
    assert!(rt; events.next().is_none());
    assert!(rt; events.next().is_none());
}

#[test]
fn goes_from_event_to_event(rt: HostRuntime) {
    let log = Log::open(&INSERT_ONE_ROW).expect(&rt, "a log");
    let mut events = log.events(120);
    assert!(rt; events.size_hint() == (0, Some(8)));
    for (pos, kind, size) in &SIZES {
        check_next(&rt, &mut events, *pos, *kind, *size);
    }
    check_end(&rt, &mut events);
    assert!(rt; events.size_hint() == (0, Some(0)));
}

/// The events from there on are one fault and nothing more.
fn check_one_fault(rt: &impl Abort, events: &mut Events<'_>, pos: u32) {
    let fault = events.next().expect(rt, "a fault").err();
    assert!(rt; fault == Some(Fault::CutEvent { pos }), "at {pos}");
    check_end(rt, events);
}

#[test]
fn starts_at_and_past_the_end(rt: HostRuntime) {
    let log = Log::open(&INSERT_ONE_ROW).expect(&rt, "a log");
    check_end(&rt, &mut log.events(259));
    for past in [260, 300, u32::MAX] {
        check_one_fault(&rt, &mut log.events(past), past);
    }
}

#[test]
fn ends_with_one_fault(rt: HostRuntime) {
    let log = Log::open(&INSERT_ONE_ROW).expect(&rt, "a log");
    for from in [231, 241, 258] {
        check_one_fault(&rt, &mut log.events(from), from);
    }
}

/// The rows event is the last one, and the event behind it is cut.
fn check_last(rt: &impl Abort, bytes: &[u8]) {
    let log = Log::open(bytes).expect(rt, "a log");
    let mut events = log.events(196);
    check_next(rt, &mut events, 196, 30, 36);
    check_one_fault(rt, &mut events, 232);
}

#[test]
fn ends_at_an_event_that_is_cut(rt: HostRuntime) {
    // The last event's size: 18, one past the end, and the greatest.
    check_last(&rt, &with_bytes(&rt, &INSERT_ONE_ROW, 241, &[18]));
    check_last(&rt, &with_bytes(&rt, &INSERT_ONE_ROW, 241, &[28]));
    check_last(&rt, &with_bytes(&rt, &INSERT_ONE_ROW, 241, &[0xFF; 4]));
    // The log cut in its header and before its end.
    check_last(&rt, part_of(&rt, &INSERT_ONE_ROW, 0, 250));
    check_last(&rt, part_of(&rt, &INSERT_ONE_ROW, 0, 258));
}
