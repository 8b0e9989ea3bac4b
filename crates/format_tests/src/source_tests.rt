//! Logs of a server as sources: what is handed out for them, and the places of its events.

use crate::bytes::part_of;
use crate::plain_tests::EVENTS;
use crate::source_calls::{check_read, opened, reached};
use crate::source_logs::{
    HANDED_INSERT, Handed, IN_USE_EVENTS, ONE_ROW_EVENTS, SUMMED_INSERT, handed_events, with_places,
};
use blog_source::Reading;
use sample_logs::small::{INSERT_ONE_ROW, OLD_SERVER, PLAIN, SUMMED};
use sample_logs::summed::{CLOSED, CLOSED_PLAIN, IN_USE, IN_USE_PLAIN};
use std::process::Abort;

/// Reads a log to its end, and checks the bytes that are handed out.
fn check_whole<R: AllocGlobal + Abort>(rt: &R, log: &[u8], handed: &[u8]) {
    let end = log.len().min(u32::MAX as usize) as u32;
    check_read(rt, log, Reading::ALL, handed, reached(end));
}

/// Checks event by event that the log without checksums is handed out, with the place of each event as its log_pos.
fn check_events<R: AllocGlobal + Abort>(rt: &R, log: &[u8], plain: &[u8], events: &[Handed]) {
    let source = opened(rt, log, Reading::ALL);
    let wanted = with_places(rt, plain, events);
    let mut before = 0;
    for event in events {
        let end = event.end as usize;
        let found = part_of(rt, source.bytes(), before, end);
        assert!(rt;
            found == part_of(rt, &wanted, before, end),
            "at {}",
            event.at
        );
        before = end;
    }
    check_whole(rt, log, &wanted);
}

#[test]
fn samples_are_handed_out(rt: HostRuntime) {
    check_events(&rt, &CLOSED, &CLOSED_PLAIN, &handed_events(&rt, &EVENTS, 4));
    check_events(
        &rt,
        &IN_USE,
        &IN_USE_PLAIN,
        &handed_events(&rt, &IN_USE_EVENTS, 4),
    );
    check_events(
        &rt,
        &SUMMED,
        &PLAIN,
        &handed_events(&rt, &[(4, 120), (120, 143)], 4),
    );
    check_whole(&rt, &SUMMED_INSERT, &HANDED_INSERT);
}

/// Where the events of `OLD_SERVER` begin and end.
static OLD_EVENTS: [(u32, u32); 5] = [(4, 107), (107, 146), (146, 183), (183, 217), (217, 244)];

/// Checks that a log without checksums is handed out with its own events, and that places are positions.
fn check_unsummed<R: AllocGlobal + Abort>(rt: &R, log: &[u8], events: &[(u32, u32)]) {
    let events = handed_events(rt, events, 0);
    check_events(rt, log, log, &events);
    check_places(rt, log, &events);
}

/// The same for the plain copy of a sample, whose events begin and end at these positions.
fn check_copy<R: AllocGlobal + Abort>(rt: &R, plain: &[u8], events: &[(u32, u32)]) {
    let mut copied = handed_events(rt, events, 4);
    for event in &mut copied {
        event.place = event.at;
    }
    check_events(rt, plain, plain, &copied);
    check_places(rt, plain, &copied);
}

#[test]
fn logs_without_sums_are_handed_out(rt: HostRuntime) {
    check_copy(&rt, &CLOSED_PLAIN, &EVENTS);
    check_copy(&rt, &IN_USE_PLAIN, &IN_USE_EVENTS);
    check_unsummed(&rt, &INSERT_ONE_ROW, &ONE_ROW_EVENTS);
    check_unsummed(&rt, &OLD_SERVER, &OLD_EVENTS);
    check_unsummed(&rt, &PLAIN, &[(4, 120), (120, 139)]);
    check_unsummed(&rt, part_of(&rt, &INSERT_ONE_ROW, 0, 120), &[(4, 120)]);
}

/// Checks the place of the position of each event, and the position of its place.
fn check_places<R: AllocGlobal + Abort>(rt: &R, log: &[u8], events: &[Handed]) {
    let source = opened(rt, log, Reading::ALL);
    for event in events {
        let place = source.place(event.at);
        assert!(rt; place == event.place, "{place} at {}", event.at);
        let at = source.position(event.place);
        assert!(rt; at == event.at, "{at} of {}", event.place);
    }
}

#[test]
fn places_and_positions_of_events(rt: HostRuntime) {
    check_places(&rt, &CLOSED, &handed_events(&rt, &EVENTS, 4));
    check_places(&rt, &IN_USE, &handed_events(&rt, &IN_USE_EVENTS, 4));
}

/// Checks that each place inside an event leads to where that event ends, and that no event begins one byte after another.
fn check_between<R: AllocGlobal + Abort>(rt: &R, log: &[u8], events: &[(u32, u32)]) {
    let source = opened(rt, log, Reading::ALL);
    let mut before = 0u32;
    for (start, end) in events.iter().skip(1) {
        let at = start.saturating_sub(before);
        before = before.saturating_add(4);
        assert!(rt;
            source.place(at.saturating_add(1)) == source.end(),
            "at {at}"
        );
        for place in start.saturating_add(1)..end.saturating_add(1) {
            let found = source.position(place);
            assert!(rt; found == end.saturating_sub(before), "{found} of {place}");
        }
    }
}

#[test]
fn places_and_positions_between_events(rt: HostRuntime) {
    check_between(&rt, &CLOSED, &EVENTS);
    check_between(&rt, &IN_USE, &IN_USE_EVENTS);
}

#[test]
fn places_and_positions_of_the_ends(rt: HostRuntime) {
    let source = opened(&rt, &CLOSED, Reading::ALL);
    // up to the end of the format description they are the same
    for at in 0..128 {
        assert!(rt; source.place(at) == at, "at {at}");
        assert!(rt; source.position(at) == at, "of {at}");
    }
    for at in [1473, 1474, 1569, u32::MAX] {
        assert!(rt; source.place(at) == 1569, "at {at}");
    }
    for place in [1529, 1569, 1570, u32::MAX] {
        assert!(rt; source.position(place) == 1473, "of {place}");
    }
}
