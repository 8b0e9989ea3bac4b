//! Logs of a server as sources: read up to a stop, and with damaged events passed over.

use crate::bytes::{joined, part_of, with_bytes};
use crate::source_calls::{
    Found, PASSING, check_read, cut_at, ended, handed_to, opened, reached, turned, wrong_at,
};
use crate::source_logs::{
    HANDED_INSERT, ONE_ROW_EVENTS, SUMMED_INSERT, handed_events, with_places,
};
use blog_source::Reading;
use sample_logs::small::INSERT_ONE_ROW;
use std::process::Abort;

// ---- the stop

/// A stop position, where the reading ends, and the length of the log that is handed out.
static STOPS: [(u32, u32, usize); 14] = [
    (0, 120, 120),
    (4, 120, 120),
    (119, 120, 120),
    (120, 120, 120),
    (121, 163, 159),
    (162, 163, 159),
    (163, 163, 159),
    (164, 204, 196),
    (204, 204, 196),
    (205, 244, 232),
    (244, 244, 232),
    (245, 275, 259),
    (275, 275, 259),
    (u32::MAX, 275, 259),
];

/// A reading of the events that begin before a stop position.
fn up_to(stop: u32) -> Reading {
    Reading {
        stop: Some(stop),
        skip_damaged: false,
    }
}

/// The same, in which damaged events are passed over.
fn passing_to(stop: u32) -> Reading {
    Reading {
        stop: Some(stop),
        skip_damaged: true,
    }
}

#[test]
fn events_below_the_stop_are_read_whole(rt: HostRuntime) {
    for (stop, end, len) in &STOPS {
        check_read(
            &rt,
            &SUMMED_INSERT,
            up_to(*stop),
            handed_to(&rt, *len),
            reached(*end),
        );
    }
}

#[test]
fn faults_from_the_stop_on_are_none(rt: HostRuntime) {
    let handed = handed_to(&rt, 196);
    let wrong = turned(&rt, 230, 1);
    let cut = part_of(&rt, &SUMMED_INSERT, 0, 230);
    for stop in [164, 203, 204] {
        check_read(&rt, &wrong, up_to(stop), handed, reached(204));
        check_read(&rt, cut, up_to(stop), handed, reached(204));
    }
    for stop in [205, 230, 1000] {
        check_read(&rt, &wrong, up_to(stop), handed, ended(204, wrong_at(204)));
        check_read(&rt, cut, up_to(stop), handed, ended(204, cut_at(204)));
    }
}

#[test]
fn places_end_at_the_stop(rt: HostRuntime) {
    let source = opened(&rt, &SUMMED_INSERT, up_to(200));
    assert!(rt; source.place(159) == 163);
    assert!(rt; source.place(196) == 204);
    assert!(rt; source.position(204) == 196);
    assert!(rt; source.position(244) == 196);
}

// ---- damaged events passed over

/// The small log with the lowest bit of each of these bytes flipped.
fn damaged<R: AllocGlobal + Abort>(rt: &R, bytes: &[usize]) -> Vec<u8> {
    let mut log = joined(rt, &[&SUMMED_INSERT]);
    for at in bytes {
        let byte = *SUMMED_INSERT.get(*at).expect(rt, "a byte") ^ 1;
        log = with_bytes(rt, &log, *at, &[byte]);
    }
    log
}

/// The events of the small log after the format description: where each begins, in it and in what is handed out, its size there,
/// and its type.
static EVENTS: [(usize, usize, usize, u8); 4] = [
    (120, 120, 39, 2),
    (163, 159, 37, 19),
    (204, 196, 36, 30),
    (244, 232, 27, 16),
];

/// What is handed out for the small log with the lowest bit of these bytes flipped, each in an event of its own, or in its sum.
fn handed_damaged<R: AllocGlobal + Abort>(rt: &R, bytes: &[usize]) -> Vec<u8> {
    let mut log = joined(rt, &[&HANDED_INSERT]);
    for at in bytes {
        let (first, handed, size, kind) = *EVENTS
            .iter()
            .filter(|(first, _, _, _)| first <= at)
            .last()
            .expect(rt, "an event");
        let inside = at.saturating_sub(first);
        if inside < size {
            let changed = handed.saturating_add(inside);
            let byte = *HANDED_INSERT.get(changed).expect(rt, "a byte") ^ 1;
            log = with_bytes(rt, &log, changed, &[byte]);
        }
        log = with_bytes(rt, &log, handed.saturating_add(4), &[255]);
        log = with_bytes(rt, &log, handed.saturating_add(17), &[kind, 0]);
    }
    log
}

/// Reads the small log with these bytes damaged to its end, and checks what is handed out.
fn check_passed<R: AllocGlobal + Abort>(rt: &R, bytes: &[usize]) {
    let found = Found {
        end: 275,
        fault: None,
        damaged: u32::try_from(bytes.len()).expect(rt, "few bytes"),
    };
    check_read(
        rt,
        &damaged(rt, bytes),
        PASSING,
        &handed_damaged(rt, bytes),
        found,
    );
}

#[test]
fn damaged_events_are_passed_over(rt: HostRuntime) {
    check_passed(&rt, &[]);
    check_passed(&rt, &[150]);
    check_passed(&rt, &[190]);
    // the last byte of a sum
    check_passed(&rt, &[243]);
    check_passed(&rt, &[150, 230]);
}

#[test]
fn a_damaged_size_may_be_that_of_two_events(rt: HostRuntime) {
    let log = with_bytes(&rt, &SUMMED_INSERT, 172, &[81]);
    let found = Found {
        end: 275,
        fault: None,
        damaged: 1,
    };
    // a header of type 255, a size of 77 and a log_pos of 163, with the type of a table map as flags
    let handed = joined(
        &rt,
        &[
            part_of(&rt, &HANDED_INSERT, 0, 159),
            part_of(&rt, &SUMMED_INSERT, 163, 167),
            &[255],
            part_of(&rt, &SUMMED_INSERT, 168, 172),
            &[77, 0, 0, 0, 163, 0, 0, 0, 19, 0],
            part_of(&rt, &SUMMED_INSERT, 182, 240),
            part_of(&rt, &HANDED_INSERT, 232, 259),
        ],
    );
    check_read(&rt, &log, PASSING, &handed, found);
}

#[test]
fn places_are_those_of_damaged_events_too(rt: HostRuntime) {
    let source = opened(&rt, &damaged(&rt, &[190]), PASSING);
    for (at, place) in [(120, 120), (159, 163), (196, 204), (232, 244), (259, 275)] {
        assert!(rt; source.place(at) == place, "at {at}");
    }
    for (place, at) in [
        (120, 120),
        (163, 159),
        (164, 196),
        (204, 196),
        (205, 232),
        (244, 232),
        (275, 259),
    ] {
        assert!(rt; source.position(place) == at, "of {place}");
    }
}

#[test]
fn damaged_events_end_the_reading_unasked(rt: HostRuntime) {
    let log = damaged(&rt, &[190]);
    check_read(
        &rt,
        &log,
        Reading::ALL,
        handed_to(&rt, 159),
        ended(163, wrong_at(163)),
    );
}

#[test]
fn damaged_neighbours_end_the_reading(rt: HostRuntime) {
    let two = damaged(&rt, &[190, 230]);
    check_read(
        &rt,
        &two,
        PASSING,
        handed_to(&rt, 159),
        ended(163, wrong_at(163)),
    );
    let whole = handed_damaged(&rt, &[150]);
    let handed = part_of(&rt, &whole, 0, 196);
    let found = Found {
        end: 204,
        fault: Some(wrong_at(204)),
        damaged: 1,
    };
    let three = damaged(&rt, &[150, 230, 265]);
    check_read(&rt, &three, PASSING, handed, found);
}

#[test]
fn a_damaged_last_event_is_a_fault(rt: HostRuntime) {
    let log = damaged(&rt, &[265]);
    check_read(
        &rt,
        &log,
        PASSING,
        handed_to(&rt, 232),
        ended(244, wrong_at(244)),
    );
    // the last below the stop
    let log = damaged(&rt, &[190]);
    for stop in [164, 203, 204] {
        check_read(
            &rt,
            &log,
            passing_to(stop),
            handed_to(&rt, 159),
            ended(163, wrong_at(163)),
        );
    }
    let whole = handed_damaged(&rt, &[190]);
    let handed = part_of(&rt, &whole, 0, 232);
    let found = Found {
        end: 244,
        fault: None,
        damaged: 1,
    };
    check_read(&rt, &log, passing_to(205), handed, found);
}

/// Sizes for the event at 163 in place of 41, and whether they lead past the log's end or leave no room for a sum. The others
/// lead to no event with a right sum.
static SIZES: [(u8, bool); 9] = [
    (40, false),
    (42, false),
    (23, false),
    (112, false),
    (113, true),
    (255, true),
    (22, true),
    (19, true),
    (0, true),
];

#[test]
fn damaged_sizes_are_faults(rt: HostRuntime) {
    for (size, is_cut) in &SIZES {
        let log = with_bytes(&rt, &SUMMED_INSERT, 172, &[*size]);
        let fault = if *is_cut { cut_at(163) } else { wrong_at(163) };
        check_read(&rt, &log, PASSING, handed_to(&rt, 159), ended(163, fault));
    }
}

#[test]
fn a_log_without_sums_has_no_damaged_events(rt: HostRuntime) {
    let handed = with_places(
        &rt,
        &INSERT_ONE_ROW,
        &handed_events(&rt, &ONE_ROW_EVENTS, 0),
    );
    check_read(&rt, &INSERT_ONE_ROW, PASSING, &handed, reached(259));
    let cut = part_of(&rt, &INSERT_ONE_ROW, 0, 250);
    let before = part_of(&rt, &handed, 0, 232);
    check_read(&rt, cut, PASSING, before, ended(232, cut_at(232)));
}
