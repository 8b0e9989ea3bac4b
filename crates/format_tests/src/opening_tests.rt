//! Which bytes are opened as a log, and why others are not.

use crate::bytes::{part_of, with_bytes};
use crate::logs::{lengths_of, log_of, log_with};
use blog_event::{Fault, Log, format_description};
use sample_logs::small::INSERT_ONE_ROW;
use std::process::Abort;

const BAD_FORMAT: Fault = Fault::BadFormat { pos: 4 };

const CUT: Fault = Fault::CutEvent { pos: 4 };

const OLD_SERVER: Fault = Fault::OldServer { pos: 4 };

const UNMARKED: Fault = Fault::NotABinlog { pos: 0 };

#[test]
fn opens_a_log(rt: HostRuntime) {
    let log = Log::open(&INSERT_ONE_ROW).expect(&rt, "a log");
    assert!(rt; log.first() == 120);
    assert!(rt; log.end() == 259);
    let format = log.format();
    assert!(rt; format.pos == 4);
    assert!(rt; format.header.kind == 15);
    assert!(rt; format.header.size == 116);
    assert!(rt; format.body == part_of(&rt, &INSERT_ONE_ROW, 23, 120));
}

/// Post-header lengths of no checked type, the checksum, which is unread, and a first event that ends with the log: a
/// position, the bytes from there on, and where the second event begins then.
static OTHER_FORMATS: [(usize, &[u8], u32); 5] = [
    (80, &[0], 120),
    (112, &[0, 0, 1], 120),
    (75, &[1, 2, 3, 4], 120),
    (116, &[1, 2, 3, 4], 120),
    (13, &[255], 259),
];

/// The bytes are a log, whose second event begins here.
fn check_first(rt: &impl Abort, bytes: &[u8], first: u32) {
    let log = Log::open(bytes).expect(rt, "a log");
    assert!(rt; log.first() == first, "{bytes:?}");
}

#[test]
fn opens_other_formats(rt: HostRuntime) {
    for (at, bytes, first) in &OTHER_FORMATS {
        check_first(&rt, &with_bytes(&rt, &INSERT_ONE_ROW, *at, bytes), *first);
    }
}

/// The bytes begin with a format description of this size and with this checksum algorithm.
fn check_algorithm(rt: &impl Abort, bytes: &[u8], size: u32, algorithm: u8) {
    let (format, found) = format_description(bytes).expect(rt, "a format description");
    assert!(rt; format.pos == 4);
    assert!(rt; format.header.size == size);
    assert!(rt; found == algorithm, "{bytes:?}");
}

#[test]
fn gives_the_algorithm(rt: HostRuntime) {
    for algorithm in [0, 1, 255] {
        let log = with_bytes(&rt, &INSERT_ONE_ROW, 115, &[algorithm]);
        check_algorithm(&rt, &log, 116, algorithm);
    }
    let old = log_with(&rt, b"5.5.62", lengths_of(&rt, 25), &[1; 5]);
    check_algorithm(&rt, &old, 106, 0);
    let cut = format_description(part_of(&rt, &INSERT_ONE_ROW, 0, 119)).err();
    assert!(rt; cut == Some(CUT));
}

/// A log of so many post-header lengths has a format description of this size.
fn check_count<R: AllocGlobal + Abort>(
    rt: &R,
    version: &[u8],
    count: usize,
    size: u32,
    first: u32,
) {
    let log = log_of(rt, version, lengths_of(rt, count));
    let opened = Log::open(&log).expect(rt, "a log");
    assert!(rt; opened.format().header.size == size, "of {count}");
    assert!(rt; opened.first() == first, "of {count}");
}

/// The bytes are opened as a log, or refused so.
fn check_fault(rt: &impl Abort, bytes: &[u8], fault: Option<Fault>) {
    let refused = Log::open(bytes).err();
    assert!(rt; refused == fault, "{refused:?} for {bytes:?}");
}

#[test]
fn counts_the_post_header_lengths(rt: HostRuntime) {
    check_count(&rt, b"8.0.36", 41, 122, 126);
    check_count(&rt, b"5.6.51", 32, 113, 117);
    for count in [0, 1, 19, 31] {
        let few = log_of(&rt, b"5.6.51", lengths_of(&rt, count));
        check_fault(&rt, &few, Some(BAD_FORMAT));
    }
}

/// A position, the bytes from there on, and what they are refused for.
static CHANGED: [(usize, &[u8], Fault); 18] = [
    (0, &[0xFD], UNMARKED),
    (3, &[0x6F], UNMARKED),
    // The size of the first event.
    (13, &[18], CUT),
    (13, &[0, 1], CUT),
    (13, &[0xFF; 4], CUT),
    (13, &[19], BAD_FORMAT),
    (13, &[75], BAD_FORMAT),
    (13, &[76], BAD_FORMAT),
    // Its type, the binlog version and the header length.
    (8, &[14], BAD_FORMAT),
    (23, &[3], BAD_FORMAT),
    (24, &[1], BAD_FORMAT),
    (79, &[20], BAD_FORMAT),
    // The post-header lengths of the types 2, 19, 30, 31 and 32.
    (81, &[12], BAD_FORMAT),
    (98, &[6], BAD_FORMAT),
    (109, &[8], BAD_FORMAT),
    (110, &[8], BAD_FORMAT),
    (111, &[8], BAD_FORMAT),
    // The checksum algorithm.
    (115, &[1], Fault::Checksums { pos: 4 }),
];

#[test]
fn refuses_changed_bytes(rt: HostRuntime) {
    for (at, bytes, fault) in &CHANGED {
        check_fault(
            &rt,
            &with_bytes(&rt, &INSERT_ONE_ROW, *at, bytes),
            Some(*fault),
        );
    }
}

/// How long a front of the log is, and what it is refused for.
static FRONTS: [(usize, Option<Fault>); 9] = [
    (0, Some(UNMARKED)),
    (1, Some(UNMARKED)),
    (2, Some(UNMARKED)),
    (3, Some(UNMARKED)),
    (4, Some(CUT)),
    (22, Some(CUT)),
    (23, Some(CUT)),
    (119, Some(CUT)),
    (120, None),
];

#[test]
fn refuses_the_front_of_a_log(rt: HostRuntime) {
    for (len, fault) in &FRONTS {
        check_fault(&rt, part_of(&rt, &INSERT_ONE_ROW, 0, *len), *fault);
    }
}

/// Versions, and whether they are readable.
static VERSIONS: [(&[u8], bool); 17] = [
    (b"5.6.1", true),
    (b"5.6.51", true),
    (b"5.7.44-log", true),
    (b"5.10.0", true),
    (b"8.0.36", true),
    (b"5.6.51-a-text-that-has-no-zero-byte-in-its-field..", true),
    (b"5.6.0", true),
    (b"5.5.62", true),
    (b"4.9.9", true),
    (b"0.0.0", true),
    (b"5.6.1000", false),
    (b"abc", false),
    (b"565", false),
    (b"5.6", false),
    (b"5.6.", false),
    (b"5..51", false),
    (b"", false),
];

#[test]
fn versions_are_three_numbers(rt: HostRuntime) {
    for (version, readable) in &VERSIONS {
        let log = log_of(&rt, version, lengths_of(&rt, 35));
        let fault = if *readable { None } else { Some(OLD_SERVER) };
        check_fault(&rt, &log, fault);
    }
}

/// What stands behind the 25th length, and where the second event begins then.
static BEHIND: [(&[u8], u32); 4] = [(&[], 105), (&[1], 106), (&[2, 0], 107), (&[1; 40], 145)];

/// With these bytes behind the 25th length a log of an old server is opened, and one of a newer server is not.
fn check_behind<R: AllocGlobal + Abort>(rt: &R, behind: &[u8], first: u32) {
    let lengths = lengths_of(rt, 25);
    check_first(rt, &log_with(rt, b"5.6.0", lengths, behind), first);
    check_first(rt, &log_with(rt, b"5.5.62", lengths, behind), first);
    check_first(rt, &log_with(rt, b"5.1.73-log", lengths, behind), first);
    let newer = log_with(rt, b"5.6.1", lengths, behind);
    check_fault(rt, &newer, Some(BAD_FORMAT));
}

#[test]
fn old_servers_have_no_algorithm(rt: HostRuntime) {
    // Whatever stands behind the 25th length, nothing included, is unread.
    for (behind, first) in &BEHIND {
        check_behind(&rt, behind, *first);
    }
}

/// A log of an old server with too few lengths is refused, for its version where that isn't readable.
fn check_too_few<R: AllocGlobal + Abort>(rt: &R, count: usize) {
    let lengths = lengths_of(rt, count);
    let few = log_with(rt, b"5.5.62", lengths, &[]);
    check_fault(rt, &few, Some(BAD_FORMAT));
    let unreadable = log_with(rt, b"abc", lengths, &[]);
    check_fault(rt, &unreadable, Some(OLD_SERVER));
}

/// The log of an old server whose length of this type, counted from 0, is 10.
fn check_length<R: AllocGlobal + Abort>(rt: &R, at: usize, fault: Option<Fault>) {
    let lengths = with_bytes(rt, lengths_of(rt, 25), at, &[10]);
    check_fault(rt, &log_with(rt, b"5.5.62", &lengths, &[]), fault);
}

#[test]
fn old_servers_have_25_lengths(rt: HostRuntime) {
    for count in [0, 1, 19, 24] {
        check_too_few(&rt, count);
    }
    // The lengths of the types 2, 19, 23, 24 and 25 are checked, and no others.
    for at in 0..25usize {
        let checked = [1, 18, 22, 23, 24].contains(&at);
        check_length(&rt, at, if checked { Some(BAD_FORMAT) } else { None });
    }
}
