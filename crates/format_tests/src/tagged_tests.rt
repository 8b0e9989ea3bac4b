//! Logs with a tagged GTID event as sources, and their plain logs.

use crate::bytes::{joined, part_of, with_bytes};
use crate::source_calls::{check_read, reached};
use blog_source::{Reading, plain};
use server_logs::tagged::{TAGGED, TAGGED_HANDED, TAGGED_PLAIN};
use std::process::Abort;

/// Where the tagged event begins in the log without checksums.
const AT: usize = 194;

/// The log without checksums, whose tagged event still is one, and has so many bytes.
fn unsummed<R: AllocGlobal + Abort>(rt: &R, size: usize) -> Vec<u8> {
    let event = part_of(rt, &TAGGED, 198, size.saturating_add(198));
    let event = with_bytes(rt, event, 9, &[size.min(255) as u8]);
    let later = part_of(rt, &TAGGED_PLAIN, 238, 445);
    joined(rt, &[part_of(rt, &TAGGED_PLAIN, 0, AT), &event, later])
}

/// The plain log of a log is this.
fn check_plain<R: AllocGlobal + Abort>(rt: &R, log: &[u8], wanted: &[u8]) {
    let made = plain(joined(rt, &[log])).expect(rt, "a plain log");
    assert!(rt; made.as_slice() == wanted);
}

#[test]
fn a_tag_is_handed_out(rt: HostRuntime) {
    check_read(&rt, &TAGGED, Reading::ALL, &TAGGED_HANDED, reached(505));
}

#[test]
fn a_plain_log_has_no_tag(rt: HostRuntime) {
    check_plain(&rt, &unsummed(&rt, 76), &TAGGED_PLAIN);
}

/// Where the events after the tagged one begin without checksums, and where they end.
static LATER: [(usize, u32); 5] = [(238, 305), (305, 345), (345, 381), (381, 408), (408, 445)];

/// The log after the tagged event, whose events end that many bytes earlier than in the plain log.
fn ending_earlier<R: AllocGlobal + Abort>(rt: &R, bytes: u32) -> Vec<u8> {
    let mut log = joined(rt, &[&TAGGED_PLAIN]);
    for (at, end) in &LATER {
        let end = end.saturating_sub(bytes);
        log = with_bytes(rt, &log, at.saturating_add(13), &end.to_le_bytes());
    }
    joined(rt, &[part_of(rt, &log, 238, 445)])
}

#[test]
fn a_body_that_cannot_be_read_becomes_zeros(rt: HostRuntime) {
    let zeros = with_bytes(&rt, &TAGGED_PLAIN, AT + 19, &[0; 25]);
    // its version, and its size
    for at in [19, 20] {
        let log = with_bytes(&rt, &unsummed(&rt, 76), AT.saturating_add(at), &[0]);
        check_plain(&rt, &log, &zeros);
    }
    // 25 bytes of it
    check_plain(&rt, &unsummed(&rt, 44), &zeros);
}

#[test]
fn a_short_event_stays_tagged(rt: HostRuntime) {
    let log = unsummed(&rt, 43);
    let front = with_bytes(
        &rt,
        part_of(&rt, &log, 0, 237),
        AT + 13,
        &237u32.to_le_bytes(),
    );
    check_plain(&rt, &log, &joined(&rt, &[&front, &ending_earlier(&rt, 1)]));
}
