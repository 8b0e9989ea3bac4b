//! Logs of a server as sources: each byte changed, each cut, and what isn't opened.

use crate::bytes::{part_of, with_bytes};
use crate::source_calls::{
    PASSING, check_read, check_refused, cut_at, ended, handed_to, reached, turned, wrong_at,
};
use crate::source_logs::{HANDED_INSERT, SMALL, SUMMED_INSERT, handed_events, with_places};
use blog_event::Fault;
use blog_source::{Reading, Source};
use blog_sum::SumFault;
use linked_list_allocator::LocalHeap;
use refusing::Refusing;
use sample_logs::summed::CLOSED;
use std::process::Abort;
use std::test::Fail;

const UNMARKED: SumFault = SumFault::Log(Fault::NotABinlog { pos: 0 });

const BAD_FORMAT: SumFault = SumFault::Log(Fault::BadFormat { pos: 4 });

const OLD_SERVER: SumFault = SumFault::Log(Fault::OldServer { pos: 4 });

const UNKNOWN: SumFault = SumFault::UnknownAlgorithm { pos: 4 };

// ---- changed bytes

/// Why the small log is rejected when these bits of a byte before the second event are flipped. The checksum algorithm is at
/// 115, and a sum follows that begins with 0x7C: with a size that is larger by 1, this byte is the algorithm.
fn front_fault(at: usize, mask: u8) -> SumFault {
    match (at, mask) {
        (0..=3, _) => UNMARKED,
        // the type, the binlog version, the header length, and the post-header lengths of the types 2, 19, 30, 31 and 32
        (8 | 23 | 24 | 79 | 81 | 98 | 109..=111, _) => BAD_FORMAT,
        (14..=16, _) => cut_at(4),
        // the version `5.6.51`
        (26 | 28, _) | (25 | 27 | 29, 0xFF) => OLD_SERVER,
        (13, 0x01) | (115, 0xFF) => UNKNOWN,
        _ => wrong_at(4),
    }
}

/// Whether the front is still accepted after a change: of the flag for a log in use; of the algorithm to 0; of the version to
/// `4.6.51`, which has no algorithm; of the size to 139, with which the last byte of the second event's header is the algorithm.
fn is_unseen(at: usize, mask: u8) -> bool {
    matches!((at, mask), (21 | 25 | 115, 0x01) | (13, 0xFF))
}

#[test]
fn each_changed_byte_of_the_front_is_refused(rt: HostRuntime) {
    for at in 0..120 {
        for mask in [0x01, 0xFF] {
            if !is_unseen(at, mask) {
                let log = turned(&rt, at, mask);
                check_refused(&rt, &log, Reading::ALL, front_fault(at, mask));
                check_refused(&rt, &log, PASSING, front_fault(at, mask));
            }
        }
    }
}

#[test]
fn the_flag_for_a_log_in_use_is_no_fault(rt: HostRuntime) {
    let handed = with_bytes(&rt, &HANDED_INSERT, 21, &[1]);
    check_read(
        &rt,
        &turned(&rt, 21, 1),
        Reading::ALL,
        &handed,
        reached(275),
    );
}

#[test]
fn a_sum_with_the_flag_for_a_log_in_use_is_wrong(rt: HostRuntime) {
    let marked = turned(&rt, 21, 1);
    // zlib's crc32 of the format description with the flag set
    let log = with_bytes(&rt, &marked, 116, &[0xD0, 0x33, 0x45, 0x75]);
    check_refused(&rt, &log, Reading::ALL, wrong_at(4));
}

/// Checks that the small log is read as one without checksums after some bits of a byte are flipped.
fn check_unsummed<R: AllocGlobal + Abort>(rt: &R, at: usize, mask: u8) {
    let log = turned(rt, at, mask);
    let places = [(4, 120), (120, 163), (163, 204), (204, 244), (244, 275)];
    let handed = with_places(rt, &log, &handed_events(rt, &places, 0));
    check_read(rt, &log, Reading::ALL, &handed, reached(275));
}

#[test]
fn fronts_that_say_no_sums_are_believed(rt: HostRuntime) {
    check_unsummed(&rt, 115, 0x01);
    check_unsummed(&rt, 25, 0x01);
    // the second event would begin inside the Query
    let longer = turned(&rt, 13, 0xFF);
    let handed = part_of(&rt, &longer, 0, 143);
    check_read(&rt, &longer, Reading::ALL, handed, ended(143, cut_at(143)));
}

/// The size in the header at a position.
fn size_at(rt: &impl Abort, log: &[u8], start: u32) -> u64 {
    let at = (start as usize).saturating_add(9);
    let bytes = part_of(rt, log, at, at.saturating_add(4));
    bytes.iter().rev().fold(0, |size, byte| {
        u64::wrapping_add(size.wrapping_mul(256), u64::from(*byte))
    })
}

/// The fault of a changed event: its size leaves no room for a sum or leads past the log's end, or its sum is wrong.
fn event_fault(rt: &impl Abort, log: &[u8], start: u32) -> SumFault {
    let size = size_at(rt, log, start);
    if size < 23 || u64::from(start).saturating_add(size) > 275 {
        cut_at(start)
    } else {
        wrong_at(start)
    }
}

/// Changes each byte of an event, in its lowest bit and in all, and checks that the events before it are handed out.
fn check_bytes<R: AllocGlobal + Abort>(rt: &R, start: u32, end: u32, at: usize) {
    for byte in start as usize..end as usize {
        for mask in [0x01, 0xFF] {
            let log = turned(rt, byte, mask);
            let found = ended(start, event_fault(rt, &log, start));
            check_read(rt, &log, Reading::ALL, handed_to(rt, at), found);
        }
    }
}

#[test]
fn each_changed_byte_of_an_event_ends_the_reading(rt: HostRuntime) {
    for (start, end, at) in SMALL.iter().skip(1) {
        check_bytes(&rt, *start, *end, *at);
    }
}

// ---- cut logs

#[test]
fn each_cut_front_is_refused(rt: HostRuntime) {
    for len in 0..120 {
        let fault = if len < 4 { UNMARKED } else { cut_at(4) };
        check_refused(
            &rt,
            part_of(&rt, &SUMMED_INSERT, 0, len),
            Reading::ALL,
            fault,
        );
    }
}

#[test]
fn each_cut_of_an_event_ends_the_reading(rt: HostRuntime) {
    for (start, end, at) in SMALL.iter().skip(1) {
        let whole = part_of(&rt, &SUMMED_INSERT, 0, *start as usize);
        check_read(
            &rt,
            whole,
            Reading::ALL,
            handed_to(&rt, *at),
            reached(*start),
        );
        for len in (*start as usize).saturating_add(1)..*end as usize {
            let log = part_of(&rt, &SUMMED_INSERT, 0, len);
            check_read(
                &rt,
                log,
                Reading::ALL,
                handed_to(&rt, *at),
                ended(*start, cut_at(*start)),
            );
        }
    }
}

// ---- logs that are not opened

/// A position, the bytes from there on, and why the log is rejected.
static REFUSED: [(usize, &[u8], SumFault); 12] = [
    (0, b"\xFEbix", UNMARKED),
    (0, b"\xFEdin", UNMARKED),
    (8, &[14], BAD_FORMAT),
    (23, &[3], BAD_FORMAT),
    (25, b"x.6.51", OLD_SERVER),
    (25, b"5.6-51", OLD_SERVER),
    (115, &[2], UNKNOWN),
    (115, &[255], UNKNOWN),
    // the first of several
    (0, &[0, 0, 0, 0, 0, 0, 0, 0, 14], UNMARKED),
    (111, &[8, 0, 0, 0, 2], BAD_FORMAT),
    (115, &[2, 0, 0, 0, 0], UNKNOWN),
    (116, &[0, 0, 0, 0], SumFault::WrongSum { pos: 4 }),
];

#[test]
fn what_is_no_log_is_refused(rt: HostRuntime) {
    for (at, bytes, fault) in &REFUSED {
        let log = with_bytes(&rt, &SUMMED_INSERT, *at, bytes);
        check_refused(&rt, &log, Reading::ALL, *fault);
    }
    check_refused(&rt, b"", Reading::ALL, UNMARKED);
    check_refused(&rt, b"\xFEbi", Reading::ALL, UNMARKED);
    check_refused(&rt, b"\xFEbin", Reading::ALL, cut_at(4));
    check_refused(
        &rt,
        part_of(&rt, &SUMMED_INSERT, 0, 119),
        PASSING,
        cut_at(4),
    );
}

/// A heap with room for a log, in bytes.
const ROOM: usize = 1 << 16;

#[test]
fn opening_takes_no_memory(rt: HostRuntime) -> Result<(), Fail> {
    let heap = LocalHeap::new(rt.alloc(), ROOM)?;
    // the log is the first request
    let alloc = Refusing::new(&heap, 2);
    let log = CLOSED.to_vec(&alloc)?;
    let source = Source::open(log, Reading::ALL).ok().ok_or("a source")?;
    assert!(rt; source.bytes().len() == 1473);
    assert!(rt; !alloc.has_refused());
    Ok(())
}
