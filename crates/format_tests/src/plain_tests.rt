//! Plain logs of logs that a server wrote, and of changed ones.

use crate::bytes::{joined, part_of, with_bytes};
use crate::source_logs::{HANDED_INSERT, SUMMED_INSERT};
use blog_event::Fault;
use blog_source::plain;
use blog_sum::{SumFault, crc32};
use linked_list_allocator::LocalHeap;
use refusing::Refusing;
use sample_logs::small::{INSERT_ONE_ROW, PLAIN, SUMMED};
use sample_logs::summed::{CLOSED, CLOSED_PLAIN, IN_USE, IN_USE_PLAIN};
use server_logs::tagged::{TAGGED, TAGGED_PLAIN};
use std::process::Abort;
use std::test::Fail;

/// Where the events of `CLOSED` begin and end.
pub static EVENTS: [(u32, u32); 25] = [
    (4, 127),
    (127, 198),
    (198, 277),
    (277, 352),
    (352, 413),
    (413, 481),
    (481, 512),
    (512, 591),
    (591, 666),
    (666, 719),
    (719, 780),
    (780, 811),
    (811, 890),
    (890, 965),
    (965, 1026),
    (1026, 1083),
    (1083, 1136),
    (1136, 1184),
    (1184, 1215),
    (1215, 1294),
    (1294, 1378),
    (1378, 1439),
    (1439, 1497),
    (1497, 1528),
    (1528, 1569),
];

/// Its format description's low byte of the flags, and its checksum algorithm.
const FLAGS: usize = 21;

const ALGORITHM: usize = 122;

const UNMARKED: SumFault = SumFault::Log(Fault::NotABinlog { pos: 0 });

fn cut_at(pos: u32) -> SumFault {
    SumFault::Log(Fault::CutEvent { pos })
}

/// The plain log of a log is this.
fn check_plain<R: AllocGlobal + Abort>(rt: &R, log: &[u8], wanted: &[u8]) {
    let made = plain(joined(rt, &[log])).expect(rt, "a plain log");
    assert!(rt; made.as_slice() == wanted);
}

#[test]
fn gives_the_samples(rt: HostRuntime) {
    check_plain(&rt, &CLOSED, &CLOSED_PLAIN);
    check_plain(&rt, &IN_USE, &IN_USE_PLAIN);
    check_plain(&rt, &SUMMED, &PLAIN);
    check_plain(&rt, &TAGGED, &TAGGED_PLAIN);
}

#[test]
fn sets_each_log_pos(rt: HostRuntime) {
    // of the same events, each with the position where it ends
    let front = part_of(&rt, &HANDED_INSERT, 0, 120);
    let ended = joined(&rt, &[front, part_of(&rt, &INSERT_ONE_ROW, 120, 259)]);
    check_plain(&rt, &SUMMED_INSERT, &ended);
    check_plain(&rt, &HANDED_INSERT, &ended);
}

/// A log has no plain log, for this fault, or it has one.
fn check_fault<R: AllocGlobal + Abort>(rt: &R, log: &[u8], wanted: Option<SumFault>) {
    let fault = plain(joined(rt, &[log])).err();
    assert!(rt; fault == wanted, "{fault:?} of {} bytes", log.len());
}

#[test]
fn leaves_plain_logs(rt: HostRuntime) {
    check_plain(&rt, &CLOSED_PLAIN, &CLOSED_PLAIN);
    check_plain(&rt, &IN_USE_PLAIN, &IN_USE_PLAIN);
    check_plain(&rt, &TAGGED_PLAIN, &TAGGED_PLAIN);
    // A server below 5.6.1 has no algorithm, whatever stands in its place.
    let renamed = with_bytes(&rt, &CLOSED, 25, b"5.5.62");
    let old = with_bytes(&rt, &renamed, 102, &[8, 8, 8]);
    check_plain(&rt, &old, &old);
    check_fault(&rt, part_of(&rt, &old, 0, 197), Some(cut_at(127)));
}

/// Whether a log is refused so for a changed byte of the event at `start`, which is `offset` bytes behind that: for its sum,
/// or for its framing or format where the byte is of these. A changed size of the format description may move its algorithm
/// to a 0, and the events of a log without sums don't reach to the end then.
fn is_told(fault: SumFault, start: u32, offset: usize) -> bool {
    match fault {
        SumFault::WrongSum { pos } => pos == start,
        SumFault::Log(Fault::CutEvent { pos }) => {
            (9..13).contains(&offset) && (pos == start || start == 4)
        }
        SumFault::Log(Fault::BadFormat { pos } | Fault::OldServer { pos })
        | SumFault::UnknownAlgorithm { pos } => pos == 4 && start == 4,
        _ => false,
    }
}

/// A log that is `CLOSED` but for the byte at a position, in the event at `start`, is refused as it is to be, or has a plain
/// log where no check sees this byte.
fn check_changed<R: AllocGlobal + Abort>(rt: &R, log: &[u8], start: u32, at: usize, seen: bool) {
    let offset = at.saturating_sub(start as usize);
    let right = match plain(joined(rt, &[log])) {
        Ok(_) => !seen,
        Err(fault) => seen && is_told(fault, start, offset),
    };
    assert!(rt; right, "at {at}");
}

/// Turns some bits of a byte.
fn turn(rt: &impl Abort, log: &mut [u8], at: usize, mask: u8) {
    let byte = log.get_mut(at).expect(rt, "a byte");
    *byte ^= mask;
}

/// Each byte of an event is changed, in its lowest bit and in all.
fn check_bytes<R: AllocGlobal + Abort>(rt: &R, log: &mut [u8], start: u32, end: u32) {
    for at in start as usize..end as usize {
        turn(rt, log, at, 0x01);
        check_changed(rt, log, start, at, at != FLAGS && at != ALGORITHM);
        turn(rt, log, at, 0xFE);
        check_changed(rt, log, start, at, true);
        turn(rt, log, at, 0xFF);
    }
}

#[test]
fn refuses_each_changed_byte(rt: HostRuntime) {
    let mut changed = CLOSED;
    for at in 0..4 {
        for mask in [0x01, 0xFF] {
            turn(&rt, &mut changed, at, mask);
            check_fault(&rt, &changed, Some(UNMARKED));
            turn(&rt, &mut changed, at, mask);
        }
    }
    for (start, end) in &EVENTS {
        check_bytes(&rt, &mut changed, *start, *end);
    }
}

/// `CLOSED` is cut before an event and at each of its bytes.
fn check_cuts<R: AllocGlobal + Abort>(rt: &R, start: u32, end: u32) {
    for len in start as usize..end as usize {
        // Before the first event there is no log, and before each other a whole one.
        let whole = len == start as usize && start > 4;
        let fault = if whole { None } else { Some(cut_at(start)) };
        check_fault(rt, part_of(rt, &CLOSED, 0, len), fault);
    }
}

#[test]
fn refuses_each_cut(rt: HostRuntime) {
    for len in 0..4 {
        check_fault(&rt, part_of(&rt, &CLOSED, 0, len), Some(UNMARKED));
    }
    for (start, end) in &EVENTS {
        check_cuts(&rt, *start, *end);
    }
}

/// The last byte of an event's sum is changed.
fn check_sum<R: AllocGlobal + Abort>(rt: &R, start: u32, end: u32) {
    let mut changed = CLOSED;
    turn(rt, &mut changed, end.saturating_sub(1) as usize, 1);
    check_fault(rt, &changed, Some(SumFault::WrongSum { pos: start }));
}

#[test]
fn refuses_wrong_sums_and_unknown_algorithms(rt: HostRuntime) {
    for algorithm in [2, 255] {
        let changed = with_bytes(&rt, &CLOSED, ALGORITHM, &[algorithm]);
        check_fault(&rt, &changed, Some(SumFault::UnknownAlgorithm { pos: 4 }));
    }
    for (start, end) in &EVENTS {
        check_sum(&rt, *start, *end);
    }
}

#[test]
fn refuses_a_sum_of_a_log_in_use(rt: HostRuntime) {
    // right but for the flag, with which it is taken here
    let sum = crc32(part_of(&rt, &IN_USE, 4, 123));
    let changed = with_bytes(&rt, &IN_USE, 123, &sum.to_le_bytes());
    check_fault(&rt, &changed, Some(SumFault::WrongSum { pos: 4 }));
}

#[test]
fn refuses_events_without_room_for_a_sum(rt: HostRuntime) {
    // the size of the second event, and where it ends then
    for (size, end) in [(19, 146), (20, 147), (21, 148), (22, 149)] {
        let changed = with_bytes(&rt, &CLOSED, 136, &[size, 0, 0, 0]);
        check_fault(&rt, part_of(&rt, &changed, 0, end), Some(cut_at(127)));
    }
}

/// A heap with room for a log, in bytes.
const ROOM: usize = 1 << 16;

/// Whether the plain log of a log is this, and takes no memory but the log's own.
fn is_in_place(rt: &HostRuntime, log: &[u8], wanted: &[u8]) -> Result<bool, Fail> {
    let heap = LocalHeap::new(rt.alloc(), ROOM)?;
    // the log is the first request
    let alloc = Refusing::new(&heap, 2);
    let made = plain(log.to_vec(&alloc)?).ok().ok_or("a plain log")?;
    Ok(made.as_slice() == wanted && !alloc.has_refused())
}

#[test]
fn takes_no_memory(rt: HostRuntime) -> Result<(), Fail> {
    assert!(rt; is_in_place(&rt, &CLOSED, &CLOSED_PLAIN)?);
    assert!(rt; is_in_place(&rt, &CLOSED_PLAIN, &CLOSED_PLAIN)?);
    assert!(rt; is_in_place(&rt, &TAGGED, &TAGGED_PLAIN)?);
    Ok(())
}

/// A fault is shown so.
fn check_text<R: AllocGlobal + Abort>(rt: &R, fault: SumFault, wanted: &str) {
    let text = format!(in rt.alloc(); "{fault}").expect(rt, "memory");
    assert!(rt; text.as_str() == wanted, "{text}");
}

#[test]
fn faults_are_shown(rt: HostRuntime) {
    check_text(&rt, cut_at(127), "CutEvent at 127");
    check_text(
        &rt,
        SumFault::UnknownAlgorithm { pos: 4 },
        "UnknownAlgorithm at 4",
    );
    check_text(&rt, SumFault::WrongSum { pos: 4 }, "WrongSum at 4");
}
