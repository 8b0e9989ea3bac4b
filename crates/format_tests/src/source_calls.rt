//! Calls on sources, and what they are to find.

use crate::bytes::{joined, part_of, with_bytes};
use crate::source_logs::{HANDED_INSERT, SUMMED_INSERT};
use blog_event::Fault;
use blog_source::{Reading, Source};
use blog_sum::SumFault;
use std::process::Abort;

/// A reading that passes over damaged events.
pub const PASSING: Reading = Reading {
    stop: None,
    skip_damaged: true,
};

/// The source of a log.
pub fn opened<R: AllocGlobal + Abort>(rt: &R, log: &[u8], how: Reading) -> Source {
    Source::open(joined(rt, &[log]), how).expect(rt, "a source")
}

/// What a reading has to find: where it ends, why, and how many events it passes over.
#[derive(Clone, Copy)]
pub struct Found {
    pub end: u32,
    pub fault: Option<SumFault>,
    pub damaged: u32,
}

/// Reads a log, and checks what is found and the bytes that are handed out.
pub fn check_read<R: AllocGlobal + Abort>(
    rt: &R,
    log: &[u8],
    how: Reading,
    handed: &[u8],
    found: Found,
) {
    let source = opened(rt, log, how);
    let fault = source.fault();
    assert!(rt; fault == found.fault, "{fault:?} with {how:?}");
    let end = source.end();
    assert!(rt; end == found.end, "{end} with {how:?}");
    let damaged = source.damaged();
    assert!(rt; damaged == found.damaged, "{damaged} with {how:?}");
    assert!(rt; source.bytes() == handed, "{fault:?} at {end} with {how:?}");
}

pub fn cut_at(pos: u32) -> SumFault {
    SumFault::Log(Fault::CutEvent { pos })
}

pub fn wrong_at(pos: u32) -> SumFault {
    SumFault::WrongSum { pos }
}

/// The reading ends at an event that has a fault.
pub fn ended(end: u32, fault: SumFault) -> Found {
    Found {
        end,
        fault: Some(fault),
        damaged: 0,
    }
}

/// The reading ends here without a fault.
pub fn reached(end: u32) -> Found {
    Found {
        end,
        fault: None,
        damaged: 0,
    }
}

/// What is handed out for the small log, up to a position.
pub fn handed_to(rt: &impl Abort, at: usize) -> &'static [u8] {
    part_of(rt, &HANDED_INSERT, 0, at)
}

/// Opening a log fails with this fault.
pub fn check_refused<R: AllocGlobal + Abort>(rt: &R, log: &[u8], how: Reading, wanted: SumFault) {
    let fault = Source::open(joined(rt, &[log]), how).err();
    assert!(rt;
        fault == Some(wanted),
        "{fault:?}, not {wanted:?}, of {} bytes",
        log.len()
    );
}

/// The small log with some bits of one byte flipped.
pub fn turned<R: AllocGlobal + Abort>(rt: &R, at: usize, mask: u8) -> Vec<u8> {
    let byte = SUMMED_INSERT.get(at).expect(rt, "a byte");
    with_bytes(rt, &SUMMED_INSERT, at, &[*byte ^ mask])
}
