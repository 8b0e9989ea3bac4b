//! Events that are put into a file and read again, and the first steps of opening one.

use crate::bytes::{joined, part_of};
use blog_event::{Fault, Header, Log, event_at, open_event, put_event};
use std::process::Abort;
use std::test::Fail;

/// The magic number.
const MAGIC: [u8; 4] = [0xFE, 0x62, 0x69, 0x6E];

/// A format description event, in the bytes of a file.
const FIRST: [u8; 94] = [
    0x9D, 0xFC, 0x5C, 0x43, 0x0F, 0x01, 0x00, 0x00, 0x00, 0x5E, 0x00, 0x00, 0x00, 0x62, 0x00, 0x00,
    0x00, 0x00, 0x00, 0x04, 0x00, 0x35, 0x2E, 0x30, 0x2E, 0x31, 0x35, 0x2D, 0x64, 0x65, 0x62, 0x75,
    0x67, 0x2D, 0x6C, 0x6F, 0x67, 0x00, 0x00, 0x00, 0x00, 0x00, 0x00, 0x00, 0x00, 0x00, 0x00, 0x00,
    0x00, 0x00, 0x00, 0x00, 0x00, 0x00, 0x00, 0x00, 0x00, 0x00, 0x00, 0x00, 0x00, 0x00, 0x00, 0x00,
    0x00, 0x00, 0x00, 0x00, 0x00, 0x00, 0x00, 0x9D, 0xFC, 0x5C, 0x43, 0x13, 0x38, 0x0D, 0x00, 0x08,
    0x00, 0x12, 0x00, 0x04, 0x04, 0x04, 0x04, 0x12, 0x00, 0x00, 0x4B, 0x00, 0x04, 0x1A,
];

/// Its header.
const HEADER: Header = Header {
    timestamp: 1_130_167_453,
    kind: 15,
    server_id: 1,
    size: 94,
    log_pos: 98,
    flags: 0,
};

#[test]
fn puts_and_reads_a_format_description(rt: HostRuntime) -> Result<(), Fail> {
    let mut file = vec![in rt.alloc(); 0xFE, 0x62, 0x69, 0x6E]?;
    // Size and log position are computed.
    let header = Header {
        size: 0,
        log_pos: 0,
        ..HEADER
    };
    let parts: [&[u8]; 4] = [&[4, 0], b"5.0.15-debug-log", &[0; 34], &FIRST[71..]];
    put_event(&mut file, header, &parts)?;
    assert!(rt; file.as_slice() == joined(&rt, &[&MAGIC, &FIRST]).as_slice());
    check_first(&rt, &file);
    assert!(rt; event_at(&file, 5).is_none());
    Ok(())
}

/// The format description is read at 4.
fn check_first(rt: &impl Abort, file: &[u8]) {
    let event = event_at(file, 4).expect(rt, "an event");
    assert!(rt; event.header == HEADER);
    assert!(rt; event.body == part_of(rt, &FIRST, 19, 94));
}

/// The magic number, and an event of the type 5 with a body of three zeros.
#[rattlefmt::skip]
const OPENED: [u8; 26] = [
    0xFE, 0x62, 0x69, 0x6E,
    1, 2, 3, 4, 5, 6, 7, 8, 9, 22, 0, 0, 0, 26, 0, 0, 0, 10, 11,
    0, 0, 0,
];

#[test]
fn opens_a_body_of_zeros(rt: HostRuntime) -> Result<(), Fail> {
    let mut file = vec![in rt.alloc(); 0xFE, 0x62, 0x69, 0x6E]?;
    let header = Header {
        timestamp: 0x0403_0201,
        kind: 5,
        server_id: 0x0908_0706,
        size: 99,
        log_pos: 99,
        flags: 0x0B0A,
    };
    let body = open_event(&mut file, header, 3)?;
    assert!(rt; body == 23);
    assert!(rt; file.as_slice() == OPENED.as_slice());
    Ok(())
}

/// The bytes are not opened as a log, for this fault.
fn check_refused(rt: &impl Abort, bytes: &[u8], fault: Fault) {
    let refused = Log::open(bytes).err();
    assert!(rt; refused == Some(fault), "{refused:?}");
}

#[test]
fn refuses_a_short_format(rt: HostRuntime) {
    let file = joined(&rt, &[&MAGIC, &FIRST]);
    check_refused(&rt, &file, Fault::BadFormat { pos: 4 });
    let unmarked = part_of(&rt, &file, 1, 98);
    check_refused(&rt, unmarked, Fault::NotABinlog { pos: 0 });
    let cut = part_of(&rt, &file, 0, 97);
    check_refused(&rt, cut, Fault::CutEvent { pos: 4 });
}

/// The body of a format description, with a length in the places that are checked alone.
#[rattlefmt::skip]
const LEAST_FORMAT: [u8; 97] = [
    // binlog version, server version `5.6.51`, creation time, header length
    4, 0, 0x35, 0x2E, 0x36, 0x2E, 0x35, 0x31, 0, 0, 0, 0, 0, 0, 0, 0, 0, 0, 0, 0, 0, 0, 0, 0, 0, 0, 0, 0, 0, 0, 0, 0,
    0, 0, 0, 0, 0, 0, 0, 0, 0, 0, 0, 0, 0, 0, 0, 0, 0, 0, 0, 0, 0, 0, 0, 0, 19,
    // post-header lengths, from type 1 on: those of the types 2, 19, 30, 31 and 32
    0, 13, 0, 0, 0, 0, 0, 0, 0, 0, 0, 0, 0, 0, 0, 0, 0, 0, 8, 0, 0, 0, 0, 0, 0, 0, 0, 0, 0, 10, 10, 10, 0, 0, 0,
    // checksum algorithm, checksum
    0, 0, 0, 0, 0,
];

/// A log of this format description and a Stop event, and a byte behind them.
fn cut_log<R: AllocGlobal + Abort>(rt: &R) -> Result<Vec<u8>, Fail> {
    let mut file = vec![in rt.alloc(); 0xFE, 0x62, 0x69, 0x6E]?;
    let parts: [&[u8]; 1] = [&LEAST_FORMAT];
    put_event(&mut file, HEADER, &parts)?;
    put_event(&mut file, Header { kind: 3, ..HEADER }, &[])?;
    file.push(0)?;
    Ok(file)
}

/// The events are a Stop event, and a fault behind it.
fn check_events(rt: &impl Abort, log: &Log<'_>) {
    let mut events = log.events(120);
    let next = events.next().expect(rt, "an event or a fault");
    let stop = next.expect(rt, "an event");
    assert!(rt; stop.pos == 120);
    assert!(rt; stop.header.kind == 3);
    let cut = events.next().expect(rt, "a fault").err();
    assert!(rt; cut == Some(Fault::CutEvent { pos: 139 }));
    assert!(rt; events.next().is_none());
}

#[test]
fn goes_through_a_log(rt: HostRuntime) -> Result<(), Fail> {
    let file = cut_log(&rt)?;
    let log = Log::open(&file).expect(&rt, "a log");
    assert!(rt; log.format().body == LEAST_FORMAT.as_slice());
    assert!(rt; log.first() == 120);
    assert!(rt; log.end() == 140);
    check_events(&rt, &log);
    let cut = log.event_at(139).err();
    assert!(rt; cut == Some(Fault::CutEvent { pos: 139 }));
    Ok(())
}
