//! Lists of units as JSON, compared with what serde writes: names, statements, ids and faults of many kinds, times on both
//! sides of clock changes, and damaged events.

use crate::json_lines::{lines_of, put_totals};
use blog_device::Watched;
use blog_event::Log;
use blog_list::{Form, ListWriter, Sorting, Style, Totals};
use blog_source::{Reading, Source};
use bstr::ByteSlice;
use jiff::tz::{TimeZone, Tzif};
use list_calls::lists::ALL;
use list_calls::parts::{ONE, event_of};
use list_calls::shown_times::{BERLIN_TIMES, KOLKATA_TIMES, LORD_HOWE_TIMES, Shown};
use list_calls::sources::{source_of, source_with};
use list_calls::zones::{BERLIN, KOLKATA, LORD_HOWE};
use sample_logs::builder::{BEGIN, Part, XID, build, set_bytes};
use sample_logs::samples::{ALTER_BETWEEN, INSERT, MULTI_TABLE, SAVEPOINT_KEPT, UPDATE};
use sample_logs::summed::{CLOSED, CLOSED_PLAIN, IN_USE, IN_USE_PLAIN};
use server_logs::tagged::{TAGGED, TAGGED_PLAIN};
use std::alloc::Global;
use std::process::Abort;
use std::test::Fail;

/// Texts with characters of each length, with bytes that are none, and with what stands between two kinds.
#[rattlefmt::skip]
static TEXTS: [&'static [u8]; 36] = [
    b"", b"orders", b"a b.c-d_e$1", b"`", b"``", b"\"", b"\\", b"\\\"", b"a\"b\\c", b"/", b"\x08\x0c\n\r\t", b"\0", b"\x1f \x7f",
    b"tab\tin it", b"\xc2\x80", b"\xc2\x9f\xc2\xa0", b"\xc3\xa9t\xc3\xa9", b"\xe2\x80\xa8\xe2\x80\xa9", b"\xef\xbb\xbfx", b"\xef\xbf\xbd",
    b"\xe6\x97\xa5\xe6\x9c\xac", b"\xf0\x9f\x98\x80 \"", b"\xf4\x8f\xbf\xbf", b"\x80", b"\xbf\xbf", b"\xc0\xaf", b"\xc3", b"\xc3(",
    b"\xe2\x82", b"\xe2\x82\"", b"\xed\xa0\x80", b"\xf0\x9f\x98", b"\xf0\x9f\x98\\", b"\xf4\x90\x80\x80", b"\xf8\x88\x80\x80\x80", b"\xff\xfe",
];

/// Returns lines in which the control characters that serde writes as they are, U+007F to U+009F, are escaped.
fn without_controls(alloc: Global, lines: &[u8]) -> Result<Vec<u8>, Fail> {
    let mut escaped = String::new(alloc);
    for c in str::from_utf8(lines)?.chars() {
        if c >= '\u{7F}' && c <= '\u{9F}' {
            escaped.push_str(format!(in alloc; "\\u{:04x}", u32::from(c))?.as_str())?;
        } else {
            escaped.push(c)?;
        }
    }
    Ok(escaped.into_bytes())
}

/// Returns the lines of a source, under a name or without, and its totals, when they are those of serde.
fn checked_lines(
    rt: &(impl AllocGlobal + Abort),
    source: &Source,
    name: Option<&[u8]>,
    zone: TimeZone<'_>,
) -> Result<Vec<u8>, Fail> {
    let lines = lines_of(rt.alloc(), zone, source, name)?;
    let mut wanted = without_controls(rt.alloc(), &lines)?;
    let style = Style {
        form: Form::Json,
        zone,
        gtids: false,
        sorting: Sorting::Place,
        seed: 0,
    };
    let mut output = Watched::new(Vec::new(rt.alloc()));
    let list = ListWriter::new(rt.alloc(), rt.alloc(), &style)?;
    let mut totals = Totals::NONE;
    assert!(rt; list.write_header(&mut output) == Ok(()));
    let answer = list.write_log(source, name, &ALL, &mut totals, &mut output);
    assert!(rt; answer.is_ok());
    assert!(rt; list.write_totals(&totals, &mut output) == Ok(()));
    put_totals(rt.alloc(), &mut wanted, &totals)?;
    let text = str::from_utf8(output.device().as_slice())?;
    assert!(rt; text == str::from_utf8(&wanted)?);
    Ok(wanted)
}

/// Checks the lines of a source, under a name or without, and its totals.
fn check_source(
    rt: &(impl AllocGlobal + Abort),
    source: &Source,
    name: Option<&[u8]>,
    zone: TimeZone<'_>,
) -> Result<(), Fail> {
    checked_lines(rt, source, name, zone)?;
    Ok(())
}

/// Checks the lines of a log, without a name and in UTC.
fn check_log(rt: &(impl AllocGlobal + Abort), bytes: &[u8]) -> Result<(), Fail> {
    check_source(rt, &source_of(rt, bytes)?, None, TimeZone::UTC)
}

/// Checks the lines of a log that may be damaged, without a name and in UTC. Returns whether it can be opened.
fn check_damaged(rt: &(impl AllocGlobal + Abort), bytes: &[u8]) -> Result<bool, Fail> {
    let Ok(source) = Source::open(bytes.to_vec(rt.alloc())?, Reading::ALL) else {
        return Ok(false);
    };
    if Log::open(source.bytes()).is_err() {
        return Ok(false);
    }
    check_source(rt, &source, None, TimeZone::UTC)?;
    Ok(true)
}

/// Checks the lines of a log that changes a table of this name in a schema of this name, and that is named so itself.
fn check_name(rt: &(impl AllocGlobal + Abort), name: &[u8]) -> Result<(), Fail> {
    let [low, ..] = name.len().to_le_bytes();
    let mut body = Vec::new(rt.alloc());
    body.extend_from_slice(&[1, 0, 0, 0, 0, 0, 1, 0, low])?;
    body.extend_from_slice(name)?;
    body.extend_from_slice(&[0, low])?;
    body.extend_from_slice(name)?;
    body.extend_from_slice(&[0, 1, 3, 0, 1])?;
    let map = Part::Other {
        kind: 19,
        flags: 0,
        body: &body,
    };
    let source = source_of(rt, &build(rt, &[BEGIN, map, ONE, XID])?)?;
    check_source(rt, &source, Some(name), TimeZone::UTC)
}

/// Checks the lines of a log of a statement of this text.
fn check_statement(rt: &(impl AllocGlobal + Abort), text: &[u8]) -> Result<(), Fail> {
    let status = &[];
    check_log(rt, &build(rt, &[Part::Query { status, text }])?)
}

/// Checks the lines of a log of a transaction whose id has this tag.
fn check_tag(rt: &(impl AllocGlobal + Abort), tag: &[u8]) -> Result<(), Fail> {
    let mut body = Vec::new(rt.alloc());
    body.extend_from_slice(b"\0\x28\x3c\x10\x5d\xe7\x30\x11\xf1\x97\xff\x02\xfc\0\0\0\x01")?;
    body.extend_from_slice(&[9, 1, 0, 0, 0, 0, 0, 0, 42])?;
    body.extend_from_slice(tag)?;
    let id = Part::Other {
        kind: 33,
        flags: 0,
        body: &body,
    };
    check_log(rt, &build(rt, &[id, BEGIN, XID])?)
}

/// Checks a text as each of what a log has texts for.
fn check_text(rt: &(impl AllocGlobal + Abort), text: &[u8]) -> Result<(), Fail> {
    check_name(rt, text)?;
    check_statement(rt, text)?;
    check_tag(rt, text)
}

#[test]
fn each_byte_is_written_as_serde_does(rt: HostRuntime) -> Result<(), Fail> {
    for n in 0..256_usize {
        let [byte, ..] = n.to_le_bytes();
        check_text(&rt, &[byte])?;
        check_text(&rt, &[b'a', byte, b'b'])?;
        check_text(&rt, &[0xE2, 0x82, byte, b'"'])?;
    }
    Ok(())
}

#[test]
fn texts_are_written_as_serde_does(rt: HostRuntime) -> Result<(), Fail> {
    for text in TEXTS {
        check_text(&rt, text)?;
        let mut more = Vec::new(rt.alloc());
        for other in TEXTS {
            more.clear();
            more.extend_from_slice(text)?;
            more.extend_from_slice(other)?;
            check_text(&rt, &more)?;
        }
    }
    Ok(())
}

#[test]
fn long_texts_are_written_as_serde_does(rt: HostRuntime) -> Result<(), Fail> {
    let mut text = Vec::new(rt.alloc());
    for n in 0..260_usize {
        let part = TEXTS.get(n % TEXTS.len()).copied().unwrap_or(b"");
        text.extend_from_slice(part)?;
        text.extend_from_slice(b"create table ")?;
        check_statement(&rt, &text)?;
        check_name(&rt, text.get(..n.min(255)).unwrap_or(b""))?;
    }
    Ok(())
}

#[test]
fn escapes_at_each_place_are_written_as_serde_does(rt: HostRuntime) -> Result<(), Fail> {
    let mut text = Vec::new(rt.alloc());
    for len in 14..35_usize {
        for at in 0..len {
            for part in [b"\"".as_slice(), b"\x1f", b"\xd0\xb6\\", b"\xff"] {
                text.clear();
                text.resize(at, b'a')?;
                text.extend_from_slice(part)?;
                text.resize(len, b'a')?;
                check_name(&rt, &text)?;
            }
        }
    }
    Ok(())
}

/// Where the Query events of `CLOSED_PLAIN` begin, one in each of its transactions.
const QUERIES: [usize; 4] = [269, 563, 842, 1218];

/// The log `CLOSED_PLAIN` with this time in its Query events.
fn closed_at(rt: &impl AllocGlobal, seconds: u32) -> Result<Vec<u8>, Fail> {
    let mut log = CLOSED_PLAIN.to_vec(rt.alloc())?;
    let [first, second, third, fourth] = seconds.to_le_bytes();
    for at in QUERIES {
        let edits = [
            (at, first),
            (at.wrapping_add(1), second),
            (at.wrapping_add(2), third),
            (at.wrapping_add(3), fourth),
        ];
        set_bytes(&mut log, &edits)?;
    }
    Ok(log)
}

/// Checks the lines of the transactions of `CLOSED_PLAIN` at these times in the zone of this file, and that each has its time.
fn check_times(rt: &(impl AllocGlobal + Abort), file: &[u8], times: &[Shown]) -> Result<(), Fail> {
    let table = Tzif::parse(rt.alloc(), None, file)?;
    let zone = TimeZone::tzif(&table);
    for (seconds, _, shown) in times {
        let source = source_of(rt, &closed_at(rt, *seconds)?)?;
        let lines = checked_lines(rt, &source, Some(b"a.1"), zone)?;
        let time = format!(in rt.alloc(); "\"time\":\"{shown}\",\"timestamp\":{seconds},")?;
        let count = lines.as_slice().find_iter(time.as_bytes()).count();
        assert!(rt; count == QUERIES.len(), "{shown}");
    }
    check_source(rt, &source_of(rt, &IN_USE)?, None, zone)
}

#[test]
fn times_are_written_as_by_serde(rt: HostRuntime) -> Result<(), Fail> {
    check_times(&rt, BERLIN, &BERLIN_TIMES)?;
    check_times(&rt, KOLKATA, &KOLKATA_TIMES)?;
    check_times(&rt, LORD_HOWE, &LORD_HOWE_TIMES)
}

/// Bytes of events of `CLOSED`: of its first transaction's rows, of its Previous_gtids event, and of its third transaction's
/// rows.
const IN_EVENTS: [usize; 3] = [450, 196, 1060];

#[test]
fn damaged_events_are_written_as_serde_does(rt: HostRuntime) -> Result<(), Fail> {
    let how = Reading {
        stop: None,
        skip_damaged: true,
    };
    let mut damaged = CLOSED;
    for (n, at) in IN_EVENTS.iter().enumerate() {
        if let Some(byte) = damaged.get_mut(*at) {
            *byte ^= 1;
        }
        let source = source_with(&rt, &damaged, how)?;
        let lines = checked_lines(&rt, &source, Some(b"a.1"), TimeZone::UTC)?;
        let count = n.wrapping_add(1);
        let last = format!(in rt.alloc(); "}}\n{{\"damaged_events\":{count}}}\n")?;
        assert!(rt; lines.as_slice().ends_with(last.as_bytes()));
    }
    Ok(())
}

#[test]
fn whole_logs_are_written_as_serde_does(rt: HostRuntime) -> Result<(), Fail> {
    for bytes in [
        INSERT.as_slice(),
        &UPDATE,
        &MULTI_TABLE,
        &SAVEPOINT_KEPT,
        &ALTER_BETWEEN,
        &CLOSED,
        &CLOSED_PLAIN,
        &IN_USE,
        &IN_USE_PLAIN,
        &TAGGED,
        &TAGGED_PLAIN,
    ] {
        let source = source_of(&rt, bytes)?;
        check_source(&rt, &source, None, TimeZone::UTC)?;
        check_source(&rt, &source, Some(b"binlog.000001"), TimeZone::UTC)?;
    }
    Ok(())
}

#[test]
fn each_fault_is_written_as_serde_does(rt: HostRuntime) -> Result<(), Fail> {
    for bytes in [IN_USE_PLAIN.as_slice(), &MULTI_TABLE, &TAGGED_PLAIN] {
        let mut cut = 0_usize;
        let mut changed = 0_usize;
        for at in (0..bytes.len()).step_by(7) {
            if check_damaged(&rt, bytes.get(..at).unwrap_or(b""))? {
                cut = cut.saturating_add(1);
            }
            let mut other = bytes.to_vec(rt.alloc())?;
            if let Some(byte) = other.get_mut(at) {
                *byte ^= 0x15;
            }
            if check_damaged(&rt, &other)? {
                changed = changed.saturating_add(1);
            }
        }
        assert!(rt; cut > 0);
        assert!(rt; changed > 0);
    }
    for kind in 0..256_usize {
        let [kind, ..] = kind.to_le_bytes();
        check_log(&rt, &build(&rt, &[event_of(kind)])?)?;
        check_log(&rt, &build(&rt, &[BEGIN, event_of(kind), XID])?)?;
    }
    Ok(())
}
