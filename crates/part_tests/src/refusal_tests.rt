//! Parts that aren't written, and why; and devices and memory that fail.

use crate::runs::{Came, UNDO, between, given, logs_with, no_logs, part_of, undone};
use blog_device::{RunFault, Watched};
use blog_event::{Fault, event_at};
use blog_sum::SumFault;
use blog_trans::Selection;
use jiff::tz::TimeZone;
use linked_list_allocator::LocalHeap;
use refusing::Refusing;
use sample_logs::builder::{BEGIN, Part, T, XID, build, delete, insert};
use sample_logs::summed::{CLOSED, IN_USE};
use std::alloc::Allocator;
use std::io;
use std::process::Abort;
use std::test::Fail;
use testkit::devices::{ALL, Failure, SlowReader, SlowWriter};
use undo_run::{FurtherFault, LogsFault, OpeningFault, PartFault, UnitRequest, write_part};

/// `CLOSED` with another byte at a place.
fn changed<R: AllocGlobal>(rt: &R, at: usize) -> Result<Vec<u8>, Fail> {
    let mut log = CLOSED.to_vec(rt.alloc())?;
    let byte = log.get_mut(at).ok_or("an edit past the end")?;
    *byte ^= 1;
    Ok(log)
}

/// Where the event begins that has a byte of a log, and where it ends.
fn event_with(log: &[u8], byte: u32) -> Option<(u32, u32)> {
    let mut at = 4;
    for _ in 0..log.len() {
        let event = event_at(log, at)?;
        let end = at.wrapping_add(event.header.size);
        if byte < end {
            return Some((at, end));
        }
        at = end;
    }
    None
}

/// Where the third unit of `CLOSED` starts and stops.
const START: u32 = 811;

const STOP: u32 = 1215;

/// Each changed byte of the log in front of the stop is found at its event, wherever the part starts; behind it none is looked at.
#[test]
fn damage_in_front_of_the_stop_is_found(rt: HostRuntime) -> Result<(), Fail> {
    let part = between(START, Some(STOP));
    let (came, wanted, _) = part_of(&rt, &CLOSED, &part, &UNDO)?;
    assert!(rt; came == Came::Done);
    for at in 126..CLOSED.len() {
        let log = changed(&rt, at)?;
        let (begins, _) = event_with(&CLOSED, at as u32).ok_or("no event")?;
        let (came, text, _) = part_of(&rt, &log, &part, &UNDO)?;
        let is_right = if begins >= STOP {
            came == Came::Done && text == wanted
        } else {
            match came {
                Came::Sums(SumFault::WrongSum { pos }) => pos == begins,
                Came::Sums(SumFault::Log(Fault::CutEvent { pos })) => pos == begins,
                _ => false,
            }
        };
        if !is_right {
            return Err(Fail::new(format_args!("byte {at}: {came:?}")));
        }
    }
    Ok(())
}

/// A log that is cut is told where its last event begins, if that is in front of the stop.
#[test]
fn cut_logs_are_refused(rt: HostRuntime) -> Result<(), Fail> {
    for len in 198..CLOSED.len() {
        let log = CLOSED.get(..len).ok_or("a longer log")?;
        let (begins, _) = event_with(&CLOSED, len as u32).ok_or("no event")?;
        let came = undone(&rt, log, &between(START, Some(STOP)))?;
        let wanted = if begins >= STOP {
            Came::Done
        } else if begins as usize == len {
            if len < START as usize {
                Came::NoEventAt(START)
            } else if len == START as usize {
                Came::NothingSelected
            } else {
                Came::Log(Fault::Unended { pos: begins })
            }
        } else {
            Came::Sums(SumFault::Log(Fault::CutEvent { pos: begins }))
        };
        if came != wanted {
            return Err(Fail::new(format_args!("{len}: {came:?}")));
        }
    }
    Ok(())
}

/// The first fault in the order of the log is told: `IN_USE` has a statement at 567.
#[test]
fn the_first_fault_is_told(rt: HostRuntime) -> Result<(), Fail> {
    let statement = Came::Log(Fault::Statement { pos: 567 });
    let came = undone(&rt, &IN_USE, &between(198, None))?;
    assert!(rt; came == statement);
    let later = Came::Log(Fault::Statement { pos: 1447 });
    for (at, wanted, wanted_later) in [
        (300_usize, None, None),
        (600, None, None),
        (720, Some(statement), None),
        (1900, Some(statement), Some(later)),
    ] {
        let mut log = IN_USE.to_vec(rt.alloc())?;
        *log.get_mut(at).ok_or("an edit past the end")? ^= 1;
        let (begins, _) = event_with(&IN_USE, at as u32).ok_or("no event")?;
        let damage = Came::Sums(SumFault::WrongSum { pos: begins });
        let came = undone(&rt, &log, &between(198, None))?;
        assert!(rt; came == wanted.unwrap_or(damage));
        // nothing is known behind the damage
        let came = undone(&rt, &log, &between(995, None))?;
        assert!(rt; came == wanted_later.unwrap_or(damage));
    }
    // the change of the definition is behind the stop
    let came = undone(&rt, &IN_USE, &between(198, Some(490)))?;
    assert!(rt; came == Came::Done);
    Ok(())
}

/// A statement about another table than `t`.
const OTHER_STATEMENT: Part<'static> = Part::Query {
    status: &[],
    text: b"DROP TABLE u",
};

/// A heap with room for a run, in bytes.
const ROOM: usize = 1 << 18;

/// Whether memory was refused.
fn lacks_memory<A: Allocator>(fault: &LogsFault<A>) -> bool {
    const NONE: OpeningFault = OpeningFault::Run(RunFault::Log(Fault::OutOfMemory));
    match fault {
        LogsFault::Opening(fault) => *fault == NONE,
        LogsFault::Further(_, FurtherFault::Opening(fault)) => *fault == NONE,
        LogsFault::Further(_, _) => false,
        LogsFault::Part(_, PartFault::Run(fault)) => *fault == RunFault::Log(Fault::OutOfMemory),
        LogsFault::Part(_, PartFault::Log(fault)) => *fault == Fault::OutOfMemory,
        LogsFault::Part(_, PartFault::LaterLog(_, fault)) => *fault == NONE,
        LogsFault::Part(_, _) => false,
    }
}

/// Each request for memory of a run over a part of logs, or over units of it, is refused in turn. There are at least so many.
pub(crate) fn refuse_each<'l, R: AllocGlobal + Abort>(
    rt: &R,
    log: &'l [u8],
    more: &'l [(&'l str, &'l [u8])],
    part: &Selection<'_>,
    asked: Option<UnitRequest<'_>>,
    looks: bool,
    later: &'l [(&'l str, &'l [u8])],
    least: usize,
) -> Result<(), Fail> {
    let (_, _, wanted, _) = logs_with(rt, log, more, part, asked, looks, later)?;
    let heap = LocalHeap::new(rt.alloc(), ROOM)?;
    for number in 0..400 {
        let alloc = Refusing::new(&heap, number + 1);
        let mut reader = Watched::new(SlowReader::new(log, ALL, Failure::Never));
        let mut writer = Watched::new(SlowWriter::new(rt, ALL, Failure::Never));
        let Ok(further) = given(&alloc, more) else {
            assert!(rt; alloc.has_refused());
            continue;
        };
        let Ok(logs) = given(&alloc, later) else {
            assert!(rt; alloc.has_refused());
            continue;
        };
        let lacking = match write_part(
            &alloc,
            &mut reader,
            b"",
            further,
            part,
            asked,
            looks,
            logs,
            0,
            TimeZone::UTC,
            &UNDO,
            &mut writer,
        ) {
            Ok(_) => None,
            Err(fault) => Some(lacks_memory(&fault)),
        };
        match lacking {
            None => {
                // a unit in front of the part may have lacked memory, and isn't looked at
                assert!(rt; writer.device().taken.as_slice() == wanted.as_slice());
                if !alloc.has_refused() {
                    assert!(rt; number >= least);
                    return Ok(());
                }
                continue;
            }
            Some(true) => {}
            Some(false) => return Err("another fault".into()),
        }
        assert!(rt; alloc.has_refused());
        assert!(rt; writer.device().calls == 0);
    }
    Err("more requests than are tried".into())
}

#[test]
fn a_refused_request_writes_nothing(rt: HostRuntime) -> Result<(), Fail> {
    refuse_each(&rt, &CLOSED, &[], &between(4, None), None, false, &[], 6)?;
    // with what came later
    let parts = [
        BEGIN,
        Part::Map(T),
        insert(1, &[5]),
        XID,
        BEGIN,
        Part::Map(T),
        delete(1, &[6]),
        XID,
        OTHER_STATEMENT,
    ];
    let log = build(&rt, &parts)?;
    let part = between(4, Some(259));
    refuse_each(&rt, &log, &[], &part, None, true, &[], 14)?;
    let later = build(
        &rt,
        &[OTHER_STATEMENT, BEGIN, Part::Map(T), delete(1, &[6]), XID],
    )?;
    let logs: [(&str, &[u8]); 2] = [("a", &later), ("b", &later)];
    refuse_each(&rt, &log, &[], &part, None, true, &logs, 20)?;
    // with further logs
    let unit = build(&rt, &[BEGIN, Part::Map(T), insert(1, &[5]), XID])?;
    let further: [(&str, &[u8]); 2] = [("a", &unit), ("b", &later)];
    refuse_each(
        &rt,
        &unit,
        &further,
        &between(4, Some(120)),
        None,
        true,
        &logs,
        24,
    )
}

#[test]
fn a_failed_read_writes_nothing(rt: HostRuntime) -> Result<(), Fail> {
    for call in 1..10_u64 {
        let failure = Failure::At(call, io::ErrorKind::Interrupted);
        let mut reader = Watched::new(SlowReader::new(&CLOSED, 200, failure));
        let mut writer = Watched::new(SlowWriter::new(&rt, ALL, Failure::Never));
        let part = between(4, None);
        match write_part(
            rt.alloc(),
            &mut reader,
            b"",
            no_logs(rt.alloc()),
            &part,
            None,
            false,
            no_logs(rt.alloc()),
            0,
            TimeZone::UTC,
            &UNDO,
            &mut writer,
        ) {
            Err(LogsFault::Opening(OpeningFault::Run(RunFault::Read))) => {}
            _ => return Err("the read wasn't missed".into()),
        }
        assert!(rt; writer.device().calls == 0);
    }
    Ok(())
}

#[test]
fn a_failed_write_is_told(rt: HostRuntime) -> Result<(), Fail> {
    let part = between(4, None);
    let (_, wanted, _) = part_of(&rt, &CLOSED, &part, &UNDO)?;
    for call in 1..5_u64 {
        let failure = Failure::At(call, io::ErrorKind::Other);
        let mut reader = Watched::new(SlowReader::new(&CLOSED, ALL, Failure::Never));
        let mut writer = Watched::new(SlowWriter::new(&rt, 100, failure));
        match write_part(
            rt.alloc(),
            &mut reader,
            b"",
            no_logs(rt.alloc()),
            &part,
            None,
            false,
            no_logs(rt.alloc()),
            0,
            TimeZone::UTC,
            &UNDO,
            &mut writer,
        ) {
            Err(LogsFault::Part(0, PartFault::Run(RunFault::Write))) => {}
            _ => return Err("the write wasn't missed".into()),
        }
        assert!(rt; wanted.starts_with(writer.device().taken.as_slice()));
    }
    Ok(())
}
