//! Later logs that can't be read.

use crate::runs::{UNDO, between, no_logs};
use blog_device::{RunFault, Watched};
use jiff::tz::TimeZone;
use list_run::GivenLog;
use sample_logs::builder::{BEGIN, Part, T, XID, build, insert};
use std::io;
use std::process::Abort;
use std::test::Fail;
use testkit::devices::{ALL, Failure, SlowReader, SlowWriter};
use undo_run::{LogsFault, OpeningFault, PartFault, write_part};

/// Where the log of one transaction ends.
const STOP: u32 = 259;

/// A call fails of those that read the second of two later logs.
fn check_failed_read<'l, R: AllocGlobal + Abort>(
    rt: &R,
    log: &'l [u8],
    stop: u32,
    other: &'l [u8],
    call: u64,
) -> Result<(), Fail> {
    let mut reader = Watched::new(SlowReader::new(log, ALL, Failure::Never));
    let mut writer = Watched::new(SlowWriter::new(rt, ALL, Failure::Never));
    let failure = Failure::At(call, io::ErrorKind::Interrupted);
    let mut later = Vec::new(rt.alloc());
    later.push(GivenLog {
        name: "a",
        reader: Watched::new(SlowReader::new(other, ALL, Failure::Never)),
    })?;
    later.push(GivenLog {
        name: "b",
        reader: Watched::new(SlowReader::new(other, 100, failure)),
    })?;
    match write_part(
        rt.alloc(),
        &mut reader,
        b"",
        no_logs(rt.alloc()),
        &between(4, Some(stop)),
        None,
        true,
        later,
        0,
        TimeZone::UTC,
        &UNDO,
        &mut writer,
    ) {
        Err(LogsFault::Part(0, PartFault::LaterLog(1, OpeningFault::Run(RunFault::Read)))) => {}
        _ => return Err("the read wasn't missed".into()),
    }
    assert!(rt; writer.device().calls == 0);
    Ok(())
}

#[test]
fn a_failed_read_of_a_later_log_is_told(rt: HostRuntime) -> Result<(), Fail> {
    let log = build(&rt, &[BEGIN, Part::Map(T), insert(1, &[5]), XID])?;
    let other = build(&rt, &[BEGIN, Part::Map(T), insert(1, &[6]), XID])?;
    for call in 1..4_u64 {
        check_failed_read(&rt, &log, STOP, &other, call)?;
    }
    Ok(())
}
