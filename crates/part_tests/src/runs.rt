//! Runs over a part of a log, which tests share.

ghost use Rattle.blog_run.specs.Writing.{HasShortWriting};

use blog_device::Watched;
use blog_event::Fault;
use blog_row::Order;
use blog_run::{Writing, WritingFault, write_changes};
use blog_trans::Selection;
use jiff::tz::TimeZone;
use list_run::GivenLog;
use std::alloc::{AllocError, Allocator};
use std::test::Fail;
use testkit::devices::{ALL, Failure, SlowReader, SlowWriter};
use undo_run::{FurtherFault, LogsFault, OpeningFault, PartFault, UnitRequest, write_part};

/// Changes that undo others, as a log.
pub(crate) const UNDO: Writing<'static> = Writing {
    order: Order::Backward,
    limit: 1 << 20,
    sql: None,
};

/// The changes of all tables between two positions.
pub(crate) fn between(start: u32, stop: Option<u32>) -> Selection<'static> {
    Selection {
        start,
        stop,
        database: None,
        table: None,
    }
}

/// What came of a run.
#[derive(Clone, Copy, Debug, PartialEq, Eq)]
pub(crate) enum Came {
    Done,
    Sums(blog_sum::SumFault),
    NoEventAt(u32),
    NoUnitAt(u32),
    NoUnitWithGtid(usize),
    Log(Fault),
    NothingSelected,
    Further(usize, FurtherFault),
    LaterLog(usize, OpeningFault),
    ChangedSince(u64),
    UnknownSince,
    Unmerged,
    Other,
}

/// Why nothing is written, and in which log the fault has its place, by number.
fn came_of_logs<A: Allocator>(fault: &LogsFault<A>) -> (usize, Came) {
    match fault {
        LogsFault::Opening(OpeningFault::Sums(fault)) => (0, Came::Sums(*fault)),
        LogsFault::Opening(OpeningFault::Run(_)) => (0, Came::Other),
        LogsFault::Further(n, fault) => (*n, Came::Further(*n, *fault)),
        LogsFault::Part(n, fault) => (*n, came_of(fault)),
    }
}

/// Why a part isn't written.
fn came_of<A: Allocator>(fault: &PartFault<A>) -> Came {
    match fault {
        PartFault::Sums(fault) => Came::Sums(*fault),
        PartFault::NoEventAt(pos) => Came::NoEventAt(*pos),
        PartFault::Log(fault) => Came::Log(*fault),
        PartFault::NothingSelected => Came::NothingSelected,
        PartFault::LaterLog(n, fault) => Came::LaterLog(*n, *fault),
        PartFault::ChangedSince(rows, _) => Came::ChangedSince(*rows),
        PartFault::UnknownSince(_) => Came::UnknownSince,
        PartFault::Unmerged(_) => Came::Unmerged,
        PartFault::NoUnitAt(pos) => Came::NoUnitAt(*pos),
        PartFault::NoUnitWithGtid(n) => Came::NoUnitWithGtid(*n),
        PartFault::Run(_) | PartFault::TooLong | PartFault::NoSchema(_) => Came::Other,
    }
}

/// The lines that a refusal comes with.
fn lines_of<R: AllocGlobal, A: Allocator>(rt: &R, fault: &LogsFault<A>) -> Result<Vec<u8>, Fail> {
    let lines: &[u8] = match fault {
        LogsFault::Part(_, PartFault::ChangedSince(_, lines)) => lines,
        LogsFault::Part(_, PartFault::UnknownSince(lines)) => lines,
        LogsFault::Part(_, PartFault::Unmerged(lines)) => lines,
        _ => &[],
    };
    Ok(lines.to_vec(rt.alloc())?)
}

/// What comes of writing a part of a log, what was written, and the report. What came later isn't looked at.
pub(crate) fn part_of<R: AllocGlobal>(
    rt: &R,
    log: &[u8],
    part: &Selection<'_>,
    writing: &Writing<'_>,
) -> Result<(Came, Vec<u8>, Vec<u8>), Fail>
    requires { HasShortWriting writing.now }
{
    part_with(rt, log, part, false, &[], writing)
}

/// What comes of undoing a part of a log.
pub(crate) fn undone<R: AllocGlobal>(
    rt: &R,
    log: &[u8],
    part: &Selection<'_>,
) -> Result<Came, Fail> {
    let (came, _, _) = part_of(rt, log, part, &UNDO)?;
    Ok(came)
}

/// No later logs.
pub(crate) fn no_logs<A: Allocator>(alloc: A) -> Vec<GivenLog<'static, SlowReader<'static>>, A> {
    Vec::new(alloc)
}

/// These later logs, by their names, each read by one call.
pub(crate) fn given<'a, A: Allocator>(
    alloc: A,
    logs: &[(&'a str, &'a [u8])],
) -> Result<Vec<GivenLog<'a, SlowReader<'a>>, A>, AllocError> {
    let mut all = Vec::new(alloc);
    for (name, log) in logs {
        let reader = Watched::new(SlowReader::new(log, ALL, Failure::Never));
        all.push(GivenLog { name, reader })?;
    }
    Ok(all)
}

/// What comes of writing a part of a log, what was written, and the report, or the lines that a refusal comes with. What came later, in
/// the log and in these, is looked at or not.
pub(crate) fn part_with<R: AllocGlobal>(
    rt: &R,
    log: &[u8],
    part: &Selection<'_>,
    looks: bool,
    later: &[(&str, &[u8])],
    writing: &Writing<'_>,
) -> Result<(Came, Vec<u8>, Vec<u8>), Fail>
    requires { HasShortWriting writing.now }
{
    part_in_zone(rt, TimeZone::UTC, log, part, looks, later, writing)
}

/// The same of units of the part that are asked for.
pub(crate) fn units_with<R: AllocGlobal>(
    rt: &R,
    log: &[u8],
    part: &Selection<'_>,
    asked: UnitRequest<'_>,
    looks: bool,
    later: &[(&str, &[u8])],
    writing: &Writing<'_>,
) -> Result<(Came, Vec<u8>, Vec<u8>), Fail>
    requires { HasShortWriting writing.now }
{
    let (_, came, text, told) = run(
        rt,
        TimeZone::UTC,
        log,
        &[],
        part,
        Some(asked),
        looks,
        later,
        writing,
    )?;
    Ok((came, text, told))
}

/// The same of several logs, the first of the name `binlog.000042`, and in which of them a fault has its place, by number.
pub(crate) fn logs_with<'l, R: AllocGlobal>(
    rt: &R,
    log: &[u8],
    more: &'l [(&'l str, &'l [u8])],
    part: &Selection<'_>,
    asked: Option<UnitRequest<'_>>,
    looks: bool,
    later: &'l [(&'l str, &'l [u8])],
) -> Result<(usize, Came, Vec<u8>, Vec<u8>), Fail> {
    run(
        rt,
        TimeZone::UTC,
        log,
        more,
        part,
        asked,
        looks,
        later,
        &UNDO,
    )
}

/// The same with times in a zone.
pub(crate) fn part_in_zone<R: AllocGlobal>(
    rt: &R,
    zone: TimeZone<'_>,
    log: &[u8],
    part: &Selection<'_>,
    looks: bool,
    later: &[(&str, &[u8])],
    writing: &Writing<'_>,
) -> Result<(Came, Vec<u8>, Vec<u8>), Fail>
    requires { HasShortWriting writing.now }
{
    let (_, came, text, told) = run(rt, zone, log, &[], part, None, looks, later, writing)?;
    Ok((came, text, told))
}

/// What comes of writing a part of logs, or units of it, what was written, and the report, or the lines that a refusal comes with; and before
/// all in which of the logs a fault has its place, by number.
fn run<'l, R: AllocGlobal>(
    rt: &R,
    zone: TimeZone<'_>,
    log: &[u8],
    more: &'l [(&'l str, &'l [u8])],
    part: &Selection<'_>,
    asked: Option<UnitRequest<'_>>,
    looks: bool,
    later: &'l [(&'l str, &'l [u8])],
    writing: &Writing<'_>,
) -> Result<(usize, Came, Vec<u8>, Vec<u8>), Fail>
    requires { HasShortWriting writing.now }
{
    let mut reader = Watched::new(SlowReader::new(log, ALL, Failure::Never));
    let mut writer = Watched::new(SlowWriter::new(rt, ALL, Failure::Never));
    let name = b"binlog.000042";
    let result = write_part(
        rt.alloc(),
        &mut reader,
        name,
        given(rt.alloc(), more)?,
        part,
        asked,
        looks,
        given(rt.alloc(), later)?,
        0,
        zone,
        writing,
        &mut writer,
    );
    let (number, came, told) = match result {
        Ok(told) => (0, Came::Done, told),
        Err(fault) => {
            let (number, came) = came_of_logs(&fault);
            (number, came, lines_of(rt, &fault)?)
        }
    };
    if came != Came::Done && writer.device().calls != 0 {
        return Err("something was written".into());
    }
    Ok((
        number,
        came,
        writer.device().taken.to_vec(rt.alloc())?,
        told,
    ))
}

/// What comes of writing the changes of a log without sums, and what was written.
pub(crate) fn changes_of<R: AllocGlobal>(
    rt: &R,
    log: &[u8],
    sel: &Selection<'_>,
    writing: &Writing<'_>,
) -> Result<(Result<(), WritingFault>, Vec<u8>), Fail>
    requires { HasShortWriting writing.now }
{
    let mut writer = Watched::new(SlowWriter::new(rt, ALL, Failure::Never));
    let done = write_changes(rt.alloc(), &mut writer, log, sel, 0, writing);
    Ok((done, writer.device().taken.to_vec(rt.alloc())?))
}
