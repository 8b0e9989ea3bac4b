//! Reading several logs of one server as one.

ghost use Rattle.std.specs.Prelude.{◌≡◌, ◌||◌};
ghost use Rattle.blog_device.specs.Watched.{device_of, has_failed};
ghost use Rattle.undo_run.specs.Several.{Joined};
ghost use Rattle.undo_run.specs.code.Reading.{Appends, AppendsAll, IsJoined, OpensFirst, OpensLogs, further_cause, is_failed_reading};

use crate::fault::{FurtherFault, LogsFault, OpeningFault};
use crate::log_names::Names;
use crate::opening::open_log;
use blog_device::{RunFault, Watched};
use blog_event::Fault;
use blog_source::{AppendFault, Source};
use list_run::GivenLog;
use std::alloc::Allocator;
use std::io::Read;

/// Logs that were read as one: what is handed out for them, and their names.
#[derive(Drop)]
pub(crate) struct Logs<'n, A: Allocator> {
    pub(crate) source: Source<A>,
    pub(crate) names: Names<'n, A>,
}

/// Why a further log isn't appended.
fn further_fault(fault: AppendFault) -> FurtherFault
    ensures { result ≡ further_cause fault }
{
    match fault {
        AppendFault::Damaged(fault) => FurtherFault::Damaged(fault),
        AppendFault::OtherServer => FurtherFault::OtherServer,
        AppendFault::OutOfOrder => FurtherFault::OutOfOrder,
        AppendFault::TooLong => FurtherFault::TooLong,
        AppendFault::OutOfMemory => FurtherFault::Opening(OpeningFault::Run(RunFault::Log(
            Fault::OutOfMemory,
        ))),
    }
}

/// Reads the further log of a number behind others, up to a stop, or to its end.
fn append_log<'n, A: Allocator + Copy, L: Read + Drop>(
    alloc: A,
    logs: Logs<'n, A>,
    n: usize,
    given: GivenLog<'n, L>,
    stop: Option<u32>,
) -> Result<Logs<'n, A>, LogsFault<A>>
    ensures { (j : Joined) → IsJoined j logs.entry → Appends L.remaining stop j n given.entry result }
{
    let mut given = given;
    let further = match open_log(alloc, &mut given.reader, stop) {
        Ok(further) => further,
        Err(fault) => return Err(LogsFault::Further(n, FurtherFault::Opening(fault))),
    };
    let Logs { source, names } = logs;
    let start = source.end();
    match source.append(&further) {
        Ok(source) => Ok(Logs {
            source,
            names: names.with(start, given.name.as_bytes())?,
        }),
        Err(fault) => Err(LogsFault::Further(n, further_fault(fault))),
    }
}

/// Reads further logs behind others, each to its end.
fn append_logs<'n, A: Allocator + Copy, L: Read + Drop>(
    alloc: A,
    first: Logs<'n, A>,
    more: Vec<GivenLog<'n, L>, A>,
) -> Result<Logs<'n, A>, LogsFault<A>>
    ensures { (j : Joined) → IsJoined j first.entry → AppendsAll L.remaining j more.entry.items result }
{
    let mut logs = first;
    let mut n = 1usize;
    'logs: for given in more {
        match append_log(alloc, logs, n, given, None) {
            Ok(with) => logs = with,
            Err(fault) => return Err(fault),
        }
        n += 1;
    }
    Ok(logs)
}

/// Reads the first log, up to a stop, or to its end.
fn open_first<'n, A: Allocator + Copy, R: Read>(
    alloc: A,
    reader: &mut Watched<R>,
    name: &'n [u8],
    stop: Option<u32>,
) -> Result<Logs<'n, A>, LogsFault<A>>
    ensures opens { OpensFirst stop name.now (R.remaining (device_of reader.old)) (R.remaining (device_of reader.new)) result }
    ensures mark { has_failed reader.new ≡ (has_failed reader.old || is_failed_reading result) }
{
    match open_log(alloc, reader, stop) {
        Ok(source) => Ok(Logs {
            source,
            names: Names::one(alloc, name),
        }),
        Err(fault) => Err(LogsFault::Opening(fault)),
    }
}

/// Reads logs of one server as one: a first one, and further ones behind it. All but the last are read to their ends, and the last up to
/// a stop.
pub(crate) fn open_logs<'n, A: Allocator + Copy, R: Read, L: Read + Drop>(
    alloc: A,
    reader: &mut Watched<R>,
    name: &'n [u8],
    more: Vec<GivenLog<'n, L>, A>,
    stop: Option<u32>,
) -> Result<Logs<'n, A>, LogsFault<A>>
    ensures opens { OpensLogs L.remaining stop name.now more.entry.items (R.remaining (device_of reader.old)) (R.remaining (device_of reader.new)) result }
    ensures mark { has_failed reader.new ≡ (has_failed reader.old || is_failed_reading result) }
{
    let mut more = more;
    let count = more.len();
    let Some(last) = more.pop() else {
        return open_first(alloc, reader, name, stop);
    };
    let first = match open_first(alloc, reader, name, None) {
        Ok(first) => first,
        Err(fault) => return Err(fault),
    };
    let logs = match append_logs(alloc, first, more) {
        Ok(logs) => logs,
        Err(fault) => return Err(fault),
    };
    append_log(alloc, logs, count, last, stop)
}
