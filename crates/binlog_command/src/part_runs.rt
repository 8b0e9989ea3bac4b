//! Runs of `undo` and `redo`.

ghost use Rattle.std.specs.Prelude.{◌≡◌, ◌<◌, IfErr, IfOk, None, OnErr, OnOk, false, length, option_map, true};
ghost use Rattle.std.specs.Io.KnownBytes.{Appends};
ghost use Rattle.blog_device.specs.Watched.{device_of, has_failed};
ghost use Rattle.blog_run.specs.Writing.{HasShortWriting};
ghost use Rattle.blog_sql.specs.Changed.{HaveShortNames};
ghost use Rattle.blog_trans.specs.Selection.{selection_of};
ghost use Rattle.binlog_command.specs.Runs.{HasRequest, IsFailureOf, IsToldOf, OfTold, TellsPart, WritesTask, asks_for_each, is_of_tables, log_path, shown_path};
ghost use Rattle.binlog_command.specs.Status.{status_of};
ghost use Rattle.undo_run.specs.Writes.{WritesPart};
ghost use Rattle.undo_run.specs.declared.fault.LogsFault.TheVariants.{Part};

use crate::commands::{Failure, Process};
use crate::log_file::open_logs;
use binlog_arguments::PartTask;
use blog_choice::TableChoice;
use blog_device::{RunFault, Watched, put};
use blog_event::Fault;
use blog_request::Wanted as WantedUnits;
use blog_run::Writing;
use blog_show::{RowForm, RowStyle};
use blog_source::Reading;
use blog_trans::Selection;
use list_run::{GivenLog, ListFault};
use result_file::{ResultFile, Wanted};
use show_run::show_logs;
use std::alloc::{AllocError, Allocator};
use std::io;
use std::io::{Read, Write};
use std::rt::Files;
use undo_run::{LogsFault, PartFault, UnitRequest, write_part};

/// A device that takes everything, and keeps nothing.
#[derive(Drop)]
struct Nowhere {}

impl Write for Nowhere {
    fn write(&mut self, buf: &[u8]) -> io::Result<usize> {
        Ok(buf.len())
    }

    fn flush(&mut self) -> io::Result<()> {
        Ok(())
    }
}

/// Opens the logs of a task and its later logs, of which no two may be the same file, and runs it.
pub(crate) fn run_part_of<'a, R: Files, A: Allocator + Copy, O: Write, E: Write>(
    rt: &R,
    alloc: A,
    process: Process,
    task: &PartTask<'a, A>,
    output: &mut Watched<O>,
    errors: &mut Watched<E>,
) -> Result<(), Failure<'a, A>>
    requires { HaveShortNames task.now.sql.schemas.items }
    ensures status { IfErr result (λ f. status_of f ≡ 1) }
    ensures refused { OnErr result (has_failed output.new ≡ false → output.new ≡ output.old) }
{
    let paths = paths_of(alloc, task)?;
    let mut logs = open_logs(rt, alloc, &paths)?;
    let mut given = logs.remove(0);
    let parts = split_logs(alloc, logs, task.further.len())?;
    if task.shows_rows {
        return show_part(
            alloc,
            process,
            &mut given.reader,
            parts.further,
            parts.later,
            task,
            output,
        );
    }
    run_part(
        rt,
        alloc,
        process,
        &mut given.reader,
        parts.further,
        parts.later,
        task,
        output,
        errors,
    )
}

/// Logs behind a first one.
#[derive(Drop)]
struct OpenedLogs<'a, L: Read, A: Allocator> {
    /// Those of which a part is taken, too.
    further: Vec<GivenLog<'a, L>, A>,
    /// Those of which what came later is looked at.
    later: Vec<GivenLog<'a, L>, A>,
}

/// The logs behind the first: so many further ones, and the later ones.
fn split_logs<'a, L: Read + Drop, A: Allocator + Copy>(
    alloc: A,
    logs: Vec<GivenLog<'a, L>, A>,
    count: usize,
) -> Result<OpenedLogs<'a, L, A>, AllocError> {
    let mut further = Vec::new(alloc);
    let mut later = Vec::new(alloc);
    for given in logs {
        if further.len() < count {
            further.push(given)?;
        } else {
            later.push(given)?;
        }
    }
    Ok(OpenedLogs { further, later })
}

/// The paths of a task's logs and of its later logs.
fn paths_of<'a, A: Allocator>(
    alloc: A,
    task: &PartTask<'a, A>,
) -> Result<Vec<&'a str, A>, AllocError>
    ensures { IfOk result (λ paths. 0 < length paths.items) }
{
    let mut paths = Vec::new(alloc);
    paths.push(task.sql.log)?;
    paths.extend_from_slice(&task.further)?;
    paths.extend_from_slice(&task.later)?;
    Ok(paths)
}

/// Undoes a part of the logs that are read, or makes it once more: writes that to standard output, to the result file, or nowhere. Reports
/// it on standard output, unless what is written goes there; else on standard error.
pub(crate) fn run_part<
    'a,
    R: Files,
    A: Allocator + Copy,
    D: Read,
    L: Read + Drop,
    O: Write,
    E: Write,
>(
    rt: &R,
    alloc: A,
    process: Process,
    reader: &mut Watched<D>,
    further: Vec<GivenLog<'a, L>, A>,
    later: Vec<GivenLog<'a, L>, A>,
    task: &PartTask<'a, A>,
    output: &mut Watched<O>,
    errors: &mut Watched<E>,
) -> Result<(), Failure<'a, A>>
    requires { HaveShortNames task.now.sql.schemas.items }
    ensures status { IfErr result (λ f. status_of f ≡ 1) }
    ensures refused { OnErr result (has_failed output.new ≡ false → output.new ≡ output.old) }
    ensures writes { task.now.sql.result_file ≡ None → task.now.dry_run ≡ false → WritesTask L.remaining later.entry.items further.entry.items task.now process.began (D.remaining (device_of reader.old)) (D.remaining (device_of reader.new))
        (O.contents (device_of output.old)) (O.contents (device_of output.new)) result }
    ensures tells { (task.now.sql.result_file ≡ None → task.now.dry_run ≡ true) → OnOk result (TellsPart L.remaining later.entry.items further.entry.items task.now process.began (D.remaining (device_of reader.old)) (D.remaining (device_of reader.new))
        (O.contents (device_of output.old)) (O.contents (device_of output.new))) }
{
    let writing = task.writing(process.began);
    let units = request(task);
    if task.dry_run {
        let mut nowhere = Watched::new(Nowhere {});
        let told = part_to(
            alloc,
            process,
            reader,
            further,
            later,
            task,
            units,
            &writing,
            &mut nowhere,
        )?;
        return tell(&told, output);
    }
    match task.sql.result_file {
        None => {
            let told = part_to(
                alloc, process, reader, further, later, task, units, &writing, output,
            )?;
            // what can't be printed is dropped
            let _ = put(errors, &told);
            Ok(())
        }
        Some(path) => {
            let wanted = Wanted {
                path,
                log: task.sql.log,
                replace: task.sql.force,
                process: process.id,
            };
            let told = part_to_file(
                rt, alloc, process, reader, further, later, task, units, &writing, &wanted,
            )?;
            tell(&told, output)
        }
    }
}

/// Reports the part of a task's logs, or the units of it that are asked for, and then shows the rows as they would be written. Both are held in
/// memory before they are printed.
fn show_part<'a, A: Allocator + Copy, D: Read, L: Read + Drop, O: Write>(
    alloc: A,
    process: Process,
    reader: &mut Watched<D>,
    further: Vec<GivenLog<'a, L>, A>,
    later: Vec<GivenLog<'a, L>, A>,
    task: &PartTask<'a, A>,
    output: &mut Watched<O>,
) -> Result<(), Failure<'a, A>>
    ensures status { IfErr result (λ f. status_of f ≡ 1) }
    ensures refused { OnErr result (has_failed output.new ≡ false → output.new ≡ output.old) }
{
    let units = request(task);
    let writing = Writing {
        order: task.order,
        limit: task.sql.size as usize,
        sql: None,
    };
    let mut log = Watched::new(Vec::new(alloc));
    let told = match part_to(
        alloc, process, reader, further, later, task, units, &writing, &mut log,
    ) {
        Ok(told) => told,
        Err(failure) => return Err(in_memory(failure, log.failed())),
    };
    let mut text = Watched::new(told);
    match show_written(alloc, process.seed, log.device(), task, &mut text) {
        Ok(()) => tell(text.device(), output),
        Err(failure) => Err(in_memory(failure, text.failed())),
    }
}

/// Why something isn't written to memory: where a write failed, memory was refused.
fn in_memory<A: Allocator>(failure: Failure<'_, A>, failed: bool) -> Failure<'_, A>
    ensures { status_of failure.entry ≡ 1 → status_of result ≡ 1 }
{
    if failed {
        Failure::List(None, ListFault::Run(RunFault::Log(Fault::OutOfMemory)))
    } else {
        failure
    }
}

/// Appends the rows that a log changes which was written for a task.
fn show_written<'a, A: Allocator + Copy, W: Write>(
    alloc: A,
    seed: u64,
    log: &[u8],
    task: &PartTask<'a, A>,
    text: &mut Watched<W>,
) -> Result<(), Failure<'a, A>>
    ensures status { IfErr result (λ f. status_of f ≡ 1) }
{
    let logs = one_log(alloc, task.sql.log, log)?;
    let style = RowStyle {
        zone: task.zone.time_zone(),
        form: RowForm::Lines,
        all_columns: false,
        width: SHOWN_COLUMNS,
    };
    match show_logs(
        alloc,
        logs,
        Reading::ALL,
        &every_unit(),
        &[],
        seed,
        &style,
        &mut None,
        text,
    ) {
        Ok(_) => Ok(()),
        Err((_, fault)) => Err(Failure::List(None, fault)),
    }
}

/// A log in memory, by a name.
fn one_log<'n, 'l: 'n, A: Allocator + Copy>(
    alloc: A,
    name: &'n str,
    log: &'l [u8],
) -> Result<Vec<GivenLog<'n, &'l [u8]>, A>, AllocError> {
    let mut logs = Vec::new(alloc);
    logs.push(GivenLog {
        name,
        reader: Watched::new(log),
    })?;
    Ok(logs)
}

/// In how many columns of a terminal a text is shown.
const SHOWN_COLUMNS: usize = 60;

/// All units of a log.
fn every_unit() -> WantedUnits<'static> {
    WantedUnits {
        start: None,
        stop: None,
        from_time: None,
        to_time: None,
        threads: &[],
        gtids: &[],
        choice: TableChoice {
            database: None,
            tables: &[],
            excluded: &[],
        },
    }
}

/// Whether a part is one of some tables.
fn is_of_tables(part: &Selection<'_>) -> bool
    ensures { result ≡ is_of_tables (selection_of part.now) }
{
    part.database.is_some() || part.table.is_some()
}

/// Whether each unit of a task's part is asked for by itself, though no option chooses some.
fn asks_for_each<A: Allocator>(task: &PartTask<'_, A>) -> bool
    ensures { result ≡ asks_for_each task.now }
{
    task.leaves || task.merges || is_of_tables(&task.part)
}

/// Which units of a task's part are asked for; all of it if no option chooses some of them, or tables.
fn request<'u, A: Allocator>(task: &'u PartTask<'_, A>) -> Option<UnitRequest<'u>>
    ensures { HasRequest task.now result }
{
    match task.units.wanted(asks_for_each(task)) {
        Some(wanted) => Some(UnitRequest {
            wanted,
            at: task.units.at.as_slice(),
            leaves: task.leaves,
            merges: task.merges,
        }),
        None => None,
    }
}

/// Writes the part of a task's logs to a device, or the units of it that are asked for, and returns the report.
fn part_to<'a, A: Allocator + Copy, D: Read, L: Read + Drop, W: Write>(
    alloc: A,
    process: Process,
    reader: &mut Watched<D>,
    further: Vec<GivenLog<'a, L>, A>,
    later: Vec<GivenLog<'a, L>, A>,
    task: &PartTask<'a, A>,
    units: Option<UnitRequest<'_>>,
    writing: &Writing<'_>,
    writer: &mut Watched<W>,
) -> Result<Vec<u8, A>, Failure<'a, A>>
    requires { HasShortWriting writing.now }
    ensures writes { OfTold task.now (WritesPart task.now.looks L.remaining later.entry.items writing.now task.now.sql.log.now further.entry.items (selection_of task.now.part) units.entry (D.remaining (device_of reader.old)) (D.remaining (device_of reader.new))
        (W.contents (device_of writer.old)) (W.contents (device_of writer.new))) result }
    ensures told { IfOk result (λ told. IsToldOf L.remaining later.entry.items further.entry.items writing.now task.now units.entry (D.remaining (device_of reader.old)) (D.remaining (device_of reader.new)) told.items) }
    ensures untouched { OnErr result (has_failed writer.new ≡ false → writer.new ≡ writer.old) }
    ensures status { IfErr result (λ f. status_of f ≡ 1) }
{
    match write_part(
        alloc,
        reader,
        task.sql.log.as_bytes(),
        further,
        &task.part,
        units,
        task.looks,
        later,
        process.seed,
        task.zone.time_zone(),
        writing,
        writer,
    ) {
        Ok(told) => Ok(told),
        Err(fault) => Err(failure_of(task, fault)),
    }
}

/// The path of the log of a number, from 0 on.
fn path_of<'a, A: Allocator>(task: &PartTask<'a, A>, n: usize) -> &'a str
    ensures { result.now ≡ log_path task.now n }
{
    if n == 0 {
        return task.sql.log;
    }
    match task.further.get(n - 1) {
        Some(path) => path,
        None => task.sql.log,
    }
}

/// The path of the log of a number, where there are several.
fn shown_path<'a, A: Allocator>(task: &PartTask<'a, A>, n: usize) -> Option<&'a str>
    ensures { option_map (λ path. path.now) result ≡ shown_path task.now n }
{
    match task.further.first() {
        None => None,
        Some(_) => Some(path_of(task, n)),
    }
}

/// Why a part isn't written, with the path of the log at fault, or the global transaction id.
fn failure_of<'a, A: Allocator>(task: &PartTask<'a, A>, fault: LogsFault<A>) -> Failure<'a, A>
    ensures told { IsFailureOf task.now fault result }
    ensures status { status_of result ≡ 1 }
{
    match fault {
        LogsFault::Opening(fault) => Failure::First(shown_path(task, 0), fault),
        LogsFault::Further(n, fault) => Failure::Further(
            path_of(task, n),
            path_of(task, n.saturating_sub(1)),
            fault,
        ),
        LogsFault::Part(number, fault) => part_failure_of(task, number, fault),
    }
}

/// The same of logs that were read. A place of the fault is one of the log of a number.
fn part_failure_of<'a, A: Allocator>(
    task: &PartTask<'a, A>,
    number: usize,
    fault: PartFault<A>,
) -> Failure<'a, A>
    ensures told { IsFailureOf task.now (Part number fault) result }
    ensures status { status_of result ≡ 1 }
{
    match fault {
        PartFault::LaterLog(n, fault) => match task.later.get(n) {
            Some(path) => Failure::Later(path, fault),
            None => Failure::Part(shown_path(task, number), PartFault::LaterLog(n, fault)),
        },
        PartFault::NoUnitWithGtid(n) => match task.units.gtid_texts.get(n) {
            Some(text) => Failure::NoGtid(text),
            None => Failure::Part(shown_path(task, number), PartFault::NoUnitWithGtid(n)),
        },
        fault => Failure::Part(shown_path(task, number), fault),
    }
}

/// Writes the part of a task's logs, or the units of it that are asked for, to the result file, which has its name once it is whole, and returns the report.
fn part_to_file<'a, R: Files, A: Allocator + Copy, D: Read, L: Read + Drop>(
    rt: &R,
    alloc: A,
    process: Process,
    reader: &mut Watched<D>,
    further: Vec<GivenLog<'a, L>, A>,
    later: Vec<GivenLog<'a, L>, A>,
    task: &PartTask<'a, A>,
    units: Option<UnitRequest<'_>>,
    writing: &Writing<'_>,
    wanted: &Wanted<'a>,
) -> Result<Vec<u8, A>, Failure<'a, A>>
    requires { HasShortWriting writing.now }
    ensures status { IfErr result (λ f. status_of f ≡ 1) }
    ensures told { IfOk result (λ told. IsToldOf L.remaining later.entry.items further.entry.items writing.now task.now units.entry (D.remaining (device_of reader.old)) (D.remaining (device_of reader.new)) told.items) }
{
    let logs = paths_of(alloc, task)?;
    let mut file = ResultFile::create(rt, alloc, wanted, &logs)?;
    match part_to(
        alloc,
        process,
        reader,
        further,
        later,
        task,
        units,
        writing,
        &mut file.writer,
    ) {
        Ok(told) => {
            file.finish(rt)?;
            Ok(told)
        }
        Err(failure) => match file.discard(rt) {
            Some(failed) => Err(Failure::ResultFile(failed)),
            None => Err(failure),
        },
    }
}

/// Writes a report to standard output.
fn tell<'a, A: Allocator, O: Write>(
    told: &[u8],
    output: &mut Watched<O>,
) -> Result<(), Failure<'a, A>>
    ensures status { IfErr result (λ f. status_of f ≡ 1) }
    ensures told { OnOk result (Appends (O.contents (device_of output.old)) (O.contents (device_of output.new)) told.now) }
    ensures mark { OnErr result (has_failed output.new ≡ true) }
{
    match put(output, told) {
        Ok(()) => Ok(()),
        Err(fault) => Err(Failure::Part(None, PartFault::Run(fault))),
    }
}
