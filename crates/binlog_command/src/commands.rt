//! One run of the program, from its arguments to its exit status.

ghost use Rattle.std.specs.Prelude.{◌≡◌, ◌↔◌, ◌⊎◌, ◌≤◌, ◌||◌, IfErr, IsErr, IsOk, IsSome, None, OnErr, false, true};
ghost use Rattle.std.specs.Process.{exit_status};
ghost use Rattle.blog_device.specs.Watched.{device_of, has_failed};
ghost use Rattle.binlog_arguments.specs.Request.{HasShortMaking, HasSqlOptions, as_sql, asks_for_list, asks_for_part};
ghost use Rattle.blog_sql.specs.Changed.{HaveShortNames};
ghost use Rattle.blog_run.specs.Writing.{HasShortWriting, is_before_writing, is_failed_writing};
ghost use Rattle.blog_sql.specs.declared.options.SqlOptions.{SqlOptions};
ghost use Rattle.binlog_command.specs.Status.{status_of};
ghost use Rattle.blog_source.specs.code.SourceView.{end_of, log_of};
ghost use Rattle.binlog_command.specs.Runs.{OpensWhole, WritesSource, MayFollowList, OfNewLog, WritesNewLog, is_failed_read, is_failed_write, may_list, may_report};
ghost use Rattle.blog_device.specs.Devices.{is_read_fault, is_write_fault};
ghost use Rattle.binlog_command.specs.declared.commands.Failure.TheVariants.{Arguments, List, NewLog, ResultFile};
ghost use Rattle.blog_event.specs.declared.fault.Fault.TheVariants.{OutOfMemory};
ghost use Rattle.list_run.specs.declared.fault.ListFault.TheVariants.{Run as OfRun};
ghost use Rattle.blog_device.specs.declared.fault.RunFault.TheVariants.{Log as OfLog};
ghost use Rattle.binlog_command.specs.declared.commands.NewLogFault.TheVariants.{Run, Sums};
ghost use Rattle.binlog_arguments.specs.declared.arguments.Making.TheVariants as made;

use crate::list_runs::run_list;
use crate::log_file::{LogFault, open_log};
use crate::part_runs::run_part_of;
use crate::report_runs::run_report;
use crate::schemas::no_schema;
use crate::show_runs::run_show;
use binlog_arguments::{
    ArgumentsFault, Asked, Making, NewLogTask, PartTask, SqlTask, read_arguments,
};
use blog_device::{RunFault, Watched, put, read_log};
use blog_event::Fault;
use blog_run::{Writing, WritingFault, write_changes};
use blog_source::{Source, plain};
use blog_split::SplitFault;
use blog_sum::SumFault;
use blog_trans::Selection;
use list_run::ListFault;
use result_file::{FileFault, ResultFile, Wanted};
use std::alloc::{AllocError, Allocator};
use std::io;
use std::io::{Read, Write};
use std::process::ExitCode;
use std::rt::{Env, Files};
use undo_run::{FurtherFault, OpeningFault, PartFault};

/// What the program knows of its own process.
#[derive(Clone, Copy, Debug)]
pub struct Process {
    /// Its number.
    pub id: u32,
    /// When it began, in seconds since 1970 in UTC.
    pub began: u32,
    /// Whether its standard output is a terminal.
    pub writes_to_terminal: bool,
    /// The seed by which names and ids of tables are hashed. Nothing that is written depends on it.
    pub seed: u64,
}

/// Why the program didn't do what its arguments ask for.
#[derive(Drop)]
pub enum Failure<'a, A: Allocator> {
    /// The arguments ask for nothing.
    Arguments(ArgumentsFault<A>),
    /// The log of this path can't be opened, or is none.
    NoLog(&'a str, LogFault),
    /// A new log would go to a terminal.
    Terminal,
    /// The result file can't be written.
    ResultFile(FileFault<'a, A>),
    /// The new log can't be made, or not be written.
    NewLog(NewLogFault<A>),
    /// The log of the first path is that of the second.
    GivenTwice(&'a str, &'a str),
    /// The part of logs isn't written. The path is that of the log in which the fault has its place, where there are several.
    Part(Option<&'a str>, PartFault<A>),
    /// The log can't be read, so the part isn't written. The path is its own, where there are several.
    First(Option<&'a str>, OpeningFault),
    /// The log of the first path can't be read behind that of the second, so the part isn't written.
    Further(&'a str, &'a str, FurtherFault),
    /// The later log of this path can't be read, so the part isn't written.
    Later(&'a str, OpeningFault),
    /// No unit of the part has this global transaction id, or one of these, so the part isn't written.
    NoGtid(&'a str),
    /// The list isn't whole. The path is that of the log for which it isn't, where several are listed.
    List(Option<&'a str>, ListFault),
}

/// Why a new log can't be made or written.
#[derive(Drop)]
pub enum NewLogFault<A: Allocator> {
    /// A device failed, or the log can't be held.
    Run(RunFault),
    /// The log has no plain copy.
    Sums(SumFault),
    /// The statements of the log can't be cut.
    Split(SplitFault),
    /// The log changes no table in a database that is to have another name, as this text tells.
    NoSchema(String<A>),
}

impl<A: Allocator> Failure<'_, A> {
    /// The exit status: 2 where the arguments are wrong, else 1.
    pub fn status(&self) -> u8
        ensures { result ≡ status_of self.now }
    {
        match self {
            Failure::Arguments(ArgumentsFault::OutOfMemory) => 1,
            Failure::Arguments(_) => 2,
            _ => 1,
        }
    }
}

impl<'a, A: Allocator> From<ArgumentsFault<A>> for Failure<'a, A> {
    ghost from_gives = { λ fault failure. failure ≡ Arguments fault };

    fn from(fault: ArgumentsFault<A>) -> Failure<'a, A> {
        Failure::Arguments(fault)
    }
}

/// The system's answer where it gives no arguments.
impl<'a, A: Allocator> From<io::Error> for Failure<'a, A> {
    fn from(error: io::Error) -> Failure<'a, A> {
        Failure::Arguments(if error.kind() == io::ErrorKind::OutOfMemory {
            ArgumentsFault::OutOfMemory
        } else {
            ArgumentsFault::NotText
        })
    }
}

/// Memory for opening logs was refused.
impl<'a, A: Allocator> From<AllocError> for Failure<'a, A> {
    ghost from_gives = { λ _ failure. failure ≡ List None (OfRun (OfLog OutOfMemory)) };

    fn from(_error: AllocError) -> Failure<'a, A> {
        Failure::List(None, ListFault::Run(RunFault::Log(Fault::OutOfMemory)))
    }
}

impl<'a, A: Allocator> From<NewLogFault<A>> for Failure<'a, A> {
    ghost from_gives = { λ fault failure. failure ≡ NewLog fault };

    fn from(fault: NewLogFault<A>) -> Failure<'a, A> {
        Failure::NewLog(fault)
    }
}

impl<'a, A: Allocator> From<FileFault<'a, A>> for Failure<'a, A> {
    ghost from_gives = { λ fault failure. failure ≡ ResultFile fault };

    fn from(fault: FileFault<'a, A>) -> Failure<'a, A> {
        Failure::ResultFile(fault)
    }
}

impl<A: Allocator> From<RunFault> for NewLogFault<A> {
    ghost from_gives = { λ run fault. fault ≡ Run run };

    fn from(fault: RunFault) -> NewLogFault<A> {
        NewLogFault::Run(fault)
    }
}

impl<A: Allocator> From<SumFault> for NewLogFault<A> {
    ghost from_gives = { λ sums fault. fault ≡ Sums sums };

    fn from(fault: SumFault) -> NewLogFault<A> {
        NewLogFault::Sums(fault)
    }
}

/// Does what the arguments ask for, and answers the exit status: 0 where it is done, 1 where the log is
/// refused or something failed, 2 where the arguments are wrong. `arguments` is the system's answer, which
/// begins with the program's name. Where the status isn't 0 the reason is printed to `errors`. So is the report of a part of a log that
/// is written to `output`.
///
/// Memory is taken from `alloc`; the parser of the arguments takes it from the system.
pub fn command<R: Files + Env + AllocGlobal, A: Allocator + Copy, O: Write, E: Write>(
    rt: &R,
    alloc: A,
    process: Process,
    arguments: io::Result<Vec<String>>,
    output: &mut Watched<O>,
    errors: &mut Watched<E>,
) -> ExitCode
    ensures status { exit_status result ≤ 2 }

    // Nothing is printed where all is done, but for the report of a part of a log, and why nothing is listed; and nothing is written
    // where the arguments are wrong or aren't there.
    ensures quiet { may_report arguments ≡ false → exit_status result ≡ 0 → errors.new ≡ errors.old }
    ensures unwritten { exit_status result ≡ 2 → output.new ≡ output.old }
    ensures unread { IsErr arguments → (1 ≤ exit_status result) × (output.new ≡ output.old) }

    // A run that fails where the output doesn't has written nothing, but for the list or the rows of a log.
    ensures refused { may_list arguments ≡ false → 1 ≤ exit_status result → has_failed output.new ≡ false
        → output.new ≡ output.old }
{
    let arguments = match arguments {
        Ok(arguments) => arguments,
        Err(error) => {
            let outcome: Result<(), Failure<A>> = Err(Failure::from(error));
            return report(outcome, errors);
        }
    };
    let outcome = carry_out(rt, alloc, process, arguments.as_slice(), output, errors);
    report(outcome, errors)
}

/// Prints a failure, and answers the exit status.
fn report<A: Allocator, E: Write>(
    outcome: Result<(), Failure<'_, A>>,
    errors: &mut Watched<E>,
) -> ExitCode
    ensures done { IsOk outcome.entry → (exit_status result ≡ 0) × (errors.new ≡ errors.old) }
    ensures failed { IfErr outcome.entry (λ failure. exit_status result ≡ status_of failure) }
{
    match outcome {
        Ok(()) => ExitCode::from(0),
        Err(failure) => {
            failure.print(errors);
            ExitCode::from(failure.status())
        }
    }
}

fn carry_out<'a, R: Files + Env + AllocGlobal, A: Allocator + Copy, O: Write, E: Write>(
    rt: &R,
    alloc: A,
    process: Process,
    arguments: &'a [String],
    output: &mut Watched<O>,
    errors: &mut Watched<E>,
) -> Result<(), Failure<'a, A>>
    ensures quiet { asks_for_list arguments.now ≡ false → asks_for_part arguments.now ≡ false → errors.new ≡ errors.old }
    ensures unwritten { IfErr result (λ f. status_of f ≡ 2 → output.new ≡ output.old) }
    ensures refused { OnErr result (asks_for_list arguments.now ≡ false → has_failed output.new ≡ false → output.new ≡ output.old) }
    ensures begun { IfErr result (λ f. has_failed output.new ≡ false → (output.new ≡ output.old) ⊎ MayFollowList f) }
{
    match read_arguments(rt, alloc, arguments)? {
        Asked::Text(text) => match put(output, text.as_bytes()) {
            Ok(()) => {}
            Err(fault) => return Err(Failure::NewLog(NewLogFault::Run(fault))),
        },
        Asked::NewLog(task) => {
            check_output(process, &task)?;
            let mut reader = open_log(rt, task.log)?;
            run_new_log(rt, alloc, process, &mut reader, &task, output)?
        }
        Asked::Sql(task) => {
            let mut reader = open_log(rt, task.log)?;
            run_sql(rt, alloc, process, &mut reader, &task, output)?
        }
        Asked::List(task) => run_list(rt, alloc, process.seed, &task, output, errors)?,
        Asked::Show(task) => run_show(rt, alloc, process.seed, &task, output, errors)?,
        Asked::Report(task) => run_report(rt, alloc, process, &task, output, errors)?,
        Asked::Part(task) => {
            check_part_output(process, &task)?;
            run_part_of(rt, alloc, process, &task, output, errors)?
        }
    }
    Ok(())
}

/// A new log, which is binary, isn't written to a terminal.
fn check_output<'a, A: Allocator>(
    process: Process,
    task: &NewLogTask<'a, '_>,
) -> Result<(), Failure<'a, A>>
    ensures refused { IsErr result ↔ (process.writes_to_terminal ≡ true) × (task.now.result_file ≡ None) }
    ensures status { IfErr result (λ f. status_of f ≡ 1) }
{
    if process.writes_to_terminal && task.result_file.is_none() {
        Err(Failure::Terminal)
    } else {
        Ok(())
    }
}

/// Neither is a part of a log that is written as one.
fn check_part_output<'a, A: Allocator>(
    process: Process,
    task: &PartTask<'a, A>,
) -> Result<(), Failure<'a, A>>
    ensures refused { IsErr result ↔ (process.writes_to_terminal ≡ true) × (task.now.as_log ≡ true) × (task.now.dry_run ≡ false) × (task.now.sql.result_file ≡ None) }
    ensures status { IfErr result (λ f. status_of f ≡ 1) }
{
    if process.writes_to_terminal
        && task.as_log
        && !task.dry_run
        && task.sql.result_file.is_none()
    {
        Err(Failure::Terminal)
    } else {
        Ok(())
    }
}

/// Writes the log that is read as SQL to standard output or to the result file.
fn run_sql<'a, R: Files, A: Allocator + Copy, D: Read, O: Write>(
    rt: &R,
    alloc: A,
    process: Process,
    reader: &mut Watched<D>,
    task: &SqlTask<'a, A>,
    output: &mut Watched<O>,
) -> Result<(), Failure<'a, A>>
    requires { HaveShortNames task.now.schemas.items }
    ensures status { IfErr result (λ f. status_of f ≡ 1) }
    ensures refused { OnErr result (has_failed output.new ≡ false → output.new ≡ output.old) }
    ensures aside { IsSome task.now.result_file → output.new ≡ output.old }
    ensures writes { task.now.result_file ≡ None → (how : SqlOptions) × HasSqlOptions task.now process.began how
        × OfNewLog (WritesNewLog (made.Changes (as_sql task.now.size how)) (D.remaining (device_of reader.old)) (D.remaining (device_of reader.new))
        (O.contents (device_of output.old)) (O.contents (device_of output.new))) result }
{
    let task = NewLogTask {
        log: task.log,
        result_file: task.result_file,
        force: task.force,
        making: Making::Changes(task.writing(process.began)),
    };
    run_new_log(rt, alloc, process, reader, &task, output)
}

/// Makes what the task asks for of the log that is read, and writes it to standard output or to the result file.
fn run_new_log<'a, R: Files, A: Allocator + Copy, D: Read, O: Write>(
    rt: &R,
    alloc: A,
    process: Process,
    reader: &mut Watched<D>,
    task: &NewLogTask<'a, '_>,
    output: &mut Watched<O>,
) -> Result<(), Failure<'a, A>>
    requires { HasShortMaking task.now.making }
    ensures status { IfErr result (λ f. status_of f ≡ 1) }
    ensures refused { OnErr result (has_failed output.new ≡ false → output.new ≡ output.old) }
    ensures aside { IsSome task.now.result_file → output.new ≡ output.old }
    ensures writes { task.now.result_file ≡ None
        → OfNewLog (WritesNewLog task.now.making (D.remaining (device_of reader.old)) (D.remaining (device_of reader.new))
        (O.contents (device_of output.old)) (O.contents (device_of output.new))) result }
{
    match task.result_file {
        None => new_log_to_output(alloc, process.seed, reader, task.making, output)?,
        Some(path) => {
            let wanted = Wanted {
                path,
                log: task.log,
                replace: task.force,
                process: process.id,
            };
            new_log_to_file(rt, alloc, process.seed, reader, task.making, &wanted)?
        }
    }
    Ok(())
}

/// Reads a log to its end, and opens it as a source that is whole.
fn open_source<A: Allocator, D: Read>(
    alloc: A,
    reader: &mut Watched<D>,
) -> Result<Source<A>, NewLogFault<A>>
    ensures opens { OpensWhole (D.remaining (device_of reader.old)) (D.remaining (device_of reader.new)) result }
    ensures mark { has_failed reader.new ≡ (has_failed reader.old || is_failed_read result) }
{
    let log = read_log(alloc, reader)?;
    Ok(Source::open_whole(log)?)
}

/// Writes what is made of the log that is read to standard output. A plain log is held whole before.
fn new_log_to_output<A: Allocator + Copy, D: Read, O: Write>(
    alloc: A,
    seed: u64,
    reader: &mut Watched<D>,
    making: Making<'_>,
    output: &mut Watched<O>,
) -> Result<(), NewLogFault<A>>
    requires { HasShortMaking making }
    ensures writes { WritesNewLog making.entry (D.remaining (device_of reader.old)) (D.remaining (device_of reader.new))
        (O.contents (device_of output.old)) (O.contents (device_of output.new)) result }
    ensures reader_mark { has_failed reader.new ≡ (has_failed reader.old || is_failed_read result) }
    ensures writer_mark { has_failed output.new ≡ (has_failed output.old || is_failed_write result) }
    ensures refused { OnErr result (has_failed output.new ≡ false → output.new ≡ output.old) }
{
    match making {
        Making::Plain => plain_to_output(alloc, reader, output),
        Making::Changes(writing) => changes_to_output(alloc, seed, reader, &writing, output),
    }
}

/// Writes the log that is read to standard output, without its checksums. It is held whole before, once.
fn plain_to_output<A: Allocator, D: Read, O: Write>(
    alloc: A,
    reader: &mut Watched<D>,
    output: &mut Watched<O>,
) -> Result<(), NewLogFault<A>>
    ensures writes { WritesNewLog made.Plain (D.remaining (device_of reader.old)) (D.remaining (device_of reader.new))
        (O.contents (device_of output.old)) (O.contents (device_of output.new)) result }
    ensures reader_mark { has_failed reader.new ≡ (has_failed reader.old || is_failed_read result) }
    ensures writer_mark { has_failed output.new ≡ (has_failed output.old || is_failed_write result) }
    ensures refused { OnErr result (has_failed output.new ≡ false → output.new ≡ output.old) }
{
    let log = read_log(alloc, reader)?;
    let text = plain(log)?;
    Ok(put(output, text.as_slice())?)
}

/// Writes the changes of the log that is read to standard output, while what is written is made.
fn changes_to_output<A: Allocator + Copy, D: Read, O: Write>(
    alloc: A,
    seed: u64,
    reader: &mut Watched<D>,
    writing: &Writing<'_>,
    output: &mut Watched<O>,
) -> Result<(), NewLogFault<A>>
    requires { HasShortWriting writing.now }
    ensures writes { WritesNewLog (made.Changes writing.now) (D.remaining (device_of reader.old)) (D.remaining (device_of reader.new))
        (O.contents (device_of output.old)) (O.contents (device_of output.new)) result }
    ensures reader_mark { has_failed reader.new ≡ (has_failed reader.old || is_failed_read result) }
    ensures writer_mark { has_failed output.new ≡ (has_failed output.old || is_failed_write result) }
    ensures refused { OnErr result (has_failed output.new ≡ false → output.new ≡ output.old) }
{
    let source = open_source(alloc, reader)?;
    match write_source(alloc, seed, &source, writing, output) {
        Ok(()) => Ok(()),
        Err(WritingFault::Log(fault)) => Err(NewLogFault::Split(SplitFault::Log(fault))),
        Err(WritingFault::TooLong) => Err(NewLogFault::Split(SplitFault::TooLong)),
        Err(WritingFault::Write) => Err(NewLogFault::Run(RunFault::Write)),
        Err(WritingFault::NoSchema(number)) => match no_schema(
            alloc,
            source.bytes(),
            writing,
            number,
            seed,
        ) {
            Ok(text) => Err(NewLogFault::NoSchema(text)),
            Err(_) => Err(NewLogFault::Run(RunFault::Log(Fault::OutOfMemory))),
        },
    }
}

/// Writes the changes of the log of a source, while what is written is made. Faults are at their places.
fn write_source<A: Allocator + Copy, O: Write>(
    alloc: A,
    seed: u64,
    source: &Source<A>,
    writing: &Writing<'_>,
    output: &mut Watched<O>,
) -> Result<(), WritingFault>
    requires { HasShortWriting writing.now }
    ensures writes { WritesSource writing.now (log_of source.now) (end_of source.now) (O.contents (device_of output.old)) (O.contents (device_of output.new)) result }
    ensures untouched { is_before_writing result ≡ true → output.new ≡ output.old }
    ensures mark { has_failed output.new ≡ (has_failed output.old || is_failed_writing result) }
{
    match write_changes(
        alloc,
        output,
        source.bytes(),
        &Selection::all(),
        seed,
        writing,
    ) {
        Err(WritingFault::Log(fault)) => {
            let fault = source.at_place(&fault);
            Err(WritingFault::Log(fault))
        }
        done => done,
    }
}

/// Writes what is made of the log that is read to the result file, which has its name once it is whole.
fn new_log_to_file<'a, R: Files, A: Allocator + Copy, D: Read>(
    rt: &R,
    alloc: A,
    seed: u64,
    reader: &mut Watched<D>,
    making: Making<'_>,
    wanted: &Wanted<'a>,
) -> Result<(), Failure<'a, A>>
    requires { HasShortMaking making }
    ensures status { IfErr result (λ f. status_of f ≡ 1) }
{
    let mut file = ResultFile::create(rt, alloc, wanted, &[])?;
    match new_log_to_output(alloc, seed, reader, making, &mut file.writer) {
        Ok(()) => Ok(file.finish(rt)?),
        Err(fault) => match file.discard(rt) {
            Some(failed) => Err(Failure::ResultFile(failed)),
            None => Err(Failure::NewLog(fault)),
        },
    }
}
