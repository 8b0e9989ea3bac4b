//! One run of the program, from its arguments to its exit status.

ghost use Rattle.std.specs.Prelude.{◌≡◌, ◌≤◌, ◌||◌, IfErr, IsErr, IsOk, IsSome, None, OnErr, false, true};
ghost use Rattle.std.specs.Process.{exit_status};
ghost use Rattle.blog_trans.specs.Selection.{selection_of};
ghost use Rattle.blog_device.specs.Devices.{is_write_fault};
ghost use Rattle.blog_device.specs.Watched.{device_of, has_failed};
ghost use Rattle.blog_flash.specs.Runs.{Prepares, Runs, ends_before_writing};
ghost use Rattle.flashback.specs.Runs.{OfRun};
ghost use Rattle.flashback.specs.Status.{status_of};
ghost use Rattle.flashback.specs.declared.commands.Failure.TheVariants.{Arguments, Run};

use crate::arguments::{ArgumentsFault, Asked, Task, read_arguments};
use blog_flash::{RunFault, Watched, prepare_seeded, put, run_seeded};
use std::alloc::Allocator;
use std::fs::{File, OpenOptions};
use std::io;
use std::io::{Read, Write};
use std::os::unix::fs::OpenOptionsExt;
use std::process::ExitCode;
use std::rt::Files;

/// The mode of a result file that is created: its owner alone may read and write it. One that is there keeps its own.
const MODE: u32 = 0o600;

/// Why the program didn't do what its arguments ask for.
#[derive(Drop)]
pub enum Failure<A: Allocator> {
    /// The arguments ask for nothing.
    Arguments(ArgumentsFault<A>),
    /// The log can't be opened.
    NoLog,
    /// The result file can't be created.
    NoResultFile,
    /// The log is refused, or a device failed.
    Run(RunFault),
}

impl<A: Allocator> Failure<A> {
    /// The exit status: 2 where the arguments are wrong, else 1.
    pub fn status(&self) -> u8
        ensures { result ≡ status_of self.now }
    {
        match self {
            Failure::Arguments(ArgumentsFault::OutOfMemory) => 1,
            Failure::Arguments(_) => 2,
            Failure::NoLog | Failure::NoResultFile | Failure::Run(_) => 1,
        }
    }
}

impl<A: Allocator> From<ArgumentsFault<A>> for Failure<A> {
    ghost from_gives = { λ fault failure. failure ≡ Arguments fault };

    fn from(fault: ArgumentsFault<A>) -> Failure<A> {
        Failure::Arguments(fault)
    }
}

/// The system's answer where it gives no arguments.
impl<A: Allocator> From<io::Error> for Failure<A> {
    fn from(error: io::Error) -> Failure<A> {
        Failure::Arguments(if error.kind() == io::ErrorKind::OutOfMemory {
            ArgumentsFault::OutOfMemory
        } else {
            ArgumentsFault::NotText
        })
    }
}

impl<A: Allocator> From<RunFault> for Failure<A> {
    ghost from_gives = { λ fault failure. failure ≡ Run fault };

    fn from(fault: RunFault) -> Failure<A> {
        Failure::Run(fault)
    }
}

/// Does what the arguments ask for, and answers the exit status: 0 where it is done, 1 where the log is
/// refused or something failed, 2 where the arguments are wrong. `arguments` is the system's answer, which
/// begins with the program's name. Where the status isn't 0 the reason is printed to `errors`.
///
/// Memory is taken from `alloc`; the parser of the arguments takes it from the system. Names and ids of tables are hashed
/// by `seed`. Nothing that is written depends on it.
pub fn command<R: Files + AllocGlobal, A: Allocator + Copy, O: Write, E: Write>(
    rt: &R,
    alloc: A,
    seed: u64,
    arguments: io::Result<Vec<String>>,
    output: &mut Watched<O>,
    errors: &mut Watched<E>,
) -> ExitCode
    ensures status { exit_status result ≤ 2 }

    // Nothing is printed where all is done, and nothing is written where the arguments are wrong
    // or aren't there.
    ensures quiet { exit_status result ≡ 0 → errors.new ≡ errors.old }
    ensures unwritten { exit_status result ≡ 2 → output.new ≡ output.old }
    ensures unread { IsErr arguments → (1 ≤ exit_status result) × (output.new ≡ output.old) }

    // A run that fails where the output doesn't has written nothing.
    ensures refused { 1 ≤ exit_status result → has_failed output.new ≡ false
        → output.new ≡ output.old }
{
    let outcome = carry_out(rt, alloc, seed, arguments, output);
    report(outcome, errors)
}

/// Prints a failure, and answers the exit status.
fn report<A: Allocator, E: Write>(
    outcome: Result<(), Failure<A>>,
    errors: &mut Watched<E>,
) -> ExitCode
    ensures done { IsOk outcome → (exit_status result ≡ 0) × (errors.new ≡ errors.old) }
    ensures failed { IfErr outcome (λ failure. exit_status result ≡ status_of failure) }
{
    match outcome {
        Ok(()) => ExitCode::from(0),
        Err(failure) => {
            failure.print(errors);
            ExitCode::from(failure.status())
        }
    }
}

fn carry_out<R: Files + AllocGlobal, A: Allocator + Copy, O: Write>(
    rt: &R,
    alloc: A,
    seed: u64,
    arguments: io::Result<Vec<String>>,
    output: &mut Watched<O>,
) -> Result<(), Failure<A>>
    ensures unwritten { IfErr result (λ f. status_of f ≡ 2 → output.new ≡ output.old) }
    ensures unread { IsErr arguments → IsErr result × (output.new ≡ output.old) }
    ensures refused { OnErr result (has_failed output.new ≡ false → output.new ≡ output.old) }
{
    let arguments = arguments?;
    match read_arguments(rt.alloc(), alloc, arguments.as_slice())? {
        Asked::Help(text) => put(output, text.as_bytes())?,
        Asked::Run(task) => {
            let mut reader = open_log(rt, task.log)?;
            run_task(rt, alloc, seed, &mut reader, &task, output)?
        }
    }
    Ok(())
}

/// Opens the log of this path.
fn open_log<R: Files, A: Allocator>(rt: &R, path: &str) -> Result<Watched<R::File>, Failure<A>>
    ensures status { IfErr result (λ f. status_of f ≡ 1) }
{
    match File::open(rt, path) {
        Ok(log) => Ok(Watched::new(log)),
        Err(_) => Err(Failure::NoLog),
    }
}

/// Runs the task over the log that is read, to standard output or to its result file.
fn run_task<R: Files, A: Allocator + Copy, D: Read, O: Write>(
    rt: &R,
    alloc: A,
    seed: u64,
    reader: &mut Watched<D>,
    task: &Task<'_>,
    output: &mut Watched<O>,
) -> Result<(), Failure<A>>
    ensures status { IfErr result (λ f. status_of f ≡ 1) }
    ensures refused { OnErr result (has_failed output.new ≡ false → output.new ≡ output.old) }
    ensures aside { IsSome task.now.result_file → output.new ≡ output.old }

    // Without a result file the run is that of its mode and selection, to standard output.
    ensures runs { task.now.result_file ≡ None → OfRun (Runs (D.remaining (device_of reader.old)) (D.remaining (device_of reader.new))
        task.now.mode (selection_of task.now.selection)
        (O.contents (device_of output.old)) (O.contents (device_of output.new))) result }
    ensures untouched { task.now.result_file ≡ None
        → OfRun (λ ran. ends_before_writing ran ≡ true → output.new ≡ output.old) result }
    ensures mark { task.now.result_file ≡ None
        → OfRun (λ ran. has_failed output.new ≡ (has_failed output.old || is_write_fault ran)) result }
{
    match task.result_file {
        None => run_seeded(alloc, reader, task.mode, &task.selection, seed, output)?,
        Some(path) => run_to_file(rt, alloc, seed, reader, task, path)?,
    }
    Ok(())
}

/// Runs the task, to the file of this path. It is created or emptied once the log is accepted.
fn run_to_file<R: Files, A: Allocator + Copy, D: Read>(
    rt: &R,
    alloc: A,
    seed: u64,
    reader: &mut Watched<D>,
    task: &Task<'_>,
    path: &str,
) -> Result<(), Failure<A>>
    ensures status { IfErr result (λ f. status_of f ≡ 1) }
{
    let text = text_for_file(alloc, seed, reader, task)?;
    let created = OpenOptions::new()
        .write(true)
        .create(true)
        .truncate(true)
        .mode(MODE)
        .open(rt, path);
    let Ok(file) = created else {
        return Err(Failure::NoResultFile);
    };
    put(&mut Watched::new(file), text.as_slice())?;
    Ok(())
}

/// What the task makes of the log that is read.
fn text_for_file<A: Allocator + Copy, D: Read>(
    alloc: A,
    seed: u64,
    reader: &mut Watched<D>,
    task: &Task<'_>,
) -> Result<Vec<u8, A>, RunFault>
    ensures prepares { Prepares (D.remaining (device_of reader.old)) (D.remaining (device_of reader.new))
        task.now.mode (selection_of task.now.selection) result }
{
    prepare_seeded(alloc, reader, task.mode, &task.selection, seed)
}
