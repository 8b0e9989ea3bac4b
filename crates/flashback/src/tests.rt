//! Runs of the program, over files in the folder for temporary files and writers in memory.

mod both_outputs;
mod file_names;
mod logs;
mod refused_memory;
mod result_files;
mod selections;
mod small_logs;
mod versions;
mod writers;
mod wrong_arguments;

use crate::commands::command;
use blog_flash::Watched;
use sample_logs::logs::insert_and_drop;
use sample_logs::small::{INSERT_ONE_ROW, OLD_SERVER};
use std::alloc::AllocError;
use std::path::PathBuf;
use std::process::{Abort, ExitCode};
use std::test::Fail;
use std::{fs, io};
use testkit::runs::Outcome;
use transcripts::{Named, Program, Wrong};
use writers::Broken;

/// Where the rows event of `INSERT_ONE_ROW` has its type.
const ROWS_TYPE: usize = 200;

/// The arguments of a run, of which the first is the program's name.
pub fn arguments_of(rt: &HostRuntime, arguments: &[&str]) -> Result<Vec<String>, AllocError> {
    testkit::runs::arguments_of(rt, "flashback", arguments)
}

fn run_given(rt: &HostRuntime, arguments: io::Result<Vec<String>>) -> Outcome {
    let mut output = Watched::new(Vec::new(rt.alloc()));
    let mut errors = Watched::new(Vec::new(rt.alloc()));
    let status = command(rt, rt.alloc(), 0, arguments, &mut output, &mut errors);
    Outcome {
        status,
        output,
        errors,
    }
}

fn run_arguments(rt: &HostRuntime, arguments: &[&str]) -> Result<Outcome, AllocError> {
    Ok(run_given(rt, Ok(arguments_of(rt, arguments)?)))
}

/// A path in the folder for temporary files that no other test has.
fn path_of(rt: &HostRuntime, name: &str) -> io::Result<PathBuf> {
    testkit::runs::path_of(rt, "flashback", name)
}

/// Fails where something doesn't hold of a run with these arguments.
pub fn check(holds: bool, what: &str, arguments: &[&str]) -> Result<(), Fail> {
    if holds {
        Ok(())
    } else {
        Err(Fail::new(format_args!("{what}: {arguments:?}")))
    }
}

/// The run with these arguments did what was asked for, and wrote this.
fn check_done(rt: &HostRuntime, arguments: &[&str], output: &[u8]) -> Result<(), Fail> {
    let done = run_arguments(rt, arguments)?.is_done(output);
    check(done, "not done", arguments)?;
    Ok(())
}

/// The program in scripts.
struct Flashback;

impl Program for Flashback {
    fn name(&self) -> &'static str {
        "flashback"
    }

    fn run(&self, rt: &HostRuntime, arguments: Vec<String>) -> Outcome {
        run_given(rt, Ok(arguments))
    }
}

/// A log with this name in scripts.
fn named<'a>(name: &'a str, bytes: &'a [u8]) -> Named<'a> {
    Named { name, bytes }
}

/// Plays a script. `dropped` is a transaction that inserts a row, and a `DROP TABLE`; `long` is no log, and has more bytes than the
/// others.
fn play(rt: &HostRuntime, script: &str) -> Result<(), Wrong> {
    let dropped = insert_and_drop(rt)?;
    let logs = [
        named("dropped", &dropped),
        named("long", &[0x2A; 400]),
        named("INSERT_ONE_ROW", &INSERT_ONE_ROW),
        named("OLD_SERVER", &OLD_SERVER),
    ];
    transcripts::play(rt, &Flashback, &[], logs.as_slice(), script)
}

/// Scripts, each of which begins with a line `## NAME`.
const SCRIPTS: [&str; 7] = [
    both_outputs::SCRIPTS,
    file_names::SCRIPTS,
    result_files::SCRIPTS,
    selections::SCRIPTS,
    small_logs::SCRIPTS,
    versions::SCRIPTS,
    wrong_arguments::SCRIPTS,
];

#[test]
fn scripts_do_what_they_say(rt: HostRuntime) -> Result<(), Fail> {
    let mut count = 0usize;
    for scripts in SCRIPTS {
        for script in scripts.split("\n## ").skip(1) {
            let (name, lines) = script.split_once('\n').unwrap_or((script, ""));
            if let Err(wrong) = play(&rt, lines) {
                return Err(Fail::new(format_args!("{name}: {wrong:?}")));
            }
            count = count.saturating_add(1);
        }
    }
    assert_eq!(rt; count, 30);
    Ok(())
}

/// The options as the help names them.
const OPTIONS: [&str; 9] = [
    "-B, --flashback",
    "--forward",
    "--summary",
    "--sql",
    "-j, --start-position <POS>",
    "--stop-position <POS>",
    "-d, --database <NAME>",
    "-T, --table <NAME>",
    "-r, --result-file <FILE>",
];

/// The same in the examples of the help.
const IN_EXAMPLES: [&str; 9] = [
    "-B ",
    "--forward ",
    "--summary ",
    "-B --sql ",
    "-j ",
    "--stop-position ",
    "-d ",
    "-T ",
    "-r ",
];

/// The text holds each of these arguments.
fn check_arguments(rt: &impl Abort, text: &str, arguments: &[&str]) {
    for argument in arguments {
        assert!(rt; text.contains(*argument), "{argument}");
    }
}

/// What a run with this argument writes, which prints nothing.
fn text_of(rt: &HostRuntime, argument: &str) -> Result<String, Fail> {
    let outcome = run_arguments(rt, &[argument])?;
    check(outcome.status == ExitCode::SUCCESS, "status", &[argument])?;
    check(outcome.errors().is_empty(), "errors", &[argument])?;
    let text = str::from_utf8(outcome.output())?;
    Ok(String::from_str(rt.alloc(), text)?)
}

/// The text has the usage, each option, and each option's example.
fn check_help(rt: &impl Abort, text: &str) {
    assert!(rt; text.contains("Usage: flashback (-B | --forward | --summary) [--sql] [-j POS]"));
    check_arguments(rt, text, &OPTIONS);
    let examples = text.split_once("Examples:").map_or("", |(_, rest)| rest);
    check_arguments(rt, examples, &IN_EXAMPLES);
}

#[test]
fn the_help_is_written(rt: HostRuntime) -> Result<(), Fail> {
    let text = text_of(&rt, "--help")?;
    check_help(&rt, text.as_str());
    Ok(())
}

/// The run with these arguments fails at its first write, and prints that.
fn check_unwritten(rt: &HostRuntime, arguments: &[&str]) -> Result<(), Fail> {
    let all = arguments_of(rt, arguments)?;
    let mut output = Watched::new(Broken::new());
    let mut errors = Watched::new(Vec::new(rt.alloc()));
    let status = command(rt, rt.alloc(), 0, Ok(all), &mut output, &mut errors);
    check(status == ExitCode::FAILURE, "status", arguments)?;
    check(output.device().writes() == 1, "writes", arguments)?;
    check(
        errors.device().as_slice() == b"flashback: write failed\n".as_slice(),
        "errors",
        arguments,
    )?;
    Ok(())
}

#[test]
fn a_failed_write_is_told(rt: HostRuntime) -> Result<(), Fail> {
    let path = path_of(&rt, "unwritten")?;
    let log = path.as_str();
    fs::write(&rt, log, INSERT_ONE_ROW.as_slice())?;
    check_unwritten(&rt, &["-B", log])?;
    check_unwritten(&rt, &["--help", "-B"])?;
    fs::remove_file(&rt, log)?;
    Ok(())
}

/// The run with these arguments ends with this status, though its line can't be printed.
fn check_unprinted(rt: &HostRuntime, arguments: &[&str], status: u8) -> Result<(), Fail> {
    let all = arguments_of(rt, arguments)?;
    let mut output = Watched::new(Vec::new(rt.alloc()));
    let mut errors = Watched::new(Broken::new());
    let answer = command(rt, rt.alloc(), 0, Ok(all), &mut output, &mut errors);
    check(answer == ExitCode::from(status), "status", arguments)?;
    check(output.device().is_empty(), "output", arguments)?;
    check(errors.device().writes() == 1, "errors", arguments)?;
    Ok(())
}

#[test]
fn a_line_that_cannot_be_printed_is_dropped(rt: HostRuntime) -> Result<(), Fail> {
    check_unprinted(&rt, &["-B", ""], 1)?;
    check_unprinted(&rt, &["-B", "--no-such-word"], 2)?;
    Ok(())
}
