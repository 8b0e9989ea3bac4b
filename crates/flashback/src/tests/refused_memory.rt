//! Runs in which one request for memory is refused, each in turn.

use super::logs::with_byte;
use super::{ROWS_TYPE, arguments_of, check, path_of};
use crate::commands::command;
use blog_flash::Watched;
use linked_list_allocator::LocalHeap;
use refusing::Refusing;
use sample_logs::small::INSERT_ONE_ROW;
use std::alloc::Allocator;
use std::process::ExitCode;
use std::test::Fail;
use std::{fs, io};
use testkit::runs::{Outcome, push_arguments};

/// More requests than each of these runs makes.
const REQUESTS: usize = 200;

/// A heap with room for each of these runs, in bytes.
const ROOM: usize = 1 << 18;

/// The log undone, as pseudo-SQL.
const UNDONE: &str = "\
BEGIN
### DELETE FROM `d`.`t`
### WHERE
###   @1=X'05000000'
COMMIT
";

/// Its changes, as pseudo-SQL.
const DONE: &str = "\
BEGIN
### INSERT INTO `d`.`t`
### SET
###   @1=X'05000000'
COMMIT
";

/// Its changes in numbers.
const COUNTED: &str = "\
transactions 1
statements 1
`d`.`t` inserts 1 updates 0 deletes 0
";

/// Whether the file of this path has these bytes, or isn't there where there are none.
fn has_bytes(rt: &HostRuntime, path: &str, wanted: Option<&[u8]>) -> io::Result<bool> {
    match wanted {
        Some(bytes) => Ok(fs::read(rt, path)?.as_slice() == bytes),
        None => Ok(!fs::exists(rt, path)?),
    }
}

/// The file of this path has these bytes, or isn't there where there are none.
fn check_bytes(rt: &HostRuntime, path: &str, wanted: Option<&[u8]>) -> Result<(), Fail> {
    check(has_bytes(rt, path, wanted)?, "bytes of the file", &[path])?;
    Ok(())
}

const OUT_OF_MEMORY: &str = "flashback: OutOfMemory\n";

/// Runs the program with memory of this allocator.
fn run_with<A: Allocator + Copy>(rt: &HostRuntime, alloc: A, arguments: Vec<String>) -> Outcome {
    let mut output = Watched::new(Vec::new(rt.alloc()));
    let mut errors = Watched::new(Vec::new(rt.alloc()));
    let status = command(rt, alloc, 0, Ok(arguments), &mut output, &mut errors);
    Outcome {
        status,
        output,
        errors,
    }
}

/// Runs the program with these arguments over the log of this path. All that it takes is given back.
/// Answers also whether its request of this number was refused.
fn run_refusing(
    rt: &HostRuntime,
    arguments: &[&str],
    log: &str,
    number: usize,
) -> Result<(Outcome, bool), Fail> {
    let mut all = arguments_of(rt, arguments)?;
    push_arguments(&mut all, &[log])?;
    let heap = LocalHeap::new(rt.alloc(), ROOM)?;
    let refusing = Refusing::new(&heap, number);
    let outcome = run_with(rt, &refusing, all);
    check(heap.used() == 0, "kept memory", arguments)?;
    Ok((outcome, refusing.has_refused()))
}

/// Refuses each request of a run in turn: it ends with want of memory and leaves `file` as it was.
/// Answers the run that is refused none, and how many were refused before it.
fn refuse_in_turn(
    rt: &HostRuntime,
    arguments: &[&str],
    log: &str,
    file: &str,
    before: Option<&[u8]>,
) -> Result<(Outcome, usize), Fail> {
    for number in 1..REQUESTS {
        let (outcome, refused) = run_refusing(rt, arguments, log, number)?;
        if !refused {
            return Ok((outcome, number - 1));
        }
        check(
            outcome.is_refusal(1, OUT_OF_MEMORY),
            "another outcome",
            arguments,
        )?;
        check(has_bytes(rt, file, before)?, "another outcome", arguments)?;
    }
    Err(Fail::new("there are more requests"))
}

/// Arguments with which the log is printed, and what is.
static PRINTED: [(&[&str], &str); 3] = [
    (&["-B", "--sql"], UNDONE),
    (&["--forward", "--sql"], DONE),
    (&["--summary"], COUNTED),
];

/// The run with these arguments over the log of this path takes memory more than once, and writes this.
fn check_mode(
    rt: &HostRuntime,
    arguments: &[&str],
    log: &str,
    file: &str,
    wanted: &[u8],
) -> Result<(), Fail> {
    let (outcome, refused) = refuse_in_turn(rt, arguments, log, file, None)?;
    // one to read the log, and others to answer it
    check(refused > 1, "requests", arguments)?;
    check(outcome.is_done(wanted), "outcome", arguments)?;
    Ok(())
}

fn check_modes(rt: &HostRuntime, log: &str, file: &str) -> Result<(), Fail> {
    let undone = with_byte(rt.alloc(), ROWS_TYPE, 0x20)?;
    check_mode(rt, &["-B"], log, file, undone.as_slice())?;
    check_mode(rt, &["--forward"], log, file, INSERT_ONE_ROW.as_slice())?;
    for (arguments, wanted) in &PRINTED {
        check_mode(rt, arguments, log, file, wanted.as_bytes())?;
    }
    Ok(())
}

#[test]
fn each_mode_answers_want_of_memory(rt: HostRuntime) -> Result<(), Fail> {
    let log = path_of(&rt, "unremembered")?;
    let result = path_of(&rt, "unmade")?;
    fs::write(&rt, log.as_path(), INSERT_ONE_ROW.as_slice())?;
    check_modes(&rt, log.as_str(), result.as_str())?;
    fs::remove_file(&rt, log.as_path())?;
    Ok(())
}

/// The log of this path is undone in the file of this path, which is as before where memory is refused.
fn check_result_file(
    rt: &HostRuntime,
    log: &str,
    file: &str,
    before: Option<&[u8]>,
) -> Result<(), Fail> {
    let undone = with_byte(rt.alloc(), ROWS_TYPE, 0x20)?;
    let (outcome, refused) = refuse_in_turn(rt, &["-B", "-r", file], log, file, before)?;
    check(refused > 1, "requests", &[])?;
    check(outcome.is_done(b""), "outcome", &[])?;
    check_bytes(rt, file, Some(undone.as_slice()))?;
    fs::remove_file(rt, file)?;
    Ok(())
}

fn check_result_files(rt: &HostRuntime, log: &str, file: &str) -> Result<(), Fail> {
    check_result_file(rt, log, file, None)?;
    fs::write(rt, file, b"kept")?;
    check_result_file(rt, log, file, Some(b"kept"))
}

#[test]
fn want_of_memory_leaves_the_file_alone(rt: HostRuntime) -> Result<(), Fail> {
    let log = path_of(&rt, "forgotten")?;
    let result = path_of(&rt, "remembered")?;
    fs::write(&rt, log.as_path(), INSERT_ONE_ROW.as_slice())?;
    check_result_files(&rt, log.as_str(), result.as_str())?;
    fs::remove_file(&rt, log.as_path())?;
    Ok(())
}

/// The help is written once no request is refused.
fn check_help(rt: &HostRuntime, file: &str) -> Result<(), Fail> {
    let (outcome, refused) = refuse_in_turn(rt, &["--help", "-r", file], "a.binlog", file, None)?;
    check(refused > 0, "requests", &[])?;
    check(outcome.status == ExitCode::SUCCESS, "status", &[])?;
    check(
        str::from_utf8(outcome.output())?.contains("Usage: flashback"),
        "text",
        &[],
    )?;
    Ok(())
}

/// The option's wrong value is told once no request is refused.
fn check_wrong_value(rt: &HostRuntime, option: &str, file: &str) -> Result<(), Fail> {
    let arguments = ["-B", option, "x", "-r", file];
    let (outcome, refused) = refuse_in_turn(rt, &arguments, "a.binlog", file, None)?;
    // one for what is wrong, and others for the text around it
    check(refused > 1, "requests", &arguments)?;
    check(outcome.is_wrong(), "outcome", &arguments)?;
    check(
        str::from_utf8(outcome.errors())?.contains("invalid value 'x'"),
        "errors",
        &arguments,
    )?;
    Ok(())
}

/// The wrong option is told once no request is refused.
fn check_wrong_option(rt: &HostRuntime, file: &str) -> Result<(), Fail> {
    let arguments = ["-B", "--no-such-word", "-r", file];
    let (outcome, refused) = refuse_in_turn(rt, &arguments, "a.binlog", file, None)?;
    check(refused > 0, "requests", &arguments)?;
    check(outcome.is_wrong(), "outcome", &arguments)?;
    Ok(())
}

#[test]
fn texts_answer_want_of_memory(rt: HostRuntime) -> Result<(), Fail> {
    let result = path_of(&rt, "unwritten-text")?;
    let file = result.as_str();
    check_help(&rt, file)?;
    check_wrong_value(&rt, "-j", file)?;
    check_wrong_value(&rt, "--stop-position", file)?;
    check_wrong_option(&rt, file)?;
    check_bytes(&rt, file, None)?;
    Ok(())
}
