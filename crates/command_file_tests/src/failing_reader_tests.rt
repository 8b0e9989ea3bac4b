//! Runs over a log, of whose reads one fails, each in turn.

use crate::failing_files::{FailingFiles, Reads};
use binlog_command::command;
use blog_device::Watched;
use command_runs::large_logs::long_texts;
use command_runs::{arguments_of, path_of, this_process};
use result_file::temporary_name;
use std::fs;
use std::test::Fail;
use testkit::runs::Outcome;

/// How many bytes the longest text of the log has.
const TEXT: u32 = 100_000;

/// How many reads a run makes: a look at the first bytes, two for the log, which is read by 65,536 bytes, and one at its end.
const READS: u64 = 4;

const READ_FAILED: &str = "binlog: read failed: see the log's disk, and try again\n";

/// Runs the program with these arguments where the read of this number fails. Returns also whether that read has come.
fn run_failing(rt: &HostRuntime, arguments: &[&str], number: u64) -> Result<(Outcome, bool), Fail> {
    let reads = Reads::new(number);
    let files = FailingFiles { rt, reads: &reads };
    let mut output = Watched::new(Vec::new(rt.alloc()));
    let mut errors = Watched::new(Vec::new(rt.alloc()));
    let all = arguments_of(rt, arguments)?;
    let process = this_process(rt);
    let status = command(
        &files,
        rt.alloc(),
        process,
        Ok(all),
        &mut output,
        &mut errors,
    );
    let outcome = Outcome {
        status,
        output,
        errors,
    };
    Ok((outcome, reads.have_failed()))
}

/// Lets each read of a run fail in turn. A failed look at the first bytes shows nothing: the log is read all the same.
fn fail_in_turn(rt: &HostRuntime, arguments: &[&str], file: &str) -> Result<(), Fail> {
    let (whole, failed) = run_failing(rt, arguments, READS.saturating_add(1))?;
    if failed || !whole.is_done(whole.output()) {
        return Err(Fail::new(format_args!("there are more reads: {arguments:?}")));
    }
    let _ = fs::remove_file(rt, file);
    let (looked, failed) = run_failing(rt, arguments, 1)?;
    if !failed || !looked.is_done(whole.output()) {
        return Err(Fail::new(format_args!("the look: {arguments:?}")));
    }
    let _ = fs::remove_file(rt, file);
    let temporary = temporary_name(rt.alloc(), file, this_process(rt).id, 0)?;
    for number in 2..=READS {
        let (outcome, failed) = run_failing(rt, arguments, number)?;
        if !failed || !outcome.is_refusal(1, READ_FAILED) {
            return Err(Fail::new(format_args!("read {number}: {arguments:?}")));
        }
        if fs::exists(rt, file)? || fs::exists(rt, temporary.as_str())? {
            return Err(Fail::new(format_args!("read {number} left a file: {arguments:?}")));
        }
    }
    Ok(())
}

#[test]
fn a_failed_read_is_told(rt: HostRuntime) -> Result<(), Fail> {
    let log = path_of(&rt, "unread")?;
    let log = log.as_str();
    let result = path_of(&rt, "of-unread")?;
    let result = result.as_str();
    fs::write(&rt, log, long_texts(&rt, b"t", 1, TEXT)?.as_slice())?;
    for command in ["plain", "split", "sql"] {
        fail_in_turn(&rt, &[command, log], result)?;
        fail_in_turn(&rt, &[command, "-r", result, log], result)?;
    }
    fail_in_turn(&rt, &["list", "--utc", log], result)?;
    fail_in_turn(&rt, &["list", "--utc", "--json", log], result)?;
    fs::remove_file(&rt, log)?;
    Ok(())
}
