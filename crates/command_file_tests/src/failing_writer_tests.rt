//! Runs whose writers fail.

use binlog_command::command;
use blog_device::Watched;
use command_runs::{arguments_of, path_of, run_arguments, this_process};
use sample_logs::logs::insert_and_drop;
use sample_logs::small::{INSERT_ONE_ROW, PLAIN, SUMMED};
use std::fs;
use std::process::ExitCode;
use std::test::Fail;
use testkit::devices::{ALL, Failure, KINDS, SlowWriter};

/// The most bytes that standard output takes a call.
const STEP: usize = 7;

const WRITE_FAILED: &[u8] =
    b"binlog: write failed: see whether the disk is full, or the program that reads the output has ended\n";

/// Whether a run with these arguments ends with a failed write, which it tells; and what was written.
fn fails(
    rt: &HostRuntime,
    arguments: &[&str],
    failure: Failure,
) -> Result<(bool, Watched<SlowWriter>), Fail> {
    let mut output = Watched::new(SlowWriter::new(rt, STEP, failure));
    let mut errors = Watched::new(Vec::new(rt.alloc()));
    let arguments = arguments_of(rt, arguments)?;
    let process = this_process(rt);
    let status = command(
        rt,
        rt.alloc(),
        process,
        Ok(arguments),
        &mut output,
        &mut errors,
    );
    let told = errors.device().as_slice() == WRITE_FAILED;
    let is_failure = status == ExitCode::FAILURE && output.device().failed_calls == 1;
    Ok((told && is_failure, output))
}

/// Runs the program with these arguments, which writes this text in so many calls. Each call fails in turn.
fn each_call_fails(
    rt: &HostRuntime,
    arguments: &[&str],
    text: &[u8],
    calls: u64,
) -> Result<(), Fail> {
    for kind in KINDS {
        let mut before = 0usize;
        for call in 1..=calls {
            let (told, output) = fails(rt, arguments, Failure::At(call, kind))?;
            if !told || Some(output.device().taken.as_slice()) != text.get(..before) {
                return Err(Fail::new(format_args!("call {call}: {arguments:?}")));
            }
            before = before.saturating_add(STEP);
        }
        let (told, output) = fails(rt, arguments, Failure::AtFlush(kind))?;
        if !told || output.device().taken.as_slice() != text {
            return Err(Fail::new(format_args!("the flush: {arguments:?}")));
        }
    }
    Ok(())
}

#[test]
fn a_failed_write_is_told(rt: HostRuntime) -> Result<(), Fail> {
    let log = path_of(&rt, "unwritten")?;
    fs::write(&rt, log.as_path(), SUMMED.as_slice())?;
    let arguments = ["plain", log.as_str()];
    each_call_fails(&rt, arguments.as_slice(), PLAIN.as_slice(), 20)?;
    fs::remove_file(&rt, log.as_path())?;
    Ok(())
}

#[test]
fn a_failed_write_of_a_list_is_told(rt: HostRuntime) -> Result<(), Fail> {
    let log = path_of(&rt, "unwritten-list")?;
    fs::write(&rt, log.as_path(), insert_and_drop(&rt)?.as_slice())?;
    let text = b"{\"units\":0,\"not_undoable\":0,\"rows\":0,\"passed_over\":0}\n";
    let arguments = ["list", "--utc", "--json", "-j", "260", log.as_str()];
    each_call_fails(&rt, arguments.as_slice(), text.as_slice(), 8)?;
    fs::remove_file(&rt, log.as_path())?;
    Ok(())
}

#[test]
fn a_failed_write_of_a_cut_log_is_told(rt: HostRuntime) -> Result<(), Fail> {
    let log = path_of(&rt, "unwritten-cut")?;
    fs::write(&rt, log.as_path(), INSERT_ONE_ROW.as_slice())?;
    let arguments = ["split", log.as_str()];
    each_call_fails(&rt, arguments.as_slice(), INSERT_ONE_ROW.as_slice(), 37)?;
    fs::remove_file(&rt, log.as_path())?;
    Ok(())
}

#[test]
fn a_line_that_cannot_be_printed_is_dropped(rt: HostRuntime) -> Result<(), Fail> {
    for kind in KINDS {
        let mut output = Watched::new(Vec::new(rt.alloc()));
        let mut errors = Watched::new(SlowWriter::new(&rt, ALL, Failure::At(1, kind)));
        let arguments = arguments_of(&rt, &["plain", ""])?;
        let process = this_process(&rt);
        let status = command(
            &rt,
            rt.alloc(),
            process,
            Ok(arguments),
            &mut output,
            &mut errors,
        );
        assert!(rt; status == ExitCode::FAILURE);
        assert!(rt; output.device().is_empty());
        assert!(rt; errors.device().calls == 1);
    }
    Ok(())
}

#[test]
fn a_long_line_is_cut(rt: HostRuntime) -> Result<(), Fail> {
    let mut name = String::new(rt.alloc());
    for _ in 0..5000 {
        name.push('a')?;
    }
    let outcome = run_arguments(&rt, &["plain", name.as_str()])?;
    let mut line = String::from_str(rt.alloc(), "binlog: cannot open the log ")?;
    for _ in 0..4579 {
        line.push('a')?;
    }
    line.push('\n')?;
    assert!(rt; line.len() == 4608);
    assert!(rt; outcome.is_refusal(1, line.as_str()));
    Ok(())
}

#[test]
fn a_long_line_is_cut_between_characters(rt: HostRuntime) -> Result<(), Fail> {
    let mut name = String::new(rt.alloc());
    for _ in 0..3000 {
        name.push('\u{E9}')?;
    }
    let outcome = run_arguments(&rt, &["plain", name.as_str()])?;
    let mut line = String::from_str(rt.alloc(), "binlog: cannot open the log ")?;
    for _ in 0..2289 {
        line.push('\u{E9}')?;
    }
    line.push('\n')?;
    assert!(rt; outcome.errors() == line.as_bytes());
    Ok(())
}

#[test]
fn a_line_has_no_control_characters(rt: HostRuntime) -> Result<(), Fail> {
    let name = "not/there\nbinlog: done\r\x1b[2J\x7f\u{9B}\t\\";
    let outcome = run_arguments(&rt, &["plain", name])?;
    let line =
        "binlog: cannot open the log not/there\\nbinlog: done\\r\\x1b[2J\\x7f\\xc2\\x9b\\t\\\\: No such file or directory (os error 2): see its name and its folder\n";
    assert!(rt; str::from_utf8(outcome.errors()).ok() == Some(line));
    Ok(())
}

/// Checks that wrong arguments are told in a text that begins so, with no control character but line feeds.
fn check_told(rt: &HostRuntime, arguments: &[&str], text: &str) -> Result<(), Fail> {
    let outcome = run_arguments(rt, arguments)?;
    let told = str::from_utf8(outcome.errors())?;
    let is_clean = told.chars().all(|c| c == '\n' || !c.is_control());
    if outcome.begins_refusal(2, text) && is_clean {
        Ok(())
    } else {
        Err(Fail::new(format_args!("{arguments:?}: {told}")))
    }
}

#[test]
fn wrong_arguments_are_told_without_control_characters(rt: HostRuntime) -> Result<(), Fail> {
    let cases: [(&[&str], &str); 6] = [
        (
            &["list", "-j", "4\nbinlog: done\x1b[2J", "a"],
            "error: invalid value '4\\nbinlog: done\\x1b[2J' for '--start-position <POS>': not a position: decimal digits, 0 to 4294967295\n\n",
        ),
        (
            &["sql", "--rewrite-db", "\u{202e}\u{9b}\r", "a"],
            "error: invalid value '\\u{202e}\\xc2\\x9b\\r' for '--rewrite-db <FROM:TO>': not two names of databases with a colon between them, such as shop:scratch, of 1 to 255 bytes each\n\n",
        ),
        (
            &["plain", "a", "b\nc\x7f"],
            "error: unexpected argument 'b\\nc\\x7f' found\n",
        ),
        (
            &["plain", "--\x1b[31mred", "a"],
            "error: unexpected argument '--\\x1b[31mred' found\n",
        ),
        (
            &["li\tst", "a"],
            "error: unrecognized subcommand 'li\\tst'\n",
        ),
        (
            &["plain", "b\\c", "\u{feff}", "d"],
            "error: unexpected argument '\\u{feff}' found\n",
        ),
    ];
    for (arguments, text) in cases {
        check_told(&rt, arguments, text)?;
    }
    Ok(())
}

/// Runs the program with these arguments, which writes a text. Each call fails in turn.
fn each_call_of_a_text_fails(rt: &HostRuntime, arguments: &[&str]) -> Result<(), Fail> {
    let printed = run_arguments(rt, arguments)?;
    let text = printed.output();
    if text.is_empty() || !printed.is_done(text) {
        return Err(Fail::new(format_args!("{arguments:?}")));
    }
    each_call_fails(rt, arguments, text, text.len().div_ceil(STEP) as u64)
}

#[test]
fn a_failed_write_of_a_text_is_told(rt: HostRuntime) -> Result<(), Fail> {
    let log = path_of(&rt, "unwritten-text")?;
    fs::write(&rt, log.as_path(), INSERT_ONE_ROW.as_slice())?;
    each_call_of_a_text_fails(&rt, &["sql", log.as_str()])?;
    each_call_of_a_text_fails(&rt, &["list", "--utc", log.as_str()])?;
    each_call_of_a_text_fails(&rt, &["--version"])?;
    each_call_of_a_text_fails(&rt, &["list", "--help"])?;
    fs::remove_file(&rt, log.as_path())?;
    Ok(())
}
