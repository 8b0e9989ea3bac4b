//! Runs in which one request for memory is refused, each in turn.

use binlog_command::command;
use blog_device::Watched;
use command_runs::{arguments_of, path_of, this_process};
use linked_list_allocator::LocalHeap;
use refusing::Refusing;
use result_file::temporary_name;
use sample_logs::logs::insert_and_drop;
use sample_logs::small::{INSERT_ONE_ROW, PLAIN, SUMMED};
use std::fs;
use std::test::Fail;
use testkit::runs::Outcome;

/// More requests than each of these runs makes.
const REQUESTS: usize = 200;

/// A heap with room for each of these runs, in bytes.
const ROOM: usize = 1 << 21;

const OUT_OF_MEMORY: &str =
    "binlog: OutOfMemory: run it where one and a half times the log's size is free in memory\n";

/// Runs the program with these arguments. All that it takes is given back. Answers also whether its request of this number was
/// refused.
fn run_refusing(
    rt: &HostRuntime,
    arguments: &[&str],
    number: usize,
) -> Result<(Outcome, bool), Fail> {
    let heap = LocalHeap::new(rt.alloc(), ROOM)?;
    let refusing = Refusing::new(&heap, number);
    let mut output = Watched::new(Vec::new(rt.alloc()));
    let mut errors = Watched::new(Vec::new(rt.alloc()));
    let all = arguments_of(rt, arguments)?;
    let process = this_process(rt);
    let status = command(rt, &refusing, process, Ok(all), &mut output, &mut errors);
    if heap.used() != 0 {
        return Err(Fail::new(format_args!("kept memory: {arguments:?}")));
    }
    let outcome = Outcome {
        status,
        output,
        errors,
    };
    Ok((outcome, refusing.has_refused()))
}

/// Refuses each request of a run in turn: it ends with want of memory, and neither the result file nor a temporary one is left. Answers the run
/// that is refused none, and how many were refused before it.
fn refuse_in_turn(
    rt: &HostRuntime,
    arguments: &[&str],
    file: &str,
) -> Result<(Outcome, usize), Fail> {
    let temporary = temporary_name(rt.alloc(), file, this_process(rt).id, 0)?;
    for number in 1..REQUESTS {
        let (outcome, refused) = run_refusing(rt, arguments, number)?;
        if fs::exists(rt, temporary.as_str())? {
            return Err(Fail::new("a temporary file is left"));
        }
        if !refused {
            return Ok((outcome, number - 1));
        }
        if !outcome.is_refusal(1, OUT_OF_MEMORY) || fs::exists(rt, file)? {
            return Err(Fail::new(format_args!("request {number}: {arguments:?}")));
        }
    }
    Err(Fail::new("there are more requests"))
}

#[test]
fn want_of_memory_leaves_nothing(rt: HostRuntime) -> Result<(), Fail> {
    let log = path_of(&rt, "unremembered")?;
    let result = path_of(&rt, "unmade")?;
    fs::write(&rt, log.as_path(), SUMMED.as_slice())?;
    let arguments = ["plain", log.as_str()];
    let (outcome, refused) = refuse_in_turn(&rt, arguments.as_slice(), result.as_str())?;
    assert!(rt; outcome.is_done(PLAIN.as_slice()));
    assert!(rt; refused >= 1, "{refused}");
    let arguments = ["plain", "-r", result.as_str(), log.as_str()];
    let (outcome, refused) = refuse_in_turn(&rt, arguments.as_slice(), result.as_str())?;
    assert!(rt; outcome.is_done(b""));
    assert!(rt; refused >= 2, "{refused}");
    let written = fs::read(&rt, result.as_path())?;
    fs::remove_file(&rt, result.as_path())?;
    fs::remove_file(&rt, log.as_path())?;
    assert!(rt; written.as_slice() == PLAIN.as_slice());
    Ok(())
}

#[test]
fn want_of_memory_lists_nothing(rt: HostRuntime) -> Result<(), Fail> {
    let log = path_of(&rt, "unlisted-log")?;
    fs::write(&rt, log.as_path(), insert_and_drop(&rt)?.as_slice())?;
    let arguments = ["list", "--utc", log.as_str()];
    let (outcome, refused) = refuse_in_turn(&rt, arguments.as_slice(), "")?;
    assert!(rt; outcome.errors().is_empty());
    assert!(rt; refused >= 5, "{refused}");
    let arguments = ["list", "--utc", "--json", log.as_str()];
    let (outcome, refused) = refuse_in_turn(&rt, arguments.as_slice(), "")?;
    assert!(rt; outcome.errors().is_empty());
    assert!(rt; refused >= 5, "{refused}");
    fs::remove_file(&rt, log.as_path())?;
    Ok(())
}

#[test]
fn want_of_memory_cuts_nothing(rt: HostRuntime) -> Result<(), Fail> {
    let log = path_of(&rt, "uncut-log")?;
    let result = path_of(&rt, "uncut")?;
    fs::write(&rt, log.as_path(), INSERT_ONE_ROW.as_slice())?;
    let arguments = ["split", "-r", result.as_str(), log.as_str()];
    let (outcome, refused) = refuse_in_turn(&rt, arguments.as_slice(), result.as_str())?;
    assert!(rt; outcome.is_done(b""));
    assert!(rt; refused >= 5, "{refused}");
    let written = fs::read(&rt, result.as_path())?;
    fs::remove_file(&rt, result.as_path())?;
    fs::remove_file(&rt, log.as_path())?;
    assert!(rt; written.as_slice() == INSERT_ONE_ROW.as_slice());
    Ok(())
}

#[test]
fn want_of_memory_prints_no_sql(rt: HostRuntime) -> Result<(), Fail> {
    let log = path_of(&rt, "unprinted-log")?;
    let result = path_of(&rt, "unprinted")?;
    fs::write(&rt, log.as_path(), INSERT_ONE_ROW.as_slice())?;
    let arguments = [
        "sql",
        "--rewrite-db",
        "d:e",
        "-r",
        result.as_str(),
        log.as_str(),
    ];
    let (outcome, refused) = refuse_in_turn(&rt, arguments.as_slice(), result.as_str())?;
    assert!(rt; outcome.is_done(b""));
    assert!(rt; refused >= 7, "{refused}");
    let written = fs::read(&rt, result.as_path())?;
    fs::remove_file(&rt, result.as_path())?;
    fs::remove_file(&rt, log.as_path())?;
    assert!(rt; written.as_slice().ends_with(b" AS errors;\n"));
    Ok(())
}
