//! Runs of `binlog` in tests, over files in the folder for temporary files and writers in memory.
#![tactic(auto)]

pub mod large_logs;
pub mod scripts;

use binlog_command::{Process, command};
use blog_device::Watched;
use std::alloc::AllocError;
use std::path::PathBuf;
use std::test::Fail;
use std::{fs, io, process};
use testkit::runs::Outcome;

/// When each run begins, in seconds since 1970.
const BEGAN: u32 = 0x0102_0304;

/// The arguments of a run, of which the first is the program's name.
pub fn arguments_of(rt: &HostRuntime, arguments: &[&str]) -> Result<Vec<String>, AllocError> {
    testkit::runs::arguments_of(rt, "binlog", arguments)
}

/// This process, whose standard output is no terminal.
pub fn this_process(rt: &HostRuntime) -> Process {
    Process {
        id: process::id(rt.process()),
        began: BEGAN,
        writes_to_terminal: false,
        seed: 0,
    }
}

pub fn run_in(rt: &HostRuntime, process: Process, arguments: io::Result<Vec<String>>) -> Outcome {
    let mut output = Watched::new(Vec::new(rt.alloc()));
    let mut errors = Watched::new(Vec::new(rt.alloc()));
    let status = command(rt, rt.alloc(), process, arguments, &mut output, &mut errors);
    Outcome {
        status,
        output,
        errors,
    }
}

pub fn run_given(rt: &HostRuntime, arguments: io::Result<Vec<String>>) -> Outcome {
    run_in(rt, this_process(rt), arguments)
}

pub fn run_arguments(rt: &HostRuntime, arguments: &[&str]) -> Result<Outcome, AllocError> {
    Ok(run_given(rt, Ok(arguments_of(rt, arguments)?)))
}

/// A path in the folder for temporary files that no other test has.
pub fn path_of(rt: &HostRuntime, name: &str) -> io::Result<PathBuf> {
    testkit::runs::path_of(rt, "binlog", name)
}

/// Runs the program with these arguments and a file of these bytes as the last argument.
pub fn run_log(
    rt: &HostRuntime,
    name: &str,
    log: &[u8],
    arguments: &[&str],
) -> Result<Outcome, Fail> {
    let path = path_of(rt, name)?;
    fs::write(rt, path.as_path(), log)?;
    let mut all = arguments_of(rt, arguments)?;
    all.push(String::from_str(rt.alloc(), path.as_str())?)?;
    let outcome = run_given(rt, Ok(all));
    fs::remove_file(rt, path.as_path())?;
    Ok(outcome)
}
