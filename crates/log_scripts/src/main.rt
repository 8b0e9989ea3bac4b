//! Plays scripts of calls on logs. Its arguments are files of scripts.
//!
//! The first word of a run says what is asked of a log, and the last is the log's path; what stands between them selects changes, by
//! the options of `flashback`: `-j`, `--stop-position`, `-d` and `-T`.
//!
//! | Word | What is written |
//! |---|---|
//! | `undo`, `forward` | the log that undoes the selected changes, and the log of these changes |
//! | `undo-sql`, `sql`, `summary` | what is printed of them |
//! | `groups` | the parts of the groups, a line each |
//! | `entries` | where the entries of the index begin |
//! | `tables` | the tables, and how many of their rows are inserted, updated and deleted |
#![tactic(auto)]

mod calls;
mod logs;
mod readers;
mod words;

use blog_device::{Watched, put};
use calls::called;
use logs::play;
use std::alloc::AllocError;
use std::process::ExitCode;
use testkit::runs::Outcome;
use transcripts::Program;

/// Calls on logs, as a program.
struct LogProgram;

impl Program for LogProgram {
    fn name(&self) -> &'static str {
        "logs"
    }

    fn run(&self, rt: &HostRuntime, arguments: Vec<String>) -> Outcome {
        let mut output = Watched::new(Vec::new(rt.alloc()));
        let mut errors = Watched::new(Vec::new(rt.alloc()));
        let status = match called(rt, arguments.as_slice()) {
            Ok(written) => {
                let _ = put(&mut output, written.as_slice());
                ExitCode::SUCCESS
            }
            Err(why) => {
                if let Ok(line) = format!(in rt.alloc(); "{why}\n") {
                    let _ = put(&mut errors, line.as_bytes());
                }
                ExitCode::FAILURE
            }
        };
        Outcome {
            status,
            output,
            errors,
        }
    }
}

fn main(rt: HostRuntime) -> ExitCode {
    match play(&rt, &LogProgram) {
        Ok(status) => status,
        Err(AllocError) => ExitCode::FAILURE,
    }
}
