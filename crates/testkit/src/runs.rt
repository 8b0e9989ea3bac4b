//! Runs of a program in tests: its arguments, paths for its files, and what it wrote to writers in memory.

use blog_device::Watched;
use std::alloc::AllocError;
use std::path::PathBuf;
use std::process::ExitCode;
use std::{env, io, process};

/// What a run answered, and what it wrote.
#[derive(Drop)]
pub struct Outcome {
    pub status: ExitCode,
    pub output: Watched<Vec<u8>>,
    pub errors: Watched<Vec<u8>>,
}

impl Outcome {
    /// What was written to standard output.
    pub fn output(&self) -> &[u8] {
        self.output.device().as_slice()
    }

    /// What was printed to standard error.
    pub fn errors(&self) -> &[u8] {
        self.errors.device().as_slice()
    }

    /// Whether the run did what was asked for, wrote this, and printed nothing.
    pub fn is_done(&self, output: &[u8]) -> bool {
        self.status == ExitCode::SUCCESS && self.output() == output && self.errors().is_empty()
    }

    /// Whether nothing but the arguments was wrong: some text was printed, and nothing was written.
    pub fn is_wrong(&self) -> bool {
        self.status == ExitCode::from(2) && self.output().is_empty() && !self.errors().is_empty()
    }

    /// Whether the run ended with this status, wrote nothing else, and printed this line.
    pub fn is_refusal(&self, status: u8, line: &str) -> bool {
        self.status == ExitCode::from(status)
            && self.output().is_empty()
            && self.errors() == line.as_bytes()
    }

    /// The same, where the line that was printed begins so and has an end.
    pub fn begins_refusal(&self, status: u8, line: &str) -> bool {
        self.status == ExitCode::from(status)
            && self.output().is_empty()
            && self.errors().starts_with(line.as_bytes())
            && self.errors().ends_with(b"\n")
    }
}

/// These arguments behind what is there.
pub fn push_arguments(all: &mut Vec<String>, arguments: &[&str]) -> Result<(), AllocError> {
    for argument in arguments {
        all.push(String::from_str(*all.allocator(), argument)?)?;
    }
    Ok(())
}

/// The arguments of a run, of which the first is the program's name.
pub fn arguments_of(
    rt: &HostRuntime,
    program: &str,
    arguments: &[&str],
) -> Result<Vec<String>, AllocError> {
    let mut all = Vec::new(rt.alloc());
    push_arguments(&mut all, &[program])?;
    push_arguments(&mut all, arguments)?;
    Ok(all)
}

/// A path in the folder for temporary files that no other test has.
pub fn path_of(rt: &HostRuntime, program: &str, name: &str) -> io::Result<PathBuf> {
    let id = process::id(rt.process());
    let file = format!(in rt.alloc(); "{program}-{id}-{name}.binlog")?;
    Ok(env::temp_dir(rt)?.join(rt.alloc(), file.as_str())?)
}
