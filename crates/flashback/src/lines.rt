//! The lines on standard error.

use crate::arguments::{ArgumentsFault, ModeFault};
use crate::commands::Failure;
use blog_flash::{Fault, RunFault, Watched, put};
use console::put_line;
use std::alloc::Allocator;
use std::fmt;
use std::io::Write;

/// What is told where no mode is chosen, or several are.
const CHOOSE_ONE_MODE: &str = "choose one of -B, --forward, --summary";

/// What is told where a summary is asked for as pseudo-SQL.
const SQL_OF_SUMMARY: &str = "--sql goes with -B or --forward";

impl<A: Allocator> Failure<A> {
    /// Prints the failure. What can't be printed is dropped.
    pub fn print<E: Write>(&self, errors: &mut Watched<E>) {
        let _ = match self {
            Failure::Arguments(ArgumentsFault::Wrong(text)) => put(errors, text.as_bytes()),
            _ => put_line(errors, "flashback", self),
        };
    }
}

impl<A: Allocator> fmt::Display for Failure<A> {
    fn fmt<W: fmt::Write>(&self, f: &mut fmt::Formatter<W>) -> fmt::Result {
        match self {
            Failure::Arguments(ArgumentsFault::Wrong(text)) => write!(f, "{text}"),
            Failure::Arguments(ArgumentsFault::Mode(fault)) => write!(f, "{fault}"),
            Failure::Arguments(ArgumentsFault::NotText) => f.write_str(
                "the arguments are not UTF-8",
            ),
            Failure::Arguments(ArgumentsFault::OutOfMemory) => write!(f, "{}", Fault::OutOfMemory),
            Failure::NoLog => f.write_str("cannot open the log"),
            Failure::NoResultFile => f.write_str("cannot create the result file"),
            Failure::Run(RunFault::Log(fault)) => write!(f, "{fault}"),
            Failure::Run(RunFault::Read) => f.write_str("read failed"),
            Failure::Run(RunFault::Write) => f.write_str("write failed"),
        }
    }
}

impl fmt::Display for ModeFault {
    fn fmt<W: fmt::Write>(&self, f: &mut fmt::Formatter<W>) -> fmt::Result {
        f.write_str(match self {
            ModeFault::NotOneMode => CHOOSE_ONE_MODE,
            ModeFault::SqlOfSummary => SQL_OF_SUMMARY,
        })
    }
}

#[cfg(test)]
mod tests;
