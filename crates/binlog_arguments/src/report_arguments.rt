//! Which arguments of `report` mean what.

ghost use Rattle.std.specs.Prelude.{IfErr, IfOk};
ghost use Rattle.clap.specs.Words.{found_of};
ghost use Rattle.binlog_arguments.specs.Request.{IsReportTask, RefusesReport};

use crate::arguments::{ArgumentsFault, is_given, read_number};
use crate::list_arguments::{ListTask, read_list};
use crate::options::{FORCE, INTERVAL, RESULT_FILE, TEXT};
use clap::{ArgMatches, Command};
use std::alloc::Allocator;
use std::rt::{Env, Files};

/// A report of the units of logs.
#[derive(Drop)]
pub struct ReportTask<'a, A: Allocator> {
    /// Which units of which logs.
    pub units: ListTask<'a, A>,
    /// By intervals of how many seconds rows are counted; if it isn't given, by as many as the report chooses.
    pub interval: Option<u32>,
    /// Whether text is written in place of a page.
    pub as_text: bool,
    /// The path of the file for the report; none where it goes to standard output.
    pub result_file: Option<&'a str>,
    /// Whether that file may be there.
    pub force: bool,
}

/// What an interval is, as it is reported of a value that is none.
const SECONDS: &str = "a number of seconds: decimal digits, 0 to 4294967295";

/// Reads what the arguments of `report` ask for.
pub(crate) fn read_report<'a, R: Files + Env + AllocGlobal, A: Allocator + Copy>(
    rt: &R,
    alloc: A,
    command: &mut Command<'a>,
    found: &ArgMatches<'a>,
) -> Result<ReportTask<'a, A>, ArgumentsFault<A>>
    ensures asked { IfOk result (IsReportTask (found_of found.now)) }
    ensures refused { IfErr result (RefusesReport (found_of found.now)) }
{
    let units = read_list(rt, alloc, command, found)?;
    let interval = read_number(alloc, command, found, INTERVAL, "SECONDS", SECONDS)?;
    Ok(ReportTask {
        units,
        interval,
        as_text: is_given(found, TEXT),
        result_file: found.get_str(RESULT_FILE),
        force: is_given(found, FORCE),
    })
}
