//! Which arguments of `show` mean what.

ghost use Rattle.std.specs.Prelude.{IfErr, IfOk};
ghost use Rattle.clap.specs.Words.{found_of};
ghost use Rattle.binlog_arguments.specs.Request.{IsShowTask, RefusesShow};

use crate::arguments::{ArgumentsFault, is_given, read_number};
use crate::list_arguments::{ListTask, read_list, read_numbers};
use crate::options::{ALL_COLUMNS, AT, CSV, DEFAULT_WIDTH, WIDTH};
use clap::{ArgMatches, Command};
use console::POSITION;
use std::alloc::Allocator;
use std::rt::{Env, Files};

/// The rows that the units of logs change.
#[derive(Drop)]
pub struct ShowTask<'a, A: Allocator> {
    /// Which units of which logs.
    pub units: ListTask<'a, A>,
    /// Those that have an event at one of these positions; any if there are none.
    pub at: Vec<u32, A>,
    /// Whether an update shows the columns that it leaves too.
    pub all_columns: bool,
    /// In how many columns of a terminal a text is shown.
    pub width: u32,
    /// Whether the rows are written as CSV.
    pub as_csv: bool,
}

/// What a width is, as it is reported of a value that is none.
const COLUMNS: &str = "a number of columns: decimal digits, 0 to 4294967295";

/// Reads what the arguments of `show` ask for.
pub(crate) fn read_show<'a, R: Files + Env + AllocGlobal, A: Allocator + Copy>(
    rt: &R,
    alloc: A,
    command: &mut Command<'a>,
    found: &ArgMatches<'a>,
) -> Result<ShowTask<'a, A>, ArgumentsFault<A>>
    ensures asked { IfOk result (IsShowTask (found_of found.now)) }
    ensures refused { IfErr result (RefusesShow (found_of found.now)) }
{
    let units = read_list(rt, alloc, command, found)?;
    let at = read_numbers(alloc, command, found, AT, "POS", POSITION)?;
    let width = read_number(alloc, command, found, WIDTH, "COLUMNS", COLUMNS)?;
    Ok(ShowTask {
        units,
        at,
        all_columns: is_given(found, ALL_COLUMNS),
        width: width.unwrap_or(DEFAULT_WIDTH),
        as_csv: is_given(found, CSV),
    })
}
