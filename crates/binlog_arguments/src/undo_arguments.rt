//! Which arguments of `undo` and `redo` mean what.

ghost use Rattle.std.specs.Prelude.{◌≡◌, ◌||◌, IfErr, IfOk, codes, drop, map};
ghost use Rattle.clap.specs.Words.{found_of};
ghost use Rattle.blog_run.specs.Writing.{HasShortWriting};
ghost use Rattle.blog_sql.specs.Changed.{HaveShortNames};
ghost use Rattle.blog_trans.specs.Selection.{selection_of};
ghost use Rattle.binlog_arguments.specs.Request.{HasPartWriting, HasLogs, IsPart, IsPartTask, IsWrong, RefusesLogs, RefusesPart, all_values, is_given, later_paths, leaves_rows, looks_later, merges_rows};

use crate::arguments::{ArgumentsFault, is_given};
use crate::list_arguments::{read_paths, read_range, read_zone};
use crate::options::{
    ANYWAY, AS_LOG, AT, DATABASE, DRY_RUN, LATER, LEAVE, LOG, MERGE, SHOW_ROWS, TABLE,
};
use crate::sql_arguments::{SqlTask, read_sql};
use crate::unit_choice::{UnitChoice, read_unit_choice};
use crate::zones::Zone;
use blog_choice::TableName;
use blog_row::Order;
use blog_run::Writing;
use blog_trans::Selection;
use clap::error::ErrorKind;
use clap::{ArgMatches, Command};
use std::alloc::{AllocError, Allocator};
use std::rt::{Env, Files};

/// The changes of a part of logs, which are undone, or made once more.
#[derive(Drop)]
pub struct PartTask<'a, A: Allocator> {
    /// The first log, where what is written goes, and how it is printed as SQL.
    pub sql: SqlTask<'a, A>,
    /// The paths of the further logs, in order.
    pub further: Vec<&'a str, A>,
    /// The part: its start is a place in the first log, and its stop one in the last.
    pub part: Selection<'a>,
    /// Which of its transactions are chosen.
    pub units: UnitChoice<'a, A>,
    /// Whether its changes are made once more (forward) or undone (backward).
    pub order: Order,
    /// Whether they are written as a log, and not as SQL.
    pub as_log: bool,
    /// Whether nothing but the report is written, with the rows or without.
    pub dry_run: bool,
    /// Whether the rows are printed as they would be written.
    pub shows_rows: bool,
    /// Whether what came later in the log is looked at, so that nothing is written if it touches the part.
    pub looks: bool,
    /// Whether rows that were changed since are left as they are, and the others are undone.
    pub leaves: bool,
    /// Whether the changes are taken out of these rows column by column, and the others are undone.
    pub merges: bool,
    /// The paths of later logs, in order, which are looked at too.
    pub later: Vec<&'a str, A>,
    /// The time zone in which times are given and printed.
    pub zone: Zone,
}

impl<A: Allocator> PartTask<'_, A> {
    /// Returns how the changes are written at this time, in seconds since 1970.
    pub fn writing(&self, now: u32) -> Writing<'_>
        ensures asked { HasPartWriting self.now now result }
        ensures names { HaveShortNames self.now.sql.schemas.items → HasShortWriting result }
    {
        Writing {
            order: self.order,
            limit: self.sql.size as usize,
            sql: if self.as_log {
                None
            } else {
                Some(self.sql.options(now))
            },
        }
    }
}

/// Reads what the arguments of `undo` or `redo` ask for.
pub(crate) fn read_part<'a, R: Files + Env + AllocGlobal, A: Allocator + Copy>(
    rt: &R,
    alloc: A,
    command: &mut Command<'a>,
    found: &ArgMatches<'a>,
    order: Order,
) -> Result<PartTask<'a, A>, ArgumentsFault<A>>
    ensures asked { IfOk result (IsPartTask (found_of found.now) order) }
    ensures names { IfOk result (λ task. HaveShortNames task.sql.schemas.items) }
    ensures refused { IfErr result (RefusesPart (found_of found.now)) }
{
    let range = read_range(alloc, command, found)?;
    let sql = read_sql(alloc, command, found)?;
    let zone = read_zone(rt, alloc, command, found)?;
    let units = read_unit_choice(alloc, command, found, zone.time_zone())?;
    let further = read_further(alloc, command, found)?;
    Ok(PartTask {
        sql,
        further,
        part: part_of(found, range.start, range.stop),
        units,
        order,
        as_log: is_given(found, AS_LOG),
        dry_run: is_dry_run(found),
        shows_rows: is_given(found, SHOW_ROWS),
        looks: looks(found, order),
        leaves: leaves(found, order),
        merges: merges(found, order),
        later: read_later(alloc, found, order)?,
        zone,
    })
}

/// Whether nothing but the report is written, with the rows or without.
fn is_dry_run(found: &ArgMatches<'_>) -> bool
    ensures { result ≡ (is_given (found_of found.now) (codes "dry-run") || is_given (found_of found.now) (codes "show")) }
{
    is_given(found, DRY_RUN) || is_given(found, SHOW_ROWS)
}

/// Whether what came later is looked at: by `undo`, unless it is told not to.
fn looks(found: &ArgMatches<'_>, order: Order) -> bool
    ensures { result ≡ looks_later (found_of found.now) order }
{
    match order {
        Order::Forward => false,
        Order::Backward => !is_given(found, ANYWAY),
    }
}

/// Whether rows that were changed since are left: by `undo` with `--leave`.
fn leaves(found: &ArgMatches<'_>, order: Order) -> bool
    ensures { result ≡ leaves_rows (found_of found.now) order }
{
    match order {
        Order::Forward => false,
        Order::Backward => is_given(found, LEAVE),
    }
}

/// Whether rows that were changed since are merged: by `undo` with `--merge`.
fn merges(found: &ArgMatches<'_>, order: Order) -> bool
    ensures { result ≡ merges_rows (found_of found.now) order }
{
    match order {
        Order::Forward => false,
        Order::Backward => is_given(found, MERGE),
    }
}

/// The paths of all logs but the first. Where a place of a log is given there is one log.
fn read_further<'a, A: Allocator + Copy>(
    alloc: A,
    command: &mut Command<'a>,
    found: &ArgMatches<'a>,
) -> Result<Vec<&'a str, A>, ArgumentsFault<A>>
    ensures paths { IfOk result (λ paths. map (λ path. path.now) paths.items ≡ drop 1 (all_values (found_of found.now) (codes "LOG"))) }
    ensures one { IfOk result (λ _. HasLogs (found_of found.now)) }
    ensures refused { IfErr result (RefusesLogs (found_of found.now)) }
{
    let logs = read_paths(alloc, found, LOG)?;
    let places = read_paths(alloc, found, AT)?;
    if !places.is_empty() && logs.len() > 1 {
        return Err(wrong_place(alloc, command)?);
    }
    let mut further = Vec::new(alloc);
    if let Some((_, rest)) = logs.split_first() {
        further.extend_from_slice(rest)?;
    }
    Ok(further)
}

/// Why no place is given with several logs.
fn wrong_place<A: Allocator + Copy>(
    alloc: A,
    command: &mut Command<'_>,
) -> Result<ArgumentsFault<A>, AllocError>
    ensures { IfOk result (λ fault. IsWrong fault) }
{
    let error = command.error(ErrorKind::ArgumentConflict, AT_ALONE)?;
    Ok(ArgumentsFault::Wrong(error.to_string(alloc)?))
}

/// The same, as it is told.
const AT_ALONE: &str = "the argument '--at <POS>' cannot be used with several logs";

/// The paths of later logs: `redo` has none.
fn read_later<'a, A: Allocator>(
    alloc: A,
    found: &ArgMatches<'a>,
    order: Order,
) -> Result<Vec<&'a str, A>, AllocError>
    ensures { IfOk result (λ paths. map (λ path. path.now) paths.items ≡ later_paths (found_of found.now) order) }
{
    match order {
        Order::Forward => Ok(Vec::new(alloc)),
        Order::Backward => read_paths(alloc, found, LATER),
    }
}

/// The part from a start to a stop, of the tables that are asked for.
fn part_of<'a>(found: &ArgMatches<'a>, start: Option<u32>, stop: Option<u32>) -> Selection<'a>
    ensures { IsPart (found_of found.now) start stop (selection_of result) }
{
    let database = found.get_str(DATABASE).map(str::as_bytes);
    match found.get_str(TABLE) {
        None => Selection {
            start: start.unwrap_or(FIRST),
            stop,
            database,
            table: None,
        },
        Some(text) => {
            let name = TableName::read(text.as_bytes());
            Selection {
                start: start.unwrap_or(FIRST),
                stop,
                database: name.schema.or(database),
                table: Some(name.table),
            }
        }
    }
}

/// Where the first event of a log begins.
const FIRST: u32 = 4;
