//! Which arguments of `list` mean what.

ghost use Rattle.std.specs.Prelude.{◌≡◌, IfErr, IfOk, codes, map, option_map};
ghost use Rattle.clap.specs.Words.{first_value, found_of};
ghost use Rattle.console.specs.Positions.{IsPositionOf};
ghost use Rattle.jiff.specs.Words.{plain_zone};
ghost use Rattle.blog_choice.specs.Choice.{read_name};
ghost use Rattle.blog_choice.specs.code.Views.{name_value};
ghost use Rattle.binlog_arguments.specs.Request.{AreIds, AreNumbers, AreTimes, HasTask, IsWrong, IsListTask, IsTimeOf, IsZoneAsked, RefusesIds, RefusesList, RefusesNumbers, RefusesRange, RefusesTime, RefusesTimes, all_values, form_of, is_given, sorting_of};
ghost use Rattle.binlog_arguments.specs.declared.arguments.ArgumentsFault.TheVariants.{OutOfMemory};

use crate::arguments::{ArgumentsFault, is_given, read_number};
use crate::options::{
    BY_ROWS, DATABASE, EXCLUDED_TABLE, GTID, JSON, LOG, SHOW_GTID, SKIP_DAMAGED, SORT, START,
    START_TIME, STOP, STOP_TIME, TABLE, THREAD, TIME_ZONE, UTC,
};
use crate::zones::{Zone, named_zone, system_zone};
use blog_choice::{TableChoice, TableName};
use blog_list::{Form, Side, Sorting, TimeFault, seconds_of};
use blog_request::{GlobalIds, Wanted};
use blog_source::Reading;
use clap::{ArgMatches, Command};
use console::{POSITION, position_of, wrong_value};
use jiff::tz::TimeZone;
use std::alloc::{AllocError, Allocator};
use std::rt::{Env, Files};

/// The list of the units of logs.
#[derive(Drop)]
pub struct ListTask<'a, A: Allocator> {
    /// The paths of the logs.
    pub logs: Vec<&'a str, A>,
    /// The units that start at this position or after it.
    pub start: Option<u32>,
    /// The units that start before this position.
    pub stop: Option<u32>,
    /// The units of this time or later, in seconds since 1970 in UTC.
    pub from_time: Option<u32>,
    /// The units before this time.
    pub to_time: Option<u32>,
    /// The units of these threads; of any if there are none.
    pub threads: Vec<u32, A>,
    /// The units with one of these global transaction ids; with any or none if there are none.
    pub gtids: Vec<GlobalIds<'a>, A>,
    /// The schema of the chosen tables.
    pub database: Option<&'a [u8]>,
    /// The chosen tables.
    pub tables: Vec<TableName<'a>, A>,
    /// Tables that aren't chosen.
    pub excluded: Vec<TableName<'a>, A>,
    /// In which form units are listed.
    pub form: Form,
    /// Whether GTIDs are listed.
    pub show_gtids: bool,
    /// How the units of each log are sorted.
    pub sorting: Sorting,
    /// How the log is read.
    pub reading: Reading,
    /// The time zone in which times are printed.
    pub zone: Zone,
}

impl<'a, A: Allocator> ListTask<'a, A> {
    /// Returns the path of a log by its number, from 0 on; an empty one where there is no such log.
    pub fn path(&self, n: usize) -> &'a str {
        match self.logs.get(n) {
            Some(path) => path,
            None => "",
        }
    }

    /// Returns which units are wanted.
    pub fn wanted(&self) -> Wanted<'_>
        ensures { HasTask self.now result }
    {
        Wanted {
            start: self.start,
            stop: self.stop,
            from_time: self.from_time,
            to_time: self.to_time,
            threads: self.threads.as_slice(),
            gtids: self.gtids.as_slice(),
            choice: TableChoice {
                database: self.database,
                tables: self.tables.as_slice(),
                excluded: self.excluded.as_slice(),
            },
        }
    }
}

/// Reads what the arguments of `list` ask for.
pub(crate) fn read_list<'a, R: Files + Env + AllocGlobal, A: Allocator + Copy>(
    rt: &R,
    alloc: A,
    command: &mut Command<'a>,
    found: &ArgMatches<'a>,
) -> Result<ListTask<'a, A>, ArgumentsFault<A>>
    ensures asked { IfOk result (IsListTask (found_of found.now)) }
    ensures refused { IfErr result (RefusesList (found_of found.now)) }
{
    let zone = read_zone(rt, alloc, command, found)?;
    let range = read_range(alloc, command, found)?;
    let times = read_times(alloc, command, found, zone.time_zone())?;
    let names = read_names(alloc, found)?;
    let threads = read_numbers(alloc, command, found, THREAD, "N", THREAD_ID)?;
    let gtids = read_gtids(alloc, command, found)?;
    Ok(ListTask {
        logs: names.logs,
        start: range.start,
        stop: range.stop,
        from_time: times.from,
        to_time: times.to,
        threads,
        gtids,
        database: found.get_str(DATABASE).map(str::as_bytes),
        tables: names.tables,
        excluded: names.excluded,
        form: read_form(found),
        show_gtids: is_given(found, SHOW_GTID),
        sorting: read_sorting(found),
        reading: Reading {
            stop: None,
            skip_damaged: is_given(found, SKIP_DAMAGED),
        },
        zone,
    })
}

/// A range of positions.
#[derive(Clone, Copy, Debug)]
pub(crate) struct Range {
    /// From this one on.
    pub(crate) start: Option<u32>,
    /// Up to this one, and without it.
    pub(crate) stop: Option<u32>,
}

/// The range of positions that the arguments ask for.
pub(crate) fn read_range<'a, A: Allocator + Copy>(
    alloc: A,
    command: &mut Command<'a>,
    found: &ArgMatches<'a>,
) -> Result<Range, ArgumentsFault<A>>
    ensures start { IfOk result (λ range. IsPositionOf (first_value (found_of found.now) (codes "start-position")) range.start) }
    ensures stop { IfOk result (λ range. IsPositionOf (first_value (found_of found.now) (codes "stop-position")) range.stop) }
    ensures wrong { IfErr result (RefusesRange (found_of found.now)) }
{
    Ok(Range {
        start: read_number(alloc, command, found, START, "POS", POSITION)?,
        stop: read_number(alloc, command, found, STOP, "POS", POSITION)?,
    })
}

/// A range of times, in seconds since 1970 in UTC.
#[derive(Clone, Copy, Debug)]
pub(crate) struct Times {
    /// From this one on.
    pub(crate) from: Option<u32>,
    /// Up to this one, and without it.
    pub(crate) to: Option<u32>,
}

/// The range of times that the arguments ask for, by the clock of a zone.
pub(crate) fn read_times<'a, A: Allocator + Copy>(
    alloc: A,
    command: &mut Command<'a>,
    found: &ArgMatches<'a>,
    zone: TimeZone<'_>,
) -> Result<Times, ArgumentsFault<A>>
    ensures found { IfOk result (λ times. AreTimes (found_of found.now) times.from times.to (plain_zone zone.entry)) }
    ensures wrong { IfErr result (RefusesTimes (found_of found.now)) }
{
    Ok(Times {
        from: read_time(alloc, command, found, START_TIME, zone, Side::Start)?,
        to: read_time(alloc, command, found, STOP_TIME, zone, Side::Stop)?,
    })
}

/// What `list` names.
#[derive(Drop)]
struct Names<'a, A: Allocator> {
    /// The paths of logs.
    logs: Vec<&'a str, A>,
    /// The chosen tables.
    tables: Vec<TableName<'a>, A>,
    /// Tables that aren't chosen.
    excluded: Vec<TableName<'a>, A>,
}

/// The logs and tables that the arguments of `list` name.
fn read_names<'a, A: Allocator + Copy>(
    alloc: A,
    found: &ArgMatches<'a>,
) -> Result<Names<'a, A>, AllocError>
    ensures logs { IfOk result (λ names. map (λ path. path.now) names.logs.items ≡ all_values (found_of found.now) (codes "LOG")) }
    ensures tables { IfOk result (λ names. map name_value names.tables.items ≡ map read_name (all_values (found_of found.now) (codes "table"))) }
    ensures excluded { IfOk result (λ names. map name_value names.excluded.items ≡ map read_name (all_values (found_of found.now) (codes "exclude-table"))) }
{
    Ok(Names {
        logs: read_paths(alloc, found, LOG)?,
        tables: read_tables(alloc, found, TABLE)?,
        excluded: read_tables(alloc, found, EXCLUDED_TABLE)?,
    })
}

/// The paths that an option has, or an argument without one, in order.
pub(crate) fn read_paths<'a, A: Allocator>(
    alloc: A,
    found: &ArgMatches<'a>,
    name: &str,
) -> Result<Vec<&'a str, A>, AllocError>
    ensures { IfOk result (λ paths. map (λ path. path.now) paths.items ≡ all_values (found_of found.now) name.now) }
{
    let mut paths = Vec::new(alloc);
    if let Some(values) = found.get_strs(name) {
        for path in values {
            paths.push(*path)?;
        }
    }
    Ok(paths)
}

/// The tables that an option names, in order.
fn read_tables<'a, A: Allocator>(
    alloc: A,
    found: &ArgMatches<'a>,
    name: &str,
) -> Result<Vec<TableName<'a>, A>, AllocError>
    ensures { IfOk result (λ tables. map name_value tables.items ≡ map read_name (all_values (found_of found.now) name.now)) }
{
    let mut tables = Vec::new(alloc);
    if let Some(names) = found.get_strs(name) {
        for text in names {
            tables.push(TableName::read(text.as_bytes()))?;
        }
    }
    Ok(tables)
}

/// What a thread is, as it is reported of a value that is none.
pub(crate) const THREAD_ID: &str = "a thread id: decimal digits, 0 to 4294967295";

/// The numbers that an option has, in order. `value` is what its value is called in the help, and `has_to_be` says what one has to be.
pub(crate) fn read_numbers<'a, A: Allocator + Copy>(
    alloc: A,
    command: &mut Command<'a>,
    found: &ArgMatches<'a>,
    name: &str,
    value: &str,
    has_to_be: &str,
) -> Result<Vec<u32, A>, ArgumentsFault<A>>
    ensures found { IfOk result (λ numbers. AreNumbers (all_values (found_of found.now) name.now) numbers.items) }
    ensures wrong { IfErr result (RefusesNumbers (all_values (found_of found.now) name.now)) }
{
    let mut numbers = Vec::new(alloc);
    if let Some(values) = found.get_strs(name) {
        for text in values {
            let Some(number) = position_of(text) else {
                return Err(wrong_number(alloc, command, name, value, text, has_to_be)?);
            };
            if numbers.push(number).is_err() {
                return Err(ArgumentsFault::OutOfMemory);
            }
        }
    }
    Ok(numbers)
}

/// Why a text is none of the numbers of an option.
fn wrong_number<A: Allocator + Copy>(
    alloc: A,
    command: &mut Command<'_>,
    name: &str,
    value: &str,
    text: &str,
    has_to_be: &str,
) -> Result<ArgumentsFault<A>, AllocError>
    ensures { IfOk result (λ fault. IsWrong fault) }
{
    let option = format!(in alloc; "{name} <{value}>")?;
    let told = wrong_value(alloc, command, option.as_str(), text, has_to_be)?;
    Ok(ArgumentsFault::Wrong(told))
}

/// What ids are, as it is reported of a value that is none.
const IDS: &str =
    "a GTID: UUID:NUMBER, UUID:TAG:NUMBER, or FIRST-LAST in place of the number, which is 1 to 18446744073709551615";

/// The global transaction ids that are asked for, in order.
pub(crate) fn read_gtids<'a, A: Allocator + Copy>(
    alloc: A,
    command: &mut Command<'a>,
    found: &ArgMatches<'a>,
) -> Result<Vec<GlobalIds<'a>, A>, ArgumentsFault<A>>
    ensures found { IfOk result (λ ids. AreIds (all_values (found_of found.now) (codes "gtid")) ids.items) }
    ensures wrong { IfErr result (RefusesIds (all_values (found_of found.now) (codes "gtid"))) }
{
    let mut gtids = Vec::new(alloc);
    if let Some(values) = found.get_strs(GTID) {
        for text in values {
            let Some(ids) = GlobalIds::read(text.as_bytes()) else {
                return Err(wrong_gtid(alloc, command, text)?);
            };
            if gtids.push(ids).is_err() {
                return Err(ArgumentsFault::OutOfMemory);
            }
        }
    }
    Ok(gtids)
}

/// Why a text is no global transaction id.
fn wrong_gtid<A: Allocator + Copy>(
    alloc: A,
    command: &mut Command<'_>,
    text: &str,
) -> Result<ArgumentsFault<A>, AllocError>
    ensures { IfOk result (λ fault. IsWrong fault) }
{
    let option = format!(in alloc; "{GTID} <GTID>")?;
    let told = wrong_value(alloc, command, option.as_str(), text, IDS)?;
    Ok(ArgumentsFault::Wrong(told))
}

/// The form of a list.
fn read_form(found: &ArgMatches<'_>) -> Form
    ensures { result ≡ form_of (is_given (found_of found.now) (codes "json")) }
{
    if is_given(found, JSON) {
        Form::Json
    } else {
        Form::Text
    }
}

/// What a time zone is, as it is told of a name that is none.
const ZONE: &str =
    "a time zone that this machine has a file of: give an IANA name such as Europe/Berlin, or install tzdata";

/// How the units of each log are sorted.
fn read_sorting(found: &ArgMatches<'_>) -> Sorting
    ensures { result ≡ sorting_of (first_value (found_of found.now) (codes "sort")) }
{
    match found.get_str(SORT) {
        Some(order) if order == BY_ROWS => Sorting::Rows,
        _ => Sorting::Place,
    }
}

/// The time zone that is asked for: UTC, that of a name, or else the machine's.
pub(crate) fn read_zone<'a, R: Files + Env + AllocGlobal, A: Allocator + Copy>(
    rt: &R,
    alloc: A,
    command: &mut Command<'a>,
    found: &ArgMatches<'a>,
) -> Result<Zone, ArgumentsFault<A>>
    ensures zone { IfOk result (IsZoneAsked (found_of found.now)) }
    ensures wrong { IfErr result (RefusesTime (first_value (found_of found.now) (codes "time-zone"))) }
{
    if is_given(found, UTC) {
        return Ok(Zone::Utc);
    }
    let Some(name) = found.get_str(TIME_ZONE) else {
        return Ok(system_zone(rt)?);
    };
    if let Some(zone) = named_zone(rt, name)? {
        return Ok(zone);
    }
    let option = format!(in alloc; "{TIME_ZONE} <NAME>")?;
    let told = wrong_value(alloc, command, option.as_str(), name, ZONE)?;
    Err(ArgumentsFault::Wrong(told))
}

/// What a time is, as it is told of a value that is none.
const TIME: &str =
    "a time: YYYY-MM-DD hh:mm:ss, in UTC from 1970-01-01 00:00:00 to 2106-02-07 06:28:15";

/// The same of a time that a clock never shows.
const SHOWN_TIME: &str =
    "a time in this time zone: its clock is put forward past it: give one before or after that";

/// The time that this option has, where it is there, in seconds since 1970 in UTC.
pub(crate) fn read_time<'a, A: Allocator + Copy>(
    alloc: A,
    command: &mut Command<'a>,
    found: &ArgMatches<'a>,
    name: &str,
    zone: TimeZone<'_>,
    side: Side,
) -> Result<Option<u32>, ArgumentsFault<A>>
    ensures found { IfOk result (IsTimeOf (plain_zone zone.entry) side (first_value (found_of found.now) name.now)) }
    ensures wrong { IfErr result (RefusesTime (first_value (found_of found.now) name.now)) }
{
    let Some(text) = found.get_str(name) else {
        return Ok(None);
    };
    let has_to_be = match seconds_of(text, zone, side) {
        Ok(seconds) => return Ok(Some(seconds)),
        Err(TimeFault::NotATime) => TIME,
        Err(TimeFault::Skipped) => SHOWN_TIME,
    };
    let option = format!(in alloc; "{name} <TIME>")?;
    let told = wrong_value(alloc, command, option.as_str(), text, has_to_be)?;
    Err(ArgumentsFault::Wrong(told))
}
