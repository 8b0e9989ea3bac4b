//! Which arguments mean what.

ghost use Rattle.std.specs.Prelude.{◌≡◌, IfErr, IfOk, Ok, codes, false, true};
ghost use Rattle.clap.specs.Words.{first_value, found_of};
ghost use Rattle.console.specs.Positions.{IsPositionOf};
ghost use Rattle.binlog_arguments.specs.Request.{HasShortSchemas, IsNewLogTask, as_log, IsSizeOf, IsRead, RefusesPosition, RefusesSize, asks_for_list, is_given, is_list, is_part, asks_for_part};
ghost use Rattle.binlog_arguments.specs.declared.arguments.ArgumentsFault.TheVariants.{OutOfMemory};

use crate::all_options::all_arguments;
use crate::list_arguments::{ListTask, read_list};
use crate::options::{
    DEFAULT_SIZE, FORCE, LEAST_SIZE, LIST, LOG, PLAIN, REDO, REPORT, RESULT_FILE, SHOW, SIZE,
    SPLIT, SQL, UNDO,
};
use crate::report_arguments::{ReportTask, read_report};
use crate::show_arguments::{ShowTask, read_show};
use crate::sql_arguments::{SqlTask, read_sql};
use crate::undo_arguments::{PartTask, read_part};
use blog_row::Order;
use blog_run::Writing;
use clap::error::ErrorKind;
use clap::{ArgMatches, Command, Error};
use console::{Told, are_harmless, escaped_arguments, position_of, read_error, wrong_value};
use std::alloc::{AllocError, Allocator};
use std::rt::{Env, Files};

/// What the arguments ask for.
#[derive(Drop)]
pub enum Asked<'a, A: Allocator> {
    /// The text of the help, or of the version.
    Text(String<A>),
    /// A new log, made of a log.
    NewLog(NewLogTask<'a, 'a>),
    /// The list of the units of a log.
    List(ListTask<'a, A>),
    /// The rows that the units of a log change.
    Show(ShowTask<'a, A>),
    /// A report of the units of logs.
    Report(ReportTask<'a, A>),
    /// A log as SQL.
    Sql(SqlTask<'a, A>),
    /// The changes of a part of a log, undone or made once more.
    Part(PartTask<'a, A>),
}

/// What is made of a log.
#[derive(Clone, Copy, Debug)]
pub enum Making<'m> {
    /// The same log without checksums.
    Plain,
    /// Its changes, as a log or as SQL.
    Changes(Writing<'m>),
}

/// A new log, or SQL, made of a log.
#[derive(Clone, Copy, Debug)]
pub struct NewLogTask<'a, 'm> {
    /// The path of the log.
    pub log: &'a str,
    /// The path of the file for what is made; none where that goes to standard output.
    pub result_file: Option<&'a str>,
    /// Whether that file may be there.
    pub force: bool,
    /// What is made.
    pub making: Making<'m>,
}

/// Why the arguments ask for nothing.
#[derive(Drop)]
pub enum ArgumentsFault<A: Allocator> {
    /// The arguments are wrong, as this text tells.
    Wrong(String<A>),
    /// An argument isn't UTF-8.
    NotText,
    /// Memory was refused.
    OutOfMemory,
}

impl<A: Allocator> From<AllocError> for ArgumentsFault<A> {
    ghost from_gives = { λ _ fault. fault ≡ OutOfMemory };

    fn from(_error: AllocError) -> ArgumentsFault<A> {
        ArgumentsFault::OutOfMemory
    }
}

/// Answers what the arguments ask for, of which the first is the program's name. A list, rows or a report are asked for by the second one alone, and
/// so is a part of a log.
/// The parser takes its memory from the system, and the time zone of a list is read from the system's files.
pub fn read_arguments<'a, R: Files + Env + AllocGlobal, A: Allocator + Copy>(
    rt: &R,
    alloc: A,
    arguments: &'a [String],
) -> Result<Asked<'a, A>, ArgumentsFault<A>>
    ensures list { IfOk result (λ asked. is_list asked ≡ true → asks_for_list arguments.now ≡ true) }
    ensures part { IfOk result (λ asked. is_part asked ≡ true → asks_for_part arguments.now ≡ true) }
    ensures names { IfOk result HasShortSchemas }
{
    let lists = asks_for_list(arguments);
    let parts = asks_for_part(arguments);
    let mut command = all_arguments(rt.alloc())?;
    let parsed = command.try_get_matches_from_mut(arguments);
    if parsed.is_err() && !are_harmless(arguments) {
        return read_escaped(rt, alloc, arguments);
    }
    read_parsed(rt, alloc, &mut command, parsed, lists, parts)
}

/// Answers what the parser tells of wrong arguments once they are escaped, so that its text has no control character of theirs.
fn read_escaped<'a, R: AllocGlobal, A: Allocator + Copy>(
    rt: &R,
    alloc: A,
    arguments: &[String],
) -> Result<Asked<'a, A>, ArgumentsFault<A>>
    ensures list { IfOk result (λ asked. is_list asked ≡ false) }
    ensures part { IfOk result (λ asked. is_part asked ≡ false) }
    ensures names { IfOk result HasShortSchemas }
{
    let escaped = escaped_arguments(rt.alloc(), arguments)?;
    let mut command = all_arguments(rt.alloc())?;
    match command.try_get_matches_from_mut(escaped.as_slice()) {
        Ok(_) => Err(ArgumentsFault::Wrong(wrong_command(alloc, &mut command)?)),
        Err(error) => match read_error(alloc, &error)? {
            Told::Asked(text) => Ok(Asked::Text(text)),
            Told::Wrong(text) => Err(ArgumentsFault::Wrong(text)),
        },
    }
}

/// Whether the argument after the program's name is `list`, `show` or `report`.
fn asks_for_list(arguments: &[String]) -> bool
    ensures { result ≡ asks_for_list arguments.now }
{
    match arguments.get(1) {
        Some(name) => { name.as_str() == LIST || name.as_str() == SHOW || name.as_str() == REPORT }
        None => false,
    }
}

/// Whether the argument behind the program's name is `undo` or `redo`.
fn asks_for_part(arguments: &[String]) -> bool
    ensures { result ≡ asks_for_part arguments.now }
{
    match arguments.get(1) {
        Some(name) => name.as_str() == UNDO || name.as_str() == REDO,
        None => false,
    }
}

/// What the parser's answer asks for, which is a list, or a part of a log, only if one may be asked for.
fn read_parsed<'a, R: Files + Env + AllocGlobal, A: Allocator + Copy>(
    rt: &R,
    alloc: A,
    command: &mut Command<'a>,
    parsed: Result<ArgMatches<'a>, Error>,
    lists: bool,
    parts: bool,
) -> Result<Asked<'a, A>, ArgumentsFault<A>>
    ensures read { IsRead lists parts parsed.entry result }
    ensures list { IfOk result (λ asked. is_list asked ≡ true → lists ≡ true) }
    ensures part { IfOk result (λ asked. is_part asked ≡ true → parts ≡ true) }
    ensures names { IfOk result HasShortSchemas }
{
    match parsed {
        Ok(matches) => read_matches(rt, alloc, command, &matches, lists, parts),
        Err(error) => match read_error(alloc, &error)? {
            Told::Asked(text) => Ok(Asked::Text(text)),
            Told::Wrong(text) => Err(ArgumentsFault::Wrong(text)),
        },
    }
}

/// What is asked for by what the parser found: by the command that is among it, of which a list, or a part of a log, only if one may
/// be asked for.
fn read_matches<'a, R: Files + Env + AllocGlobal, A: Allocator + Copy>(
    rt: &R,
    alloc: A,
    command: &mut Command<'a>,
    matches: &ArgMatches<'a>,
    lists: bool,
    parts: bool,
) -> Result<Asked<'a, A>, ArgumentsFault<A>>
    ensures read { IsRead lists parts (Ok matches.now) result }
    ensures list { IfOk result (λ asked. is_list asked ≡ true → lists ≡ true) }
    ensures part { IfOk result (λ asked. is_part asked ≡ true → parts ≡ true) }
    ensures names { IfOk result HasShortSchemas }
{
    match matches.subcommand() {
        Some((name, found)) if name == PLAIN => {
            Ok(Asked::NewLog(read_task(found, Making::Plain)))
        }
        Some((name, found)) if name == SPLIT => {
            let size = read_size(alloc, command, found)?;
            Ok(Asked::NewLog(read_task(found, Making::Changes(as_log(size)))))
        }
        Some((name, found)) if name == SQL => Ok(Asked::Sql(read_sql(alloc, command, found)?)),
        Some((name, found)) if name == LIST && lists => {
            Ok(Asked::List(read_list(rt, alloc, command, found)?))
        }
        Some((name, found)) if name == SHOW && lists => {
            Ok(Asked::Show(read_show(rt, alloc, command, found)?))
        }
        Some((name, found)) if name == UNDO && parts => {
            Ok(Asked::Part(read_part(rt, alloc, command, found, Order::Backward)?))
        }
        Some((name, found)) if name == REDO && parts => {
            Ok(Asked::Part(read_part(rt, alloc, command, found, Order::Forward)?))
        }
        Some((name, found)) if name == REPORT && lists => {
            Ok(Asked::Report(read_report(rt, alloc, command, found)?))
        }
        _ => Err(ArgumentsFault::Wrong(wrong_command(alloc, command)?)),
    }
}

/// Changes as they are in a log, as a log of statements of at most so many bytes.
fn as_log(size: u32) -> Writing<'static>
    ensures { result ≡ as_log size }
{
    Writing {
        order: Order::Forward,
        limit: size as usize,
        sql: None,
    }
}

/// What is told where there is no command, or another one. The parser tells it by itself of most arguments.
const GIVE_A_COMMAND: &str = "give a command: list, show, report, undo, redo, plain, split or sql";

fn wrong_command<A: Allocator>(
    alloc: A,
    command: &mut Command<'_>,
) -> Result<String<A>, AllocError> {
    let error = command.error(ErrorKind::MissingSubcommand, GIVE_A_COMMAND)?;
    error.to_string(alloc)
}

/// How many bytes a statement may have.
pub(crate) fn read_size<'a, A: Allocator + Copy>(
    alloc: A,
    command: &mut Command<'a>,
    found: &ArgMatches<'a>,
) -> Result<u32, ArgumentsFault<A>>
    ensures size { IfOk result (IsSizeOf (first_value (found_of found.now) (codes "size"))) }
    ensures wrong { IfErr result (RefusesSize (first_value (found_of found.now) (codes "size"))) }
{
    let Some(text) = found.get_str(SIZE) else {
        return Ok(DEFAULT_SIZE);
    };
    match position_of(text) {
        Some(size) if size >= LEAST_SIZE => Ok(size),
        _ => {
            let told = wrong_number(alloc, command, SIZE, "BYTES", text, BYTES)?;
            Err(ArgumentsFault::Wrong(told))
        }
    }
}

fn read_task<'a>(found: &ArgMatches<'a>, making: Making<'a>) -> NewLogTask<'a, 'a>
    ensures task { IsNewLogTask (found_of found.now) result }
    ensures making { result.making ≡ making.entry }
{
    NewLogTask {
        // the parser has refused arguments without a LOG
        log: found.get_str(LOG).unwrap_or(""),
        result_file: found.get_str(RESULT_FILE),
        force: is_given(found, FORCE),
        making,
    }
}

/// Whether a flag is given.
pub(crate) fn is_given(found: &ArgMatches<'_>, name: &str) -> bool
    ensures { result ≡ is_given (found_of found.now) name.now }
{
    found.get_one::<bool>(name).unwrap_or(false)
}

/// What a number of bytes is, as it is told of a value that is none.
const BYTES: &str = "a number of bytes: decimal digits, 1024 to 4294967295";

/// The number that this option has, where it is there: a position.
pub(crate) fn read_number<'a, A: Allocator + Copy>(
    alloc: A,
    command: &mut Command<'a>,
    found: &ArgMatches<'a>,
    name: &str,
    value: &str,
    has_to_be: &str,
) -> Result<Option<u32>, ArgumentsFault<A>>
    ensures found { IfOk result (IsPositionOf (first_value (found_of found.now) name.now)) }
    ensures wrong { IfErr result (RefusesPosition (first_value (found_of found.now) name.now)) }
{
    let Some(text) = found.get_str(name) else {
        return Ok(None);
    };
    if let Some(number) = position_of(text) {
        return Ok(Some(number));
    }
    let told = wrong_number(alloc, command, name, value, text, has_to_be)?;
    Err(ArgumentsFault::Wrong(told))
}

/// What is told of a text that is no number that the option can have.
fn wrong_number<A: Allocator + Copy>(
    alloc: A,
    command: &mut Command<'_>,
    name: &str,
    value: &str,
    text: &str,
    has_to_be: &str,
) -> Result<String<A>, AllocError> {
    let option = format!(in alloc; "{name} <{value}>")?;
    wrong_value(alloc, command, option.as_str(), text, has_to_be)
}
