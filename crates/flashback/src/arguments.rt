//! Which arguments mean what.

ghost use Rattle.std.specs.Prelude.{◌≡◌, Err, IfErr, IfOk};
ghost use Rattle.clap.specs.Words.{first_value, found_of, kind_of};
ghost use Rattle.console.specs.Positions.{IsPositionOf};
ghost use Rattle.flashback.specs.Request.{IsAsked, IsRead, RefusesPosition, RefusesRun, asked_mode, is_given};
ghost use Rattle.flashback.specs.declared.arguments.ArgumentsFault.TheVariants.{OutOfMemory};

use crate::options::{
    DATABASE, FLASHBACK, FORWARD, LOG, RESULT_FILE, SQL, START, STOP, SUMMARY, TABLE, all_arguments,
};
use blog_flash::{Mode, Selection};
use clap::error::ErrorKind;
use clap::{ArgMatches, Command, Error};
use console::{POSITION, Told, are_harmless, escaped_arguments, position_of, wrong_value};
use std::alloc::{AllocError, Allocator, Global};

/// What the arguments ask for.
#[derive(Drop)]
pub enum Asked<'a, A: Allocator> {
    /// The text of the help, or of the version.
    Help(String<A>),
    /// A run over a log.
    Run(Task<'a>),
}

/// A run over a log.
#[derive(Clone, Copy, Debug)]
pub struct Task<'a> {
    /// What is to be made of the log.
    pub mode: Mode,
    /// Which of its changes are meant.
    pub selection: Selection<'a>,
    /// The path of the log.
    pub log: &'a str,
    /// The path of the file for what is made of it; none where that goes to standard output.
    pub result_file: Option<&'a str>,
}

/// Why the arguments choose no mode.
#[derive(Clone, Copy, Debug)]
pub enum ModeFault {
    /// None of the options for a mode is there, or several are.
    NotOneMode,
    /// A summary is asked for as pseudo-SQL.
    SqlOfSummary,
}

/// Why the arguments ask for nothing.
#[derive(Drop)]
pub enum ArgumentsFault<A: Allocator> {
    /// The arguments are wrong, as this text tells.
    Wrong(String<A>),
    /// They choose no mode.
    Mode(ModeFault),
    /// An argument isn't UTF-8.
    NotText,
    /// Memory was refused.
    OutOfMemory,
}

impl<A: Allocator> From<ModeFault> for ArgumentsFault<A> {
    ghost use Rattle.flashback.specs.declared.arguments.ArgumentsFault.TheVariants.{Mode};

    ghost from_gives = { λ of_mode fault. fault ≡ Mode of_mode };

    fn from(fault: ModeFault) -> ArgumentsFault<A> {
        ArgumentsFault::Mode(fault)
    }
}

impl<A: Allocator> From<AllocError> for ArgumentsFault<A> {
    ghost from_gives = { λ _ fault. fault ≡ OutOfMemory };

    fn from(_error: AllocError) -> ArgumentsFault<A> {
        ArgumentsFault::OutOfMemory
    }
}

/// Answers what the arguments ask for, of which the first is the program's name. The parser takes its
/// memory from `global`.
pub fn read_arguments<'a, A: Allocator + Copy>(
    global: Global,
    alloc: A,
    arguments: &'a [String],
) -> Result<Asked<'a, A>, ArgumentsFault<A>> {
    let mut command = all_arguments(global)?;
    let parsed = command.try_get_matches_from_mut(arguments);
    if parsed.is_err() && !are_harmless(arguments) {
        return read_escaped(global, alloc, arguments);
    }
    read_parsed(alloc, &mut command, parsed)
}

/// Answers what the parser tells of wrong arguments once they are escaped, so that its text has no control character of theirs.
fn read_escaped<'a, A: Allocator + Copy>(
    global: Global,
    alloc: A,
    arguments: &[String],
) -> Result<Asked<'a, A>, ArgumentsFault<A>> {
    let escaped = escaped_arguments(global, arguments)?;
    let mut command = all_arguments(global)?;
    match command.try_get_matches_from_mut(escaped.as_slice()) {
        Ok(_) => Err(ArgumentsFault::Mode(ModeFault::NotOneMode)),
        Err(error) => read_error(alloc, &error),
    }
}

/// What the parser's answer asks for.
fn read_parsed<'a, A: Allocator + Copy>(
    alloc: A,
    command: &mut Command<'a>,
    parsed: Result<ArgMatches<'a>, Error>,
) -> Result<Asked<'a, A>, ArgumentsFault<A>>
    ensures read { IsRead parsed.entry result }
{
    match parsed {
        Ok(matches) => Ok(Asked::Run(read_task(alloc, command, &matches)?)),
        Err(error) => read_error(alloc, &error),
    }
}

/// The mode that the arguments choose, where they choose exactly one, and one that can be pseudo-SQL
/// where that is asked for.
fn only_mode(matches: &ArgMatches<'_>) -> Result<Mode, ModeFault>
    ensures { result ≡ asked_mode (found_of matches.now) }
{
    let flashback = has_flag(matches, FLASHBACK);
    let forward = has_flag(matches, FORWARD);
    let summary = has_flag(matches, SUMMARY);
    match (flashback, forward, summary, has_flag(matches, SQL)) {
        (true, false, false, false) => Ok(Mode::Flashback),
        (true, false, false, true) => Ok(Mode::FlashbackSql),
        (false, true, false, false) => Ok(Mode::Forward),
        (false, true, false, true) => Ok(Mode::ForwardSql),
        (false, false, true, false) => Ok(Mode::Summary),
        (false, false, true, true) => Err(ModeFault::SqlOfSummary),
        _ => Err(ModeFault::NotOneMode),
    }
}

/// Whether this flag is among the arguments.
fn has_flag(matches: &ArgMatches<'_>, flag: &str) -> bool
    ensures { result ≡ is_given (found_of matches.now) flag.now }
{
    matches.get_one::<bool>(flag).unwrap_or(false)
}

fn read_task<'a, A: Allocator + Copy>(
    alloc: A,
    command: &mut Command<'a>,
    matches: &ArgMatches<'a>,
) -> Result<Task<'a>, ArgumentsFault<A>>
    ensures asked { IfOk result (IsAsked (found_of matches.now)) }
    ensures refused { IfErr result (RefusesRun (found_of matches.now)) }
{
    let all = Selection::all();
    let selection = Selection {
        start: read_position(alloc, command, matches, START)?.unwrap_or(all.start),
        stop: read_position(alloc, command, matches, STOP)?,
        database: matches.get_str(DATABASE).map(str::as_bytes),
        table: matches.get_str(TABLE).map(str::as_bytes),
    };
    Ok(Task {
        mode: only_mode(matches)?,
        selection,
        // the parser has refused arguments without a LOG
        log: matches.get_str(LOG).unwrap_or(""),
        result_file: matches.get_str(RESULT_FILE),
    })
}

/// The position that this option has, where it is there. A wrong one is told as the parser would.
fn read_position<'a, A: Allocator + Copy>(
    alloc: A,
    command: &mut Command<'a>,
    matches: &ArgMatches<'a>,
    name: &str,
) -> Result<Option<u32>, ArgumentsFault<A>>
    ensures found { IfOk result (IsPositionOf (first_value (found_of matches.now) name.now)) }
    ensures wrong { IfErr result (RefusesPosition (first_value (found_of matches.now) name.now)) }
{
    let Some(value) = matches.get_str(name) else {
        return Ok(None);
    };
    if let Some(position) = position_of(value) {
        return Ok(Some(position));
    }
    let option = format!(in alloc; "{name} <POS>")?;
    let text = wrong_value(alloc, command, option.as_str(), value, POSITION)?;
    Err(ArgumentsFault::Wrong(text))
}

/// What the parser answers in place of matches: the help that was asked for, or what is wrong.
fn read_error<'a, A: Allocator>(alloc: A, error: &Error) -> Result<Asked<'a, A>, ArgumentsFault<A>>
    ensures memory { kind_of error.now ≡ ErrorKind.OutOfMemory → result ≡ Err OutOfMemory }
    ensures read { IsRead (Err error.now) result }
{
    match console::read_error(alloc, error)? {
        Told::Asked(text) => Ok(Asked::Help(text)),
        Told::Wrong(text) => Err(ArgumentsFault::Wrong(text)),
    }
}

#[cfg(test)]
mod tests;
