//! Options, and what the parser of arguments answers.

ghost use Rattle.std.specs.Prelude.{◌≡◌, IsErr, IfOk};
ghost use Rattle.clap.specs.Words.{kind_of};
ghost use Rattle.console.specs.Told.{IsTold};

use clap::builder::ValueParser;
use clap::error::ErrorKind;
use clap::{Arg, ArgAction, Command, Error};
use std::alloc::{AllocError, Allocator, Global};

/// An option `--name` that takes no value.
fn flag<'a>(alloc: Global, name: &'a str) -> Arg<'a> {
    Arg::new(alloc, name).long(name).action(ArgAction::SetTrue)
}

/// An option `--name` that takes a value, whatever that begins with, as `mysqlbinlog` does.
fn option<'a>(alloc: Global, name: &'a str, value: &'a str) -> Arg<'a> {
    Arg::new(alloc, name)
        .long(name)
        .value_name(value)
        .allow_hyphen_values(true)
}

/// What an option takes, or that it is an argument without an option.
#[derive(Clone, Copy)]
pub enum Takes<'a> {
    /// Nothing: it is a flag.
    Nothing,
    /// A value, which the help calls so.
    Value(&'a str),
    /// A value that isn't empty.
    FilledValue(&'a str),
    /// One of these values.
    OneOf(&'a str, &'a [&'a str]),
    /// It is an argument that has to be given.
    Argument,
    /// It is one that has to be given, once or several times.
    Arguments,
}

/// An option of a command, or its argument.
#[derive(Clone, Copy)]
pub struct Described<'a> {
    /// The name behind `--`, or what the argument is called.
    pub name: &'a str,
    /// The letter behind `-`.
    pub short: Option<char>,
    pub takes: Takes<'a>,
    pub help: &'a str,
    /// Whether the option can be given several times.
    pub is_repeated: bool,
    /// The option that it can't be given with.
    pub excludes: Option<&'a str>,
}

/// A flag without a name, from which others are made.
pub const FLAG: Described<'static> = Described {
    name: "",
    short: None,
    takes: Takes::Nothing,
    help: "",
    is_repeated: false,
    excludes: None,
};

/// Adds options and arguments to a command, in this order.
pub fn add_arguments<'a>(
    alloc: Global,
    command: Command<'a>,
    all: &[Described<'a>],
) -> Result<Command<'a>, AllocError> {
    let mut command = command;
    for described in all {
        command = command.arg(argument_of(alloc, described)?)?;
    }
    Ok(command)
}

/// The option or argument that is described.
fn argument_of<'a>(alloc: Global, described: &Described<'a>) -> Result<Arg<'a>, AllocError> {
    let argument = form_of(alloc, described.name, described.takes).help(described.help);
    let argument = match described.short {
        Some(letter) => argument.short(letter),
        None => argument,
    };
    let argument = if described.is_repeated {
        argument.action(ArgAction::Append)
    } else {
        argument
    };
    match described.excludes {
        Some(other) => argument.conflicts_with(other),
        None => Ok(argument),
    }
}

/// An option or argument of this name.
fn form_of<'a>(alloc: Global, name: &'a str, takes: Takes<'a>) -> Arg<'a> {
    match takes {
        Takes::Nothing => flag(alloc, name),
        Takes::Value(value) => option(alloc, name, value),
        Takes::FilledValue(value) => option(alloc, name, value).value_parser(
            ValueParser::NonEmptyString,
        ),
        Takes::OneOf(value, names) => option(alloc, name, value).value_parser(ValueParser::Names(
            names,
        )),
        Takes::Argument => Arg::new(alloc, name).required(true),
        Takes::Arguments => Arg::new(alloc, name)
            .required(true)
            .num_args(1..)
            .action(ArgAction::Append),
    }
}

/// What the parser answers in place of matches.
#[derive(Drop)]
pub enum Told<A: Allocator> {
    /// The help or the version, which was asked for.
    Asked(String<A>),
    /// What is wrong with the arguments.
    Wrong(String<A>),
}

/// The text of the parser's answer. Fails where the parser had no memory, or the text has none.
pub fn read_error<A: Allocator>(alloc: A, error: &Error) -> Result<Told<A>, AllocError>
    ensures memory { kind_of error.now ≡ ErrorKind.OutOfMemory → IsErr result }
    ensures told { IfOk result (IsTold (kind_of error.now)) }
{
    if error.kind() == ErrorKind::OutOfMemory {
        return Err(AllocError);
    }
    let text = error.to_string(alloc)?;
    Ok(if error.use_stderr() {
        Told::Wrong(text)
    } else {
        Told::Asked(text)
    })
}
