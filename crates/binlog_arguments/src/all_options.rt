//! Every command that the program knows, with its options.

use crate::help::{
    ABOUT, AFTER_HELP, LIST_ABOUT, LIST_AFTER_HELP, LIST_USAGE, PLAIN_ABOUT, PLAIN_AFTER_HELP,
    PLAIN_USAGE, REDO_ABOUT, REDO_AFTER_HELP, REDO_USAGE, REPORT_ABOUT, REPORT_AFTER_HELP,
    REPORT_USAGE, SHOW_ABOUT, SHOW_AFTER_HELP, SHOW_USAGE, SPLIT_ABOUT, SPLIT_AFTER_HELP,
    SPLIT_USAGE, SQL_ABOUT, SQL_AFTER_HELP, SQL_USAGE, UNDO_ABOUT, UNDO_AFTER_HELP, UNDO_USAGE,
    USAGE,
};
use crate::options::{LIST, PLAIN, REDO, REPORT, SHOW, SPLIT, SQL, UNDO};
use crate::outputs::{
    LOGS, OF_REPORT, OF_SQL, OF_UNDO, ONE_LOG, ORDERS, RESULTS, ROWS, SHOWN, SIZES, WRITTEN,
};
use crate::selections::{LISTED, OF_SHOW, PARTS, UNITS, ZONES};
use clap::Command;
use console::{VERSION, add_arguments};
use std::alloc::{AllocError, Global};

/// Every command that the program knows, with its options.
pub fn all_arguments<'a>(alloc: Global) -> Result<Command<'a>, AllocError> {
    Command::new(alloc, "binlog")
        .version(VERSION)
        .about(ABOUT)
        .override_usage(USAGE)
        .after_help(AFTER_HELP)
        .subcommand_required(true)
        .subcommand(list_arguments(alloc)?)?
        .subcommand(show_arguments(alloc)?)?
        .subcommand(report_arguments(alloc)?)?
        .subcommand(undo_arguments(alloc)?)?
        .subcommand(redo_arguments(alloc)?)?
        .subcommand(plain_arguments(alloc)?)?
        .subcommand(split_arguments(alloc)?)?
        .subcommand(sql_arguments(alloc)?)
}

/// The command `list`, with its options.
fn list_arguments<'a>(alloc: Global) -> Result<Command<'a>, AllocError> {
    let command = Command::new(alloc, LIST)
        .about(LIST_ABOUT)
        .override_usage(LIST_USAGE)
        .after_help(LIST_AFTER_HELP);
    let command = add_arguments(alloc, command, &LISTED)?;
    let command = add_arguments(alloc, command, &UNITS)?;
    let command = add_arguments(alloc, command, &SHOWN)?;
    let command = add_arguments(alloc, command, &ZONES)?;
    add_arguments(alloc, command, &ORDERS)
}

/// The command `show`, with its options.
fn show_arguments<'a>(alloc: Global) -> Result<Command<'a>, AllocError> {
    let command = Command::new(alloc, SHOW)
        .about(SHOW_ABOUT)
        .override_usage(SHOW_USAGE)
        .after_help(SHOW_AFTER_HELP);
    let command = add_arguments(alloc, command, &OF_SHOW)?;
    let command = add_arguments(alloc, command, &UNITS)?;
    let command = add_arguments(alloc, command, &ZONES)?;
    add_arguments(alloc, command, &ROWS)
}

/// The command `report`, with its options.
fn report_arguments<'a>(alloc: Global) -> Result<Command<'a>, AllocError> {
    let command = Command::new(alloc, REPORT)
        .about(REPORT_ABOUT)
        .override_usage(REPORT_USAGE)
        .after_help(REPORT_AFTER_HELP);
    let command = add_arguments(alloc, command, &LISTED)?;
    let command = add_arguments(alloc, command, &UNITS)?;
    let command = add_arguments(alloc, command, &ZONES)?;
    let command = add_arguments(alloc, command, &OF_REPORT)?;
    let command = add_arguments(alloc, command, &RESULTS)?;
    add_arguments(alloc, command, &LOGS)
}

/// The command `undo`, with its options.
fn undo_arguments<'a>(alloc: Global) -> Result<Command<'a>, AllocError> {
    let command = Command::new(alloc, UNDO)
        .about(UNDO_ABOUT)
        .override_usage(UNDO_USAGE)
        .after_help(UNDO_AFTER_HELP);
    let command = add_arguments(alloc, command, &OF_UNDO)?;
    let command = add_arguments(alloc, command, &PARTS)?;
    let command = add_arguments(alloc, command, &UNITS)?;
    let command = add_arguments(alloc, command, &ZONES)?;
    let command = add_arguments(alloc, command, &WRITTEN)?;
    let command = add_arguments(alloc, command, &RESULTS)?;
    add_arguments(alloc, command, &LOGS)
}

/// The command `redo`, with its options.
fn redo_arguments<'a>(alloc: Global) -> Result<Command<'a>, AllocError> {
    let command = Command::new(alloc, REDO)
        .about(REDO_ABOUT)
        .override_usage(REDO_USAGE)
        .after_help(REDO_AFTER_HELP);
    let command = add_arguments(alloc, command, &PARTS)?;
    let command = add_arguments(alloc, command, &UNITS)?;
    let command = add_arguments(alloc, command, &ZONES)?;
    let command = add_arguments(alloc, command, &WRITTEN)?;
    let command = add_arguments(alloc, command, &RESULTS)?;
    add_arguments(alloc, command, &LOGS)
}

/// The command `plain`, with its options.
fn plain_arguments<'a>(alloc: Global) -> Result<Command<'a>, AllocError> {
    let command = Command::new(alloc, PLAIN)
        .about(PLAIN_ABOUT)
        .override_usage(PLAIN_USAGE)
        .after_help(PLAIN_AFTER_HELP);
    let command = add_arguments(alloc, command, &RESULTS)?;
    add_arguments(alloc, command, &ONE_LOG)
}

/// The command `split`, with its options.
fn split_arguments<'a>(alloc: Global) -> Result<Command<'a>, AllocError> {
    let command = Command::new(alloc, SPLIT)
        .about(SPLIT_ABOUT)
        .override_usage(SPLIT_USAGE)
        .after_help(SPLIT_AFTER_HELP);
    let command = add_arguments(alloc, command, &SIZES)?;
    let command = add_arguments(alloc, command, &RESULTS)?;
    add_arguments(alloc, command, &ONE_LOG)
}

/// The command `sql`, with its options.
fn sql_arguments<'a>(alloc: Global) -> Result<Command<'a>, AllocError> {
    let command = Command::new(alloc, SQL)
        .about(SQL_ABOUT)
        .override_usage(SQL_USAGE)
        .after_help(SQL_AFTER_HELP);
    let command = add_arguments(alloc, command, &OF_SQL)?;
    let command = add_arguments(alloc, command, &RESULTS)?;
    add_arguments(alloc, command, &ONE_LOG)
}
