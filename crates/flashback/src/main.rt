//! `flashback` undoes the changes of a MySQL binary log.
#![tactic(auto)]

mod arguments;
mod commands;
mod lines;
mod options;
#[cfg(test)]
mod tests;

use blog_flash::Watched;
use commands::command;
use console::seed_of_run;
use std::env;
use std::process::ExitCode;

fn main(rt: HostRuntime) -> ExitCode {
    let arguments = env::args(&rt).and_then(|arguments| Ok(arguments.collect(rt.alloc())?));
    let mut output = Watched::new(rt.stdout());
    let mut errors = Watched::new(rt.stderr());
    let seed = seed_of_run(&rt);
    command(&rt, rt.alloc(), seed, arguments, &mut output, &mut errors)
}
