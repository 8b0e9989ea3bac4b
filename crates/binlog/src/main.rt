//! `binlog` prepares MySQL binary logs for `flashback`, lists what can be undone of them, and prints them as SQL.
#![tactic(auto)]

use binlog_command::{Process, command};
use blog_device::Watched;
use console::seed_of_run;
use std::io::IsTerminal;
use std::process::ExitCode;
use std::time::{SystemTime, UNIX_EPOCH};
use std::{env, process};

/// The time in seconds since 1970 in UTC; 0 if the clock can't be read or is set before that.
fn seconds_since_1970(rt: &HostRuntime) -> u32 {
    let Ok(now) = SystemTime::now(rt) else {
        return 0;
    };
    match now.duration_since(UNIX_EPOCH) {
        Ok(since) => u32::try_from(since.as_secs()).unwrap_or(u32::MAX),
        Err(_) => 0,
    }
}

fn main(rt: HostRuntime) -> ExitCode {
    let arguments = env::args(&rt).and_then(|arguments| Ok(arguments.collect(rt.alloc())?));
    let process = Process {
        id: process::id(rt.process()),
        began: seconds_since_1970(&rt),
        writes_to_terminal: rt.stdout().is_terminal(),
        seed: seed_of_run(&rt),
    };
    let mut output = Watched::new(rt.stdout());
    let mut errors = Watched::new(rt.stderr());
    command(
        &rt,
        rt.alloc(),
        process,
        arguments,
        &mut output,
        &mut errors,
    )
}
