//! Files of scripts.

use crate::runs::Program;
use crate::stage::{Named, play};
use crate::wrong::Wrong;
use std::process::ExitCode;
use std::{env, fs};

/// Plays the scripts of the files that the arguments name; they can name the logs of both lists. Each script begins with a line
/// `## NAME`. The file and the name of each that does what it says go to standard output, and what is wrong with others to standard
/// error.
pub fn play_files<P: Program>(
    rt: &HostRuntime,
    program: &P,
    given: &[Named<'_>],
    logs: &[Named<'_>],
) -> ExitCode {
    match count_wrong(rt, program, given, logs) {
        Ok(0) => ExitCode::SUCCESS,
        Ok(wrong) => {
            let _ = eprintln!(rt; "scripts that are wrong: {wrong}");
            ExitCode::FAILURE
        }
        Err(wrong) => {
            let _ = eprintln!(rt; "{wrong:?}");
            ExitCode::FAILURE
        }
    }
}

/// Plays the scripts, and returns how many are wrong.
fn count_wrong<P: Program>(
    rt: &HostRuntime,
    program: &P,
    given: &[Named<'_>],
    logs: &[Named<'_>],
) -> Result<u64, Wrong> {
    let mut wrong = 0u64;
    for file in env::args(rt)?.skip(1) {
        let text = fs::read_to_string(rt, file.as_str())?;
        // what stands before the first name is a comment
        for script in text.as_str().split("\n## ").skip(1) {
            let (name, lines) = script.split_once('\n').unwrap_or((script, ""));
            match play(rt, program, given, logs, lines) {
                Ok(()) => println!(rt; "{file} {name}")?,
                Err(why) => {
                    eprintln!(rt; "{file} {name}: {why:?}")?;
                    wrong = wrong.saturating_add(1);
                }
            }
        }
    }
    Ok(wrong)
}
