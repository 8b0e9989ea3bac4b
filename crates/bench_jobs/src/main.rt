//! Does the jobs that users wait for, on logs that it makes, and prints a digest of all that they write and return.
#![tactic(auto)]

mod calls;
mod digest;
mod events;
mod failure;
mod jobs;
mod random;
mod rows;
mod shapes;
mod statements;
mod sums;
mod tables;
mod words;

use failure::Failure;
use jobs::work;
use std::env;
use std::process::ExitCode;
use std::rt::Runtime;
use words::read_words;

fn main(rt: HostRuntime) -> ExitCode {
    match run(&rt) {
        Ok(()) => ExitCode::SUCCESS,
        Err(failure) => {
            let _ = eprintln!(rt; "bench_jobs: {failure}");
            ExitCode::FAILURE
        }
    }
}

/// Does what the arguments ask for.
fn run<R: Runtime + AllocGlobal>(rt: &R) -> Result<(), Failure> {
    let words: Vec<String> = env::args(rt)?.collect(rt.alloc())?;
    let task = read_words(words.as_slice()).ok_or(Failure::Words)?;
    let written = work(rt.alloc(), &task)?;
    println!(rt; "{} bytes, digest {:016x}", written.len, written.digest)?;
    Ok(())
}
