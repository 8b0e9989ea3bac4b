//! Measures the layers that `flashback` stands on, one by one, on a log in memory.
#![tactic(auto)]

mod event_layer;
mod failure;
mod index_layer;
mod row_layer;
mod stopwatch;
mod sum_layer;
mod words;

use blog_event::Log;
use event_layer::measure_events;
use failure::Failure;
use index_layer::measure_index;
use row_layer::measure_rows;
use std::process::ExitCode;
use std::rt::Runtime;
use std::time::CpuClock;
use std::{env, fs};
use sum_layer::measure_sums;
use words::read_words;

fn main(rt: HostRuntime) -> ExitCode {
    match measure(&rt) {
        Ok(()) => ExitCode::SUCCESS,
        Err(failure) => {
            let _ = eprintln!(rt; "bench_layers: {failure}");
            ExitCode::FAILURE
        }
    }
}

/// Does what the arguments ask for.
fn measure<R: Runtime + CpuClock + AllocGlobal>(rt: &R) -> Result<(), Failure> {
    let words: Vec<String> = env::args(rt)?.collect(rt.alloc())?;
    let task = read_words(words.as_slice()).ok_or(Failure::Words)?;
    let bytes = fs::read(rt, task.log)?;
    let log = Log::open(bytes.as_slice())?;
    if task.layer.has_events() {
        measure_events(rt, &log, task.times)?;
    }
    if task.layer.has_rows() {
        measure_rows(rt, &log, task.times)?;
    }
    if task.layer.has_index() {
        measure_index(rt, &log, task.times)?;
    }
    if task.layer.has_sums() {
        measure_sums(rt, bytes.as_slice(), task.times)?;
    }
    Ok(())
}
