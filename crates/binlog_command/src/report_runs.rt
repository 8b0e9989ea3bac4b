//! Runs of `report`.

ghost use Rattle.std.specs.Prelude.{◌≡◌, ◌⊎◌, IfErr};
ghost use Rattle.binlog_command.specs.Runs.{MayFollowList};
ghost use Rattle.binlog_command.specs.Status.{status_of};

use crate::commands::{Failure, Process};
use crate::log_file::open_logs;
use crate::reasons::tell_reason;
use binlog_arguments::ReportTask;
use blog_device::{Watched, put};
use blog_reasons::Reasons;
use blog_sum::SumFault;
use list_run::{GivenLog, ListFault};
use result_file::{ResultFile, Wanted};
use show_run::{Reported, report_logs};
use std::alloc::{AllocError, Allocator};
use std::io::{Read, Write};
use std::rt::Files;

/// Writes a report of the logs of a task to standard output or to the result file. Where it is of no unit, a line on standard error says why.
pub(crate) fn run_report<'a, R: Files, A: Allocator + Copy, O: Write, E: Write>(
    rt: &R,
    alloc: A,
    process: Process,
    task: &ReportTask<'a, A>,
    output: &mut Watched<O>,
    errors: &mut Watched<E>,
) -> Result<(), Failure<'a, A>>
    ensures status { IfErr result (λ f. status_of f ≡ 1) }
    ensures begun { IfErr result (λ f. (output.new ≡ output.old) ⊎ MayFollowList f) }
{
    let paths = task.units.logs.as_slice();
    let logs = open_logs(rt, alloc, paths)?;
    let several = logs.len() > 1;
    let end = match task.result_file {
        None => report_to(alloc, process.seed, logs, task, output, errors)?,
        Some(path) => {
            let wanted = Wanted {
                path,
                log: task.units.path(0),
                replace: task.force,
                process: process.id,
            };
            let mut file = ResultFile::create(rt, alloc, &wanted, paths)?;
            match report_to(alloc, process.seed, logs, task, &mut file.writer, errors) {
                Ok(end) => {
                    file.finish(rt)?;
                    end
                }
                Err(failure) => {
                    return match file.discard(rt) {
                        Some(failed) => Err(Failure::ResultFile(failed)),
                        None => Err(failure),
                    };
                }
            }
        }
    };
    match end {
        None => Ok(()),
        Some((n, fault)) => {
            let path = if several {
                Some(task.units.path(n))
            } else {
                None
            };
            Err(Failure::List(path, ListFault::EndsEarly(fault)))
        }
    }
}

/// Writes a report of logs to a device, each of which is read when its turn comes. Returns which of them ends early first, by its number, and why.
fn report_to<'a, A: Allocator + Copy, D: Read + Drop, W: Write, E: Write>(
    alloc: A,
    seed: u64,
    logs: Vec<GivenLog<'a, D>, A>,
    task: &ReportTask<'a, A>,
    writer: &mut Watched<W>,
    errors: &mut Watched<E>,
) -> Result<Option<(usize, SumFault)>, Failure<'a, A>>
    ensures status { IfErr result (λ f. status_of f ≡ 1) }
    ensures begun { IfErr result (λ f. (writer.new ≡ writer.old) ⊎ MayFollowList f) }
{
    let several = logs.len() > 1;
    let wanted = task.units.wanted();
    let mut reasons = Reasons::new(alloc, &wanted).ok();
    let reported = match report_logs(
        alloc,
        logs,
        task.units.reading,
        &wanted,
        task.interval,
        seed,
        &mut reasons,
    ) {
        Ok(reported) => reported,
        Err((n, fault)) if several => return Err(Failure::List(Some(task.units.path(n)), fault)),
        Err((_, fault)) => return Err(Failure::List(None, fault)),
    };
    let text = report_text(alloc, &reported, task)?;
    if let Err(fault) = put(writer, &text) {
        return Err(Failure::List(None, ListFault::Run(fault)));
    }
    if reported.units == 0 {
        if let Some(reasons) = &reasons {
            tell_reason(
                alloc,
                &reasons.reason(),
                "reported",
                task.units.zone.time_zone(),
                errors,
            );
        }
    }
    Ok(reported.end)
}

/// The text of a report: a page, or lines.
fn report_text<A: Allocator + Copy>(
    alloc: A,
    reported: &Reported<A>,
    task: &ReportTask<'_, A>,
) -> Result<Vec<u8, A>, AllocError> {
    let mut text = Vec::new(alloc);
    let zone = task.units.zone.time_zone();
    if task.as_text {
        reported
            .report
            .put_lines(&mut text, &task.units.logs, zone)?;
    } else {
        reported.report.put_html(&mut text, &task.units.logs, zone)?;
    }
    Ok(text)
}
