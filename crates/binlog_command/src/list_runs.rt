//! Runs of `list`.

ghost use Rattle.std.specs.Prelude.{◌≡◌, ◌⊎◌, ◌||◌, IfErr};
ghost use Rattle.blog_device.specs.Watched.{device_of, has_failed};
ghost use Rattle.binlog_command.specs.Runs.{ListsGiven, MayFollowList, OfList};
ghost use Rattle.list_run.specs.Listed.{has_failed_write};
ghost use Rattle.binlog_command.specs.Status.{status_of};

use crate::commands::Failure;
use crate::log_file::open_logs;
use crate::reasons::tell_reason;
use binlog_arguments::ListTask;
use blog_device::Watched;
use blog_list::Style;
use blog_reasons::Reasons;
use list_run::{GivenLog, list_logs};
use std::alloc::{Allocator, Global};
use std::io::{Read, Write};
use std::rt::Files;

/// Writes the list of the logs of a task to standard output. Where nothing is listed, a line on standard error says why.
pub(crate) fn run_list<'a, R: Files + AllocGlobal, A: Allocator + Copy, O: Write, E: Write>(
    rt: &R,
    alloc: A,
    seed: u64,
    task: &ListTask<'a, A>,
    output: &mut Watched<O>,
    errors: &mut Watched<E>,
) -> Result<(), Failure<'a, A>>
    ensures status { IfErr result (λ f. status_of f ≡ 1) }
    ensures begun { IfErr result (λ f. (output.new ≡ output.old) ⊎ MayFollowList f) }
{
    let logs = open_logs(rt, alloc, task.logs.as_slice())?;
    list_given(rt.alloc(), alloc, seed, logs, task, output, errors)
}

/// Writes the list of logs to standard output, each of which is read when its turn comes. One that ends too early has its list
/// written all the same.
fn list_given<'a, A: Allocator + Copy, D: Read + Drop, O: Write, E: Write>(
    global: Global,
    alloc: A,
    seed: u64,
    logs: Vec<GivenLog<'a, D>, A>,
    task: &ListTask<'a, A>,
    output: &mut Watched<O>,
    errors: &mut Watched<E>,
) -> Result<(), Failure<'a, A>>
    ensures status { IfErr result (λ f. status_of f ≡ 1) }
    ensures begun { IfErr result (λ f. (output.new ≡ output.old) ⊎ MayFollowList f) }
    ensures writes { OfList (ListsGiven D.remaining task.now logs.entry.items (O.contents (device_of output.old)) (O.contents (device_of output.new))) result }
    ensures mark { OfList (λ listed. has_failed output.new ≡ (has_failed output.old || has_failed_write listed)) result }
{
    let several = logs.len() > 1;
    let style = Style {
        form: task.form,
        gtids: task.show_gtids,
        sorting: task.sorting,
        zone: task.zone.time_zone(),
        seed,
    };
    let wanted = task.wanted();
    let mut reasons = Reasons::new(alloc, &wanted).ok();
    match list_logs(
        global,
        alloc,
        logs,
        task.reading,
        &wanted,
        &style,
        &mut reasons,
        output,
    ) {
        Ok(()) => {
            if let Some(reasons) = &reasons {
                tell_reason(alloc, &reasons.reason(), "listed", style.zone, errors);
            }
            Ok(())
        }
        Err((n, fault)) if several => Err(Failure::List(Some(task.path(n)), fault)),
        Err((_, fault)) => Err(Failure::List(None, fault)),
    }
}
