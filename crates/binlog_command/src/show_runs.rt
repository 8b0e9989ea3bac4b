//! Runs of `show`.

ghost use Rattle.std.specs.Prelude.{◌≡◌, ◌⊎◌, IfErr};
ghost use Rattle.binlog_command.specs.Runs.{MayFollowList};
ghost use Rattle.binlog_command.specs.Status.{status_of};

use crate::commands::Failure;
use crate::log_file::open_logs;
use crate::reasons::tell_reason;
use binlog_arguments::ShowTask;
use blog_device::Watched;
use blog_list::Form;
use blog_reasons::Reasons;
use blog_show::{RowForm, RowStyle};
use console::put_line;
use list_run::GivenLog;
use show_run::show_logs;
use std::alloc::Allocator;
use std::io::{Read, Write};
use std::rt::Files;

/// What is reported where no unit has an event at a position that is asked for.
const NO_UNIT_AT: &str =
    "nothing is shown: no transaction that is asked for has an event at such a position: see binlog list";

/// Writes the rows of the logs of a task to standard output. Where nothing is shown, a line on standard error says why.
pub(crate) fn run_show<'a, R: Files, A: Allocator + Copy, O: Write, E: Write>(
    rt: &R,
    alloc: A,
    seed: u64,
    task: &ShowTask<'a, A>,
    output: &mut Watched<O>,
    errors: &mut Watched<E>,
) -> Result<(), Failure<'a, A>>
    ensures status { IfErr result (λ f. status_of f ≡ 1) }
    ensures begun { IfErr result (λ f. (output.new ≡ output.old) ⊎ MayFollowList f) }
{
    let logs = open_logs(rt, alloc, task.units.logs.as_slice())?;
    show_given(alloc, seed, logs, task, output, errors)
}

/// Writes the rows of logs to standard output, each of which is read when its turn comes. Those of one that ends too early are
/// written all the same.
fn show_given<'a, A: Allocator + Copy, D: Read + Drop, O: Write, E: Write>(
    alloc: A,
    seed: u64,
    logs: Vec<GivenLog<'a, D>, A>,
    task: &ShowTask<'a, A>,
    output: &mut Watched<O>,
    errors: &mut Watched<E>,
) -> Result<(), Failure<'a, A>>
    ensures status { IfErr result (λ f. status_of f ≡ 1) }
    ensures begun { IfErr result (λ f. (output.new ≡ output.old) ⊎ MayFollowList f) }
{
    let several = logs.len() > 1;
    let style = RowStyle {
        zone: task.units.zone.time_zone(),
        form: form_of(task),
        all_columns: task.all_columns,
        width: task.width as usize,
    };
    let wanted = task.units.wanted();
    let mut reasons = Reasons::new(alloc, &wanted).ok();
    match show_logs(
        alloc,
        logs,
        task.units.reading,
        &wanted,
        &task.at,
        seed,
        &style,
        &mut reasons,
        output,
    ) {
        Ok(units) => {
            if units == 0 {
                tell_nothing(alloc, task, &reasons, errors);
            }
            Ok(())
        }
        Err((n, fault)) if several || n > 0 => Err(Failure::List(Some(task.units.path(n)), fault)),
        Err((_, fault)) => Err(Failure::List(None, fault)),
    }
}

/// The form in which a task shows rows. In JSON each log has its own name.
fn form_of<A: Allocator>(task: &ShowTask<'_, A>) -> RowForm<'static> {
    if task.as_csv {
        return RowForm::Csv;
    }
    match task.units.form {
        Form::Text => RowForm::Lines,
        Form::Json => RowForm::Json { log: b"" },
    }
}

/// Prints why nothing is shown. What can't be printed is dropped.
fn tell_nothing<A: Allocator + Copy, E: Write>(
    alloc: A,
    task: &ShowTask<'_, A>,
    reasons: &Option<Reasons<'_, A>>,
    errors: &mut Watched<E>,
) {
    if !task.at.is_empty() {
        let _ = put_line(errors, "binlog", &NO_UNIT_AT);
        return;
    }
    if let Some(reasons) = reasons {
        tell_reason(
            alloc,
            &reasons.reason(),
            "shown",
            task.units.zone.time_zone(),
            errors,
        );
    }
}
