//! Leaving rows that were changed since as they are: what undoes the other changes of chosen units.

ghost use Rattle.std.specs.Prelude.{◌≡◌, ◌++◌, Bool, IfOk, List, filter, length, map, not};
ghost use Rattle.blog_later.specs.Prints.{print_of};
ghost use Rattle.blog_event.specs.code.LogView.{log_bytes};
ghost use Rattle.blog_later.specs.code.LeavingView.{HasLeft};
ghost use Rattle.blog_source.specs.code.SourceView.{end_of, fault_of, log_of};
ghost use Rattle.blog_trans.specs.Selection.{all, selection_of};
ghost use Rattle.blog_trans.specs.code.IndexView.{index_bytes, index_selection};
ghost use Rattle.blog_left_out.specs.LeftOut.{left_out_text};
ghost use Rattle.blog_untouched.specs.Recorded.{IsRecorded};
ghost use Rattle.blog_untouched.specs.Rows.{left_out};
ghost use Rattle.list_run.specs.Listed.{NamedLog};
ghost use Rattle.undo_run.specs.Leaving.{are_some, mixed};
ghost use Rattle.undo_run.specs.Reports.{left_text, left_words};
ghost use Rattle.undo_run.specs.Taken.{Taken};
ghost use Rattle.undo_run.specs.Units.{chosen_taken, chosen_units, kept_log, units_of_part};
ghost use Rattle.undo_run.specs.code.Leaves.{Leaves, LeavesOut, LeavesRows, RecordsAfter};
ghost use Rattle.undo_run.specs.code.NamesView.{names_told};
ghost use Rattle.undo_run.specs.code.Steps.{chosen_by, chosen_changes};

use crate::fault::PartFault;
use crate::later::look_into_all;
use crate::lines::Lines;
use crate::log_names::Names;
use crate::request::Among;
use crate::seen::look_between;
use crate::since::Since;
use crate::tables::tables_named;
use crate::tracked::{Tracked, track_among};
use blog_choice::{ChosenNames, TableChoice};
use blog_device::RunFault;
use blog_event::{Fault, Log};
use blog_later::Leaving;
use blog_left_out::{LeaveOutFault, LeftOut, leave_out};
use blog_source::Source;
use blog_text::{put_number, put_text};
use blog_trans::{Index, Selection};
use blog_untouched::{ChangeRecord, Kept, kept_changes};
use jiff::tz::TimeZone;
use list_run::GivenLog;
use std::alloc::{AllocError, Allocator};
use std::io::Read;

/// What was seen of what came after chosen units, and the rows of these and of what came after.
#[derive(Drop)]
pub(crate) struct Recorded<'n, A: Allocator> {
    pub(crate) since: Since<'n, A>,
    pub(crate) tracked: Tracked<A>,
}

/// What is left of chosen units, without the changes that were touched since.
#[derive(Drop)]
pub(crate) struct Rest<A: Allocator> {
    /// A log with the other changes.
    pub(crate) log: LeftOut<A>,
    /// How many rows are left as they are, and by which rows events they were changed since.
    pub(crate) told: Vec<u8, A>,
}

/// What was seen of what came after chosen units.
#[derive(Drop)]
pub(crate) struct Seen<'n, A: Allocator> {
    pub(crate) since: Since<'n, A>,
    /// What is left of them, if something touches them.
    pub(crate) rest: Option<Rest<A>>,
}

/// Looks at what came after the first chosen unit of the log of a source, and records the changes of the chosen units, and the rows that others
/// take. `follows` says whether these rows are followed through the changes of others. `lines` say where.
pub(crate) fn look_and_record<'n, A: Allocator + Copy, L: Read + Drop>(
    alloc: A,
    source: &Source<A>,
    logs: &Names<'n, A>,
    log: &Log<'_>,
    inside: &Selection<'_>,
    among: &Among<'_, '_>,
    chosen: &[bool],
    index: &Index<'_, '_, A>,
    leaving: Leaving<A>,
    later: Vec<GivenLog<'n, L>, A>,
    follows: bool,
    seed: u64,
    lines: &mut Lines<'_, A>,
) -> Result<Recorded<'n, A>, PartFault<A>>
    requires bytes { log_bytes log.now ≡ log_of source.now }
    requires kept { index_bytes index.now ≡ kept_log (selection_of inside.now) (log_of source.now) (chosen_units (chosen_by among.now (selection_of inside.now) (log_of source.now)) (selection_of inside.now) (log_of source.now)) }
    requires selection { index_selection index.now ≡ all }
    requires chosen { chosen.now ≡ map (chosen_by among.now (selection_of inside.now) (log_of source.now)) (units_of_part (selection_of inside.now) (log_of source.now)) }
    requires left { HasLeft (chosen_changes (selection_of inside.now) (log_of source.now) (chosen_units (chosen_by among.now (selection_of inside.now) (log_of source.now)) (selection_of inside.now) (log_of source.now))) leaving }
    ensures { RecordsAfter L.remaining later.entry.items (chosen_taken (names_told logs.now) (chosen_by among.now (selection_of inside.now) (log_of source.now)) (selection_of inside.now) (log_of source.now) (end_of source.now) (fault_of source.now)) follows result }
{
    let tables = tables_named(alloc, index)?;
    let choice = TableChoice {
        database: None,
        tables: &tables,
        excluded: &[],
    };
    let names = ChosenNames::new(alloc, &choice)?;
    let left = leaving.sorted();
    let rest = look_between(
        alloc,
        lines,
        logs,
        source,
        log,
        inside.start,
        chosen,
        &left,
        &names,
    )?;
    let mut tracked = track_among(alloc, follows, &left, chosen, inside, log)?;
    match look_into_all(
        alloc,
        later,
        seed,
        rest,
        lines,
        &mut tracked,
        true,
        &left,
        u32::MAX,
        &names,
    ) {
        Ok(since) => Ok(Recorded { since, tracked }),
        Err(fault) => Err(fault),
    }
}

/// Looks at what came after the first chosen unit of the log of a source, as `look_after_units`. If it touches some changes of the chosen units, these
/// are left out. Fails if it touches all, or if something may concern the changed tables, and can't be looked into.
pub(crate) fn look_and_leave<'n, A: Allocator + Copy, L: Read + Drop>(
    alloc: A,
    source: &Source<A>,
    logs: &Names<'n, A>,
    log: &Log<'_>,
    inside: &Selection<'_>,
    among: &Among<'_, '_>,
    chosen: &[bool],
    index: &Index<'_, '_, A>,
    leaving: Leaving<A>,
    later: Vec<GivenLog<'n, L>, A>,
    seed: u64,
    zone: TimeZone<'_>,
) -> Result<Seen<'n, A>, PartFault<A>>
    requires bytes { log_bytes log.now ≡ log_of source.now }
    requires kept { index_bytes index.now ≡ kept_log (selection_of inside.now) (log_of source.now) (chosen_units (chosen_by among.now (selection_of inside.now) (log_of source.now)) (selection_of inside.now) (log_of source.now)) }
    requires selection { index_selection index.now ≡ all }
    requires chosen { chosen.now ≡ map (chosen_by among.now (selection_of inside.now) (log_of source.now)) (units_of_part (selection_of inside.now) (log_of source.now)) }
    requires left { HasLeft (chosen_changes (selection_of inside.now) (log_of source.now) (chosen_units (chosen_by among.now (selection_of inside.now) (log_of source.now)) (selection_of inside.now) (log_of source.now))) leaving }
    ensures { Leaves L.remaining later.entry.items (chosen_taken (names_told logs.now) (chosen_by among.now (selection_of inside.now) (log_of source.now)) (selection_of inside.now) (log_of source.now) (end_of source.now) (fault_of source.now)) result }
{
    let mut lines = Lines::none(alloc, zone);
    let recorded = match look_and_record(
        alloc, source, logs, log, inside, among, chosen, index, leaving, later, false, seed,
        &mut lines,
    ) {
        Ok(recorded) => recorded,
        Err(fault) => return Err(fault),
    };
    let Recorded { since, tracked } = recorded;
    if since.unknown > 0 || since.is_damaged {
        return Err(PartFault::UnknownSince(lines.text(alloc)?));
    }
    match rest_of(alloc, index, &tracked.record, seed, &lines, since.touched) {
        Ok(rest) => Ok(Seen { since, rest }),
        Err(fault) => Err(fault),
    }
}

/// Whether some marks are true.
pub(crate) fn are_some(marks: &[bool]) -> bool
    ensures { result ≡ are_some marks.now }
{
    marks.iter().any(|mark| *mark)
}

/// How many changes aren't kept.
pub(crate) fn rows_left<A: Allocator>(kept: &Kept<A>) -> usize
    requires { map (λ t. t.row) kept.now.touched.items ≡ left_out 0 kept.now.marks.items }
    ensures { result ≡ length (filter not kept.now.marks.items) }
{
    kept.touched.len()
}

/// The groups of an index without the rows whose mark is false.
pub(crate) fn leave_rows<A: Allocator + Copy>(
    alloc: A,
    index: &Index<'_, '_, A>,
    marks: &[bool],
) -> Result<LeftOut<A>, PartFault<A>>
    ensures { LeavesRows (left_out_text marks.now (index_bytes index.now) (index_selection index.now)) result }
{
    match leave_out(alloc, index, marks) {
        Ok(log) => Ok(log),
        Err(LeaveOutFault::OutOfMemory) => {
            Err(PartFault::Run(RunFault::Log(Fault::OutOfMemory)))
        }
        Err(LeaveOutFault::TooLong) => Err(PartFault::TooLong),
    }
}

/// What is left of the changes of an index that are recorded, without those that others touch; nothing if none is touched.
fn rest_of<A: Allocator + Copy>(
    alloc: A,
    index: &Index<'_, '_, A>,
    record: &ChangeRecord<A>,
    seed: u64,
    lines: &Lines<'_, A>,
    touched: u64,
) -> Result<Option<Rest<A>>, PartFault<A>>
    ensures { (t : Taken) → (logs : List NamedLog) → index_bytes index.now ≡ t.log → index_selection index.now ≡ all → IsRecorded print_of (mixed t logs) record.now.rows.items record.now.taken.items
        → LeavesOut t logs touched result }
{
    let kept = kept_changes(alloc, seed, &record.rows, &record.taken)?;
    if !are_some(&kept.marks) {
        return Err(PartFault::ChangedSince(touched, lines.text(alloc)?));
    }
    let left = rows_left(&kept);
    if left == 0 {
        return Ok(None);
    }
    let told = left_text(alloc, left as u64, lines)?;
    match leave_rows(alloc, index, &kept.marks) {
        Ok(log) => Ok(Some(Rest { log, told })),
        Err(fault) => Err(fault),
    }
}

/// What follows a number of rows.
fn left_words(rows: u64) -> &'static [u8]
    ensures { result.now ≡ left_words rows }
{
    if rows == 1 {
        b" row as it is, which was changed since:\n"
    } else {
        b" rows as they are, which were changed since:\n"
    }
}

/// How many rows are left as they are, and by which rows events they were changed since.
fn left_text<A: Allocator + Copy>(
    alloc: A,
    rows: u64,
    lines: &Lines<'_, A>,
) -> Result<Vec<u8, A>, AllocError>
    ensures { IfOk result (λ text. (more : List _) × (text.items ≡ left_text rows ++ more)) }
{
    let mut out = Vec::new(alloc);
    put_text(&mut out, b"leaves ")?;
    put_number(&mut out, rows)?;
    put_text(&mut out, left_words(rows))?;
    put_text(&mut out, &lines.text(alloc)?)?;
    Ok(out)
}
