//! Merging rows that were changed since: the changes of chosen units are taken out of them.

ghost use Rattle.std.specs.Prelude.{◌≡◌, ◌||◌, ◌++◌, Bool, IfOk, List, OnOk, false, map, nat_lt};
ghost use Rattle.blog_event.specs.File.{AreBytes};
ghost use Rattle.blog_event.specs.code.LogView.{log_bytes};
ghost use Rattle.blog_later.specs.Among.{from_first, marked_in};
ghost use Rattle.blog_later.specs.Later.{later_units};
ghost use Rattle.blog_later.specs.Prints.{print_of};
ghost use Rattle.blog_later.specs.code.LeavingView.{HasLeft};
ghost use Rattle.blog_differences.specs.Outside.{outside_by};
ghost use Rattle.blog_followed.specs.code.FollowedView.{kept_told};
ghost use Rattle.blog_merge.specs.Merge.{pairs_of};
ghost use Rattle.blog_pairs.specs.Steps.{pairs_with};
ghost use Rattle.blog_pairs.specs.code.TableView.{pairs_told};
ghost use Rattle.blog_source.specs.code.SourceView.{end_of, fault_of, log_of};
ghost use Rattle.blog_trans.specs.Acceptance.{IsAccepted};
ghost use Rattle.blog_trans.specs.Selection.{all, selection_of};
ghost use Rattle.blog_trans.specs.code.IndexView.{index_bytes, index_selection};
ghost use Rattle.blog_units.specs.Units.{Facts};
ghost use Rattle.blog_untouched.specs.Recorded.{IsRecorded};
ghost use Rattle.blog_untouched.specs.Steps.{unit_step};
ghost use Rattle.list_run.specs.Listed.{NamedLog};
ghost use Rattle.undo_run.specs.Leaving.{are_all, are_some, marks_undone, mixed};
ghost use Rattle.undo_run.specs.Merging.{pairs_left};
ghost use Rattle.undo_run.specs.Reports.{merged_text, merged_words, staying_text, staying_words};
ghost use Rattle.undo_run.specs.Taken.{Taken};
ghost use Rattle.undo_run.specs.Units.{chosen_taken, chosen_units, kept_log, units_of_part};
ghost use Rattle.undo_run.specs.code.Leaves.{KeepsPairs};
ghost use Rattle.undo_run.specs.code.Merges.{IsUnmerged, MergesAfter, MergesOut};
ghost use Rattle.undo_run.specs.code.NamesView.{names_told};
ghost use Rattle.undo_run.specs.code.Steps.{chosen_by, chosen_changes};

use crate::fault::PartFault;
use crate::lines::Lines;
use crate::log_names::Names;
use crate::request::Among;
use crate::since::Since;
use crate::tracked::Tracked;
use crate::untouched::{Recorded, are_some, leave_rows, look_and_record, rows_left};
use blog_device::RunFault;
use blog_differences::pairs_among;
use blog_event::{Fault, Log};
use blog_followed::Followed;
use blog_later::Leaving;
use blog_merged::{MergeFault, MergedLog, merged_log, rows_merged, rows_staying};
use blog_pairs::{PairFault, PairTable};
use blog_source::Source;
use blog_text::{put_number, put_text};
use blog_trans::{Index, Selection};
use blog_untouched::kept_changes;
use jiff::tz::TimeZone;
use list_run::GivenLog;
use std::alloc::{AllocError, Allocator};
use std::io::Read;

/// What takes changes out of rows that were changed since.
#[derive(Drop)]
pub(crate) struct Merging<A: Allocator> {
    /// A log whose undo undoes the other changes, and updates these rows to what they would be.
    pub(crate) log: MergedLog<A>,
    /// How many rows are updated and how many stay, and by which rows events they were changed since.
    pub(crate) told: Vec<u8, A>,
}

/// What was seen of what came after chosen units.
#[derive(Drop)]
pub(crate) struct SeenToMerge<'n, A: Allocator> {
    pub(crate) since: Since<'n, A>,
    /// What undoes them, if something touches them.
    pub(crate) merging: Option<Merging<A>>,
}

/// Looks at what came after the first chosen unit of the log of a source, as `look_after_units`. If it touches some changes of the chosen units, these
/// are taken out of the rows as they are now. Fails if nothing is undone and no row updated, or if something may concern the changed tables, and can't
/// be looked into.
pub(crate) fn look_and_merge<'n, A: Allocator + Copy, L: Read + Drop>(
    alloc: A,
    source: &Source<A>,
    logs: &Names<'n, A>,
    log: &Log<'_>,
    inside: &Selection<'_>,
    among: &Among<'_, '_>,
    chosen: &[bool],
    index: &Index<'_, '_, A>,
    leaving: Leaving<A>,
    later: Vec<GivenLog<'n, L>, A>,
    seed: u64,
    zone: TimeZone<'_>,
) -> Result<SeenToMerge<'n, A>, PartFault<A>>
    requires bytes { log_bytes log.now ≡ log_of source.now }
    requires kept { index_bytes index.now ≡ kept_log (selection_of inside.now) (log_of source.now) (chosen_units (chosen_by among.now (selection_of inside.now) (log_of source.now)) (selection_of inside.now) (log_of source.now)) }
    requires selection { index_selection index.now ≡ all }
    requires chosen { chosen.now ≡ map (chosen_by among.now (selection_of inside.now) (log_of source.now)) (units_of_part (selection_of inside.now) (log_of source.now)) }
    requires left { HasLeft (chosen_changes (selection_of inside.now) (log_of source.now) (chosen_units (chosen_by among.now (selection_of inside.now) (log_of source.now)) (selection_of inside.now) (log_of source.now))) leaving }
    ensures { MergesAfter L.remaining later.entry.items (chosen_taken (names_told logs.now) (chosen_by among.now (selection_of inside.now) (log_of source.now)) (selection_of inside.now) (log_of source.now) (end_of source.now) (fault_of source.now)) result }
{
    let mut lines = Lines::none(alloc, zone);
    let recorded = match look_and_record(
        alloc, source, logs, log, inside, among, chosen, index, leaving, later, true, seed,
        &mut lines,
    ) {
        Ok(recorded) => recorded,
        Err(fault) => return Err(fault),
    };
    let Recorded { since, tracked } = recorded;
    if since.unknown > 0 || since.is_damaged {
        return Err(PartFault::UnknownSince(lines.text(alloc)?));
    }
    match merge_touched(
        alloc,
        log,
        inside,
        chosen,
        index,
        &tracked,
        seed,
        &lines,
        since.touched,
    ) {
        Ok(merging) => Ok(SeenToMerge { since, merging }),
        Err(fault) => Err(fault),
    }
}

/// Merges the rows of the changes of an index that are recorded and that others touch; nothing if none is touched.
fn merge_touched<A: Allocator + Copy>(
    alloc: A,
    log: &Log<'_>,
    inside: &Selection<'_>,
    chosen: &[bool],
    index: &Index<'_, '_, A>,
    tracked: &Tracked<A>,
    seed: u64,
    lines: &Lines<'_, A>,
    touched: u64,
) -> Result<Option<Merging<A>>, PartFault<A>>
    ensures { (t : Taken) → (logs : List NamedLog) → (p : Facts → Bool) → index_bytes index.now ≡ t.log → index_selection index.now ≡ all → chosen.now ≡ map p (later_units (log_bytes log.now) inside.now.start)
        → t.steps ≡ map (unit_step p (selection_of inside.now) (log_bytes log.now)) (from_first p (later_units (log_bytes log.now) inside.now.start))
        → IsRecorded print_of (mixed t logs) tracked.now.record.rows.items tracked.now.record.taken.items → KeepsPairs t logs tracked.now.followed → MergesOut t logs touched result }
{
    let record = &tracked.record;
    let kept = kept_changes(alloc, seed, &record.rows, &record.taken)?;
    let left = rows_left(&kept);
    if left == 0 {
        return Ok(None);
    }
    match pairs_with_later(alloc, log, inside, chosen, &kept.marks, &tracked.followed) {
        Ok(pairs) => merge_pairs(alloc, index, &kept.marks, &pairs, seed, lines, touched),
        Err(fault) => Err(unpaired(alloc, lines, fault)),
    }
}

/// The pairs of rows as the units of a log and later logs left them, and as they would be. The changes of chosen units whose mark is true are undone by
/// themselves, and `followed` has those changes of later logs that make a difference.
fn pairs_with_later<A: Allocator + Copy>(
    alloc: A,
    log: &Log<'_>,
    inside: &Selection<'_>,
    chosen: &[bool],
    marks: &[bool],
    followed: &Followed<A>,
) -> Result<PairTable<A>, PairFault>
    ensures { (p : Facts → Bool) → chosen.now ≡ map p (later_units (log_bytes log.now) inside.now.start) → IfOk result (λ table. pairs_told table ≡ pairs_with false (kept_told followed.now)
        (pairs_of (outside_by marks.now (marked_in (map (unit_step p (selection_of inside.now) (log_bytes log.now)) (from_first p (later_units (log_bytes log.now) inside.now.start))))))) }
{
    let mut pairs = match pairs_among(alloc, log, inside.start, chosen, inside, marks) {
        Ok(pairs) => pairs,
        Err(fault) => return Err(fault),
    };
    match followed.add_to(&mut pairs) {
        Ok(()) => Ok(pairs),
        Err(fault) => Err(fault),
    }
}

/// Writes the log whose undo undoes those changes of an index whose mark is true, and updates the rows of pairs.
fn merge_pairs<A: Allocator + Copy>(
    alloc: A,
    index: &Index<'_, '_, A>,
    marks: &[bool],
    pairs: &PairTable<A>,
    seed: u64,
    lines: &Lines<'_, A>,
    touched: u64,
) -> Result<Option<Merging<A>>, PartFault<A>>
    ensures { (t : Taken) → (logs : List NamedLog) → index_bytes index.now ≡ t.log → index_selection index.now ≡ all → marks.now ≡ marks_undone t logs → are_all (marks_undone t logs) ≡ false
        → pairs_told pairs.now ≡ pairs_left t logs → MergesOut t logs touched result }
{
    let rows = rows_merged(pairs);
    if !are_any(marks, rows) {
        return Err(PartFault::ChangedSince(touched, lines.text(alloc)?));
    }
    let told = merged_text(alloc, rows as u64, rows_staying(pairs) as u64, lines)?;
    is_sound(index.log().bytes(), index);
    let rest = match leave_rows(alloc, index, marks) {
        Ok(rest) => rest,
        Err(fault) => return Err(fault),
    };
    // without the rows that are left out the log is accepted, so only memory can be refused
    let Ok(undone) = rest.index(alloc, seed) else {
        return Err(PartFault::Run(RunFault::Log(Fault::OutOfMemory)));
    };
    match merged_log(alloc, pairs, index, &undone, seed) {
        Ok(log) => Ok(Some(Merging { log, told })),
        Err(MergeFault::OutOfMemory) => Err(PartFault::Run(RunFault::Log(Fault::OutOfMemory))),
        Err(MergeFault::TooLong) => Err(PartFault::TooLong),
        Err(MergeFault::Unfit) => Err(unmerged(
            alloc,
            lines,
            b"the updates of these rows can't be written\n",
        )),
    }
}

/// Whether some marks are true, or there are rows.
fn are_any(marks: &[bool], rows: usize) -> bool
    ensures { result ≡ (are_some marks.now || nat_lt 0 rows) }
{
    are_some(marks) || rows > 0
}

/// The changes of an index are those of an accepted log. The call does nothing.
fn is_sound<A: Allocator>(bytes: &[u8], index: &Index<'_, '_, A>)
    requires { bytes.now ≡ index_bytes index.now }
    ensures bytes { AreBytes (index_bytes index.now) }
    ensures accepted { IsAccepted (index_bytes index.now) (index_selection index.now) }
{}

/// Why rows aren't merged of which there are no pairs.
fn unpaired<A: Allocator + Copy>(alloc: A, lines: &Lines<'_, A>, fault: PairFault) -> PartFault<A>
    ensures { IsUnmerged result }
{
    match fault {
        PairFault::OutOfMemory => PartFault::Run(RunFault::Log(Fault::OutOfMemory)),
        PairFault::OtherLayout => unmerged(
            alloc,
            lines,
            b"a table of these rows had other columns when they were changed\n",
        ),
    }
}

/// Why rows aren't merged, by what is told of them and by a reason.
fn unmerged<A: Allocator + Copy>(alloc: A, lines: &Lines<'_, A>, why: &[u8]) -> PartFault<A>
    ensures { IsUnmerged result }
{
    match unmerged_text(alloc, lines, why) {
        Ok(text) => PartFault::Unmerged(text),
        Err(_) => PartFault::Run(RunFault::Log(Fault::OutOfMemory)),
    }
}

/// By which rows events rows were changed, and a reason.
fn unmerged_text<A: Allocator + Copy>(
    alloc: A,
    lines: &Lines<'_, A>,
    why: &[u8],
) -> Result<Vec<u8, A>, AllocError> {
    let mut out = lines.text(alloc)?;
    put_text(&mut out, why)?;
    Ok(out)
}

/// What follows a number of rows that stay.
fn staying_words(rows: u64) -> &'static [u8]
    ensures { result.now ≡ staying_words rows }
{
    if rows == 1 {
        b" row as it is, which the mistake inserted and others changed since\n"
    } else {
        b" rows as they are, which the mistake inserted and others changed since\n"
    }
}

/// Appends how many rows stay, if any do.
fn put_staying<A: Allocator>(out: &mut Vec<u8, A>, rows: u64) -> Result<(), AllocError>
    ensures { OnOk result (out.new.items ≡ out.old.items ++ staying_text rows) }
{
    if rows == 0 {
        return Ok(());
    }
    put_text(out, b"leaves ")?;
    put_number(out, rows)?;
    put_text(out, staying_words(rows))
}

/// What follows a number of rows that are merged.
fn merged_words(rows: u64) -> &'static [u8]
    ensures { result.now ≡ merged_words rows }
{
    if rows == 1 {
        b" row that was changed since, and keeps these changes:\n"
    } else {
        b" rows that were changed since, and keep these changes:\n"
    }
}

/// How many rows are merged and how many stay, and by which rows events they were changed since.
fn merged_text<A: Allocator + Copy>(
    alloc: A,
    merged: u64,
    staying: u64,
    lines: &Lines<'_, A>,
) -> Result<Vec<u8, A>, AllocError>
    ensures { IfOk result (λ text. (more : List _) × (text.items ≡ merged_text merged staying ++ more)) }
{
    let mut out = Vec::new(alloc);
    put_staying(&mut out, staying)?;
    put_text(&mut out, b"merges ")?;
    put_number(&mut out, merged)?;
    put_text(&mut out, merged_words(merged))?;
    put_text(&mut out, &lines.text(alloc)?)?;
    Ok(out)
}
