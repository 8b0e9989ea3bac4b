//! Writing chosen units whose rows are merged.

ghost use Rattle.std.specs.Prelude.{◌≡◌, ◌||◌, ◌++◌, IfOk, OnErr, false, map, option_map};
ghost use Rattle.blog_device.specs.Watched.{device_of, has_failed};
ghost use Rattle.blog_event.specs.code.LogView.{log_bytes};
ghost use Rattle.blog_later.specs.code.LeavingView.{HasLeft};
ghost use Rattle.blog_merged.specs.code.MergedView.{bytes_merged};
ghost use Rattle.blog_run.specs.Writing.{HasShortWriting};
ghost use Rattle.blog_source.specs.code.SourceView.{end_of, fault_of, log_of};
ghost use Rattle.blog_trans.specs.Selection.{all, selection_of};
ghost use Rattle.blog_trans.specs.code.IndexView.{index_bytes, index_selection};
ghost use Rattle.undo_run.specs.Units.{chosen_taken, chosen_units, kept_log, units_of_part};
ghost use Rattle.undo_run.specs.Writes.{is_failed_write};
ghost use Rattle.undo_run.specs.code.Merges.{WritesMerged, merging_told};
ghost use Rattle.undo_run.specs.code.NamesView.{names_told};
ghost use Rattle.undo_run.specs.code.SinceView.{since_seen};
ghost use Rattle.undo_run.specs.code.Steps.{WritesGroups, chosen_by, chosen_changes};

use crate::fault::PartFault;
use crate::log_names::Names;
use crate::merged::{Merging, SeenToMerge, look_and_merge};
use crate::reports::report_of_many;
use crate::request::Among;
use crate::since::Since;
use crate::written_part::{write_index, write_told};
use blog_device::{RunFault, Watched};
use blog_event::{Fault, Log};
use blog_later::Leaving;
use blog_run::Writing;
use blog_source::Source;
use blog_text::put_text;
use blog_trans::{Index, Selection};
use jiff::tz::TimeZone;
use list_run::GivenLog;
use std::alloc::{AllocError, Allocator};
use std::io::{Read, Write};

/// Writes those changes of chosen units that nothing touched since, and what the other rows would be.
pub(crate) fn write_merged<'n, A: Allocator + Copy, L: Read + Drop, W: Write>(
    alloc: A,
    source: &Source<A>,
    logs: &Names<'n, A>,
    log: &Log<'_>,
    inside: &Selection<'_>,
    among: &Among<'_, '_>,
    chosen: &[bool],
    index: &Index<'_, '_, A>,
    leaving: Leaving<A>,
    later: Vec<GivenLog<'n, L>, A>,
    seed: u64,
    zone: TimeZone<'_>,
    writing: &Writing<'_>,
    writer: &mut Watched<W>,
) -> Result<Vec<u8, A>, PartFault<A>>
    requires short { HasShortWriting writing.now }
    requires bytes { log_bytes log.now ≡ log_of source.now }
    requires kept { index_bytes index.now ≡ kept_log (selection_of inside.now) (log_of source.now) (chosen_units (chosen_by among.now (selection_of inside.now) (log_of source.now)) (selection_of inside.now) (log_of source.now)) }
    requires selection { index_selection index.now ≡ all }
    requires chosen { chosen.now ≡ map (chosen_by among.now (selection_of inside.now) (log_of source.now)) (units_of_part (selection_of inside.now) (log_of source.now)) }
    requires left { HasLeft (chosen_changes (selection_of inside.now) (log_of source.now) (chosen_units (chosen_by among.now (selection_of inside.now) (log_of source.now)) (selection_of inside.now) (log_of source.now))) leaving }
    ensures writes { WritesMerged L.remaining later.entry.items writing.now (names_told logs.now) (chosen_taken (names_told logs.now) (chosen_by among.now (selection_of inside.now) (log_of source.now)) (selection_of inside.now) (log_of source.now) (end_of source.now) (fault_of source.now))
        (W.contents (device_of writer.old)) (W.contents (device_of writer.new)) result }
    ensures untouched { OnErr result (has_failed writer.new ≡ false → writer.new ≡ writer.old) }
    ensures mark { has_failed writer.new ≡ (has_failed writer.old || is_failed_write result) }
{
    let seen = match look_and_merge(
        alloc, source, logs, log, inside, among, chosen, index, leaving, later, seed, zone,
    ) {
        Ok(seen) => seen,
        Err(fault) => return Err(fault),
    };
    let SeenToMerge { since, merging } = seen;
    let since = Some(since);
    match &merging {
        None => write_index(alloc, logs, index, &since, writing, writer),
        Some(merging) => {
            write_merging(alloc, logs, index, merging, seed, &since, writing, writer)
        }
    }
}

/// Writes what undoes changes of an index and updates other rows, and returns the report of that.
fn write_merging<'n, A: Allocator + Copy, W: Write>(
    alloc: A,
    logs: &Names<'n, A>,
    chosen: &Index<'_, '_, A>,
    merging: &Merging<A>,
    seed: u64,
    since: &Option<Since<'n, A>>,
    writing: &Writing<'_>,
    writer: &mut Watched<W>,
) -> Result<Vec<u8, A>, PartFault<A>>
    requires { HasShortWriting writing.now }
    ensures writes { WritesGroups writing.now (merging_told writing.now (names_told logs.now) chosen.now (option_map since_seen since.now) (bytes_merged merging.now.log) ++ merging.now.told.items)
        (bytes_merged merging.now.log) all (W.contents (device_of writer.old)) (W.contents (device_of writer.new)) result }
    ensures untouched { OnErr result (has_failed writer.new ≡ false → writer.new ≡ writer.old) }
    ensures mark { has_failed writer.new ≡ (has_failed writer.old || is_failed_write result) }
{
    // the log is accepted, so only memory can be refused
    let Ok(index) = merging.log.index(alloc, seed) else {
        return Err(PartFault::Run(RunFault::Log(Fault::OutOfMemory)));
    };
    let told = report_merged(alloc, logs, writing, chosen, &index, since, &merging.told)?;
    write_told(alloc, &index, told, writing, writer)
}

/// The report of the groups of an index, told as the transactions of another, and of what was seen of what came later, and what is told of rows that
/// were changed since.
fn report_merged<'n, A: Allocator + Copy>(
    alloc: A,
    logs: &Names<'n, A>,
    writing: &Writing<'_>,
    chosen: &Index<'_, '_, A>,
    index: &Index<'_, '_, A>,
    since: &Option<Since<'n, A>>,
    merged: &[u8],
) -> Result<Vec<u8, A>, AllocError>
    requires { index_selection index.now ≡ all }
    ensures { IfOk result (λ told. told.items ≡ merging_told writing.now (names_told logs.now) chosen.now (option_map since_seen since.now) (index_bytes index.now) ++ merged.now) }
{
    let many = chosen.transactions();
    let mut told = match report_of_many(alloc, logs, writing.order, many, index, since) {
        Ok(told) => told,
        Err(fault) => return Err(fault),
    };
    match put_text(&mut told, merged) {
        Ok(()) => Ok(told),
        Err(fault) => Err(fault),
    }
}
