//! A part of a server's log: the changes that a selection by places has.

ghost use Rattle.std.specs.Prelude.{◌≡◌, IfErr, IfOk, false, nat_lt};
ghost use Rattle.blog_source.specs.code.SourceView.{end_of, fault_of, log_of};
ghost use Rattle.blog_text.specs.code.Counted.{counts_in};
ghost use Rattle.blog_trans.specs.Selection.{selection_of};
ghost use Rattle.blog_text.specs.Tables.{rows_in};
ghost use Rattle.blog_trans.specs.code.IndexView.{index_bytes, index_selection, table_counted};
ghost use Rattle.undo_run.specs.Parts.{IsSound, Refuses, RefusesStart, begins_at, damage_before, has_rows, has_start, is_at_end, is_behind, is_empty, selection_in};

use crate::fault::PartFault;
use blog_event::{Fault, event_at};
use blog_flash::selected;
use blog_source::Source;
use blog_sum::SumFault;
use blog_trans::{Index, Selection, TableCount};
use std::alloc::Allocator;

/// Whether the reading of a source ended at the stop of a part or behind it.
fn is_behind<A: Allocator>(source: &Source<A>, part: &Selection<'_>) -> bool
    ensures { result ≡ is_behind (selection_of part.now) (end_of source.now) }
{
    match part.stop {
        Some(stop) => stop <= source.end(),
        None => false,
    }
}

/// Why the reading of a source ended, if it ended in front of the stop of a part. `looks` says whether the log was read to its end.
pub(crate) fn damage_before<A: Allocator>(
    source: &Source<A>,
    part: &Selection<'_>,
    looks: bool,
) -> Option<SumFault>
    ensures { result ≡ damage_before looks (selection_of part.now) (end_of source.now) (fault_of source.now) }
{
    if looks && is_behind(source, part) {
        None
    } else {
        source.fault()
    }
}

/// Returns the groups of a part of the log of a source. `looks` says whether the log was read to its end, and not to the part's stop.
pub(crate) fn select_part<'l, A: Allocator + Copy>(
    alloc: A,
    source: &'l Source<A>,
    part: &Selection<'l>,
    looks: bool,
    seed: u64,
) -> Result<Index<'l, 'l, A>, PartFault<A>>
    ensures sound { IfOk result (λ index. IsSound (selection_of part.now) (log_of source.now) (end_of source.now)
        (damage_before looks (selection_of part.now) (end_of source.now) (fault_of source.now))) }
    ensures bytes { IfOk result (λ index. index_bytes index ≡ log_of source.now) }
    ensures selection { IfOk result (λ index. index_selection index ≡ selection_in (selection_of part.now) (log_of source.now)) }
    ensures refused { IfErr result (Refuses (selection_of part.now) (log_of source.now) (end_of source.now)
        (damage_before looks (selection_of part.now) (end_of source.now) (fault_of source.now))) }
{
    let damage = damage_before(source, part, looks);
    select_by(alloc, source, part, damage, seed)
}

/// Returns the groups of a part of the log of a source. `damage` is why its reading ended in front of the part's stop.
fn select_by<'l, A: Allocator + Copy>(
    alloc: A,
    source: &'l Source<A>,
    part: &Selection<'l>,
    damage: Option<SumFault>,
    seed: u64,
) -> Result<Index<'l, 'l, A>, PartFault<A>>
    ensures sound { IfOk result (λ index. IsSound (selection_of part.now) (log_of source.now) (end_of source.now) damage) }
    ensures bytes { IfOk result (λ index. index_bytes index ≡ log_of source.now) }
    ensures selection { IfOk result (λ index. index_selection index ≡ selection_in (selection_of part.now) (log_of source.now)) }
    ensures refused { IfErr result (Refuses (selection_of part.now) (log_of source.now) (end_of source.now) damage) }
{
    if !has_start(source, part) {
        return Err(no_start(source, part, damage));
    }
    let inside = inside_of(source, part);
    match selected(alloc, source.bytes(), &inside, seed) {
        Ok(index) => match damage {
            Some(damage) => Err(PartFault::Sums(damage)),
            None if has_rows(&index) => Ok(index),
            None => Err(PartFault::NothingSelected),
        },
        Err(fault) => match damage {
            Some(damage) if is_at_end(source, &fault) => Err(PartFault::Sums(damage)),
            _ => Err(PartFault::Log(source.at_place(&fault))),
        },
    }
}

/// The part, by positions in what is handed out of a source.
pub(crate) fn inside_of<'s, A: Allocator>(source: &Source<A>, part: &Selection<'s>) -> Selection<'s>
    ensures { selection_of result ≡ selection_in (selection_of part.now) (log_of source.now) }
{
    Selection {
        start: source.position(part.start),
        stop: part.stop.map(|stop| source.position(stop)),
        ..*part
    }
}

/// Whether an event begins at the start of a part, or the part is empty.
pub(crate) fn has_start<A: Allocator>(source: &Source<A>, part: &Selection<'_>) -> bool
    ensures { result ≡ has_start (selection_of part.now) (log_of source.now) (end_of source.now) }
{
    is_empty(part) || begins_at(source, part.start)
}

/// Whether nothing lies between the start and the stop of a part.
fn is_empty(part: &Selection<'_>) -> bool
    ensures { result ≡ is_empty (selection_of part.now) }
{
    match part.stop {
        Some(stop) => stop <= part.start,
        None => false,
    }
}

/// Whether an event begins at a place, or all that was read ends there. A place up to 4 is that of the first event.
pub(crate) fn begins_at<A: Allocator>(source: &Source<A>, place: u32) -> bool
    ensures { result ≡ begins_at (log_of source.now) (end_of source.now) place }
{
    if place <= 4 {
        return true;
    }
    let first = match event_at(source.bytes(), 4) {
        Some(format) => 4 + format.header.size,
        None => 4,
    };
    first <= place && source.place(source.position(place)) == place
}

/// Why a part without a start isn't written: what was read may end in front of it.
pub(crate) fn no_start<A: Allocator>(
    source: &Source<A>,
    part: &Selection<'_>,
    damage: Option<SumFault>,
) -> PartFault<A>
    requires { has_start (selection_of part.now) (log_of source.now) (end_of source.now) ≡ false }
    ensures start { RefusesStart (selection_of part.now) (log_of source.now) (end_of source.now) damage result }
    ensures part { Refuses (selection_of part.now) (log_of source.now) (end_of source.now) damage result }
{
    match damage {
        Some(damage) if source.end() <= part.start => PartFault::Sums(damage),
        _ => PartFault::NoEventAt(part.start),
    }
}

/// Whether a fault isn't one of an event, but stands where the log of a source ends.
pub(crate) fn is_at_end<A: Allocator>(source: &Source<A>, fault: &Fault) -> bool
    ensures { result ≡ is_at_end (log_of source.now) fault.now }
{
    match fault.at() {
        Some(pos) => pos as usize >= source.bytes().len(),
        None => false,
    }
}

/// Whether rows of a table are changed.
pub(crate) fn has_some(count: &TableCount<'_>) -> bool
    ensures { result ≡ nat_lt 0 (rows_in (table_counted count.now)) }
{
    count.inserts > 0 || count.updates > 0 || count.deletes > 0
}

/// Whether an index has rows.
pub(crate) fn has_rows<A: Allocator>(index: &Index<'_, '_, A>) -> bool
    ensures { result ≡ has_rows (counts_in index.now) }
{
    for n in 0..index.tables() {
        if has_some(&index.table(n)) {
            return true;
        }
    }
    false
}
