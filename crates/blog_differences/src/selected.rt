//! The selected changes of a chosen unit, of which marked ones make no difference.

ghost use Rattle.std.specs.Prelude.{◌≡◌, IfOk, OnOk, drop, length, true};
ghost use Rattle.std.specs.List.{list_all};
ghost use Rattle.blog_event.specs.code.LogView.{log_bytes};
ghost use Rattle.blog_later.specs.code.EventChanges.{event_changes};
ghost use Rattle.blog_pairs.specs.Steps.{pairs_with, unmarked};
ghost use Rattle.blog_pairs.specs.code.EventRows.{event_rows};
ghost use Rattle.blog_pairs.specs.code.TableView.{pairs_told};
ghost use Rattle.blog_trans.specs.Changes.{changes};
ghost use Rattle.blog_trans.specs.Selection.{selection_of};
ghost use Rattle.blog_trans.specs.code.GroupEventsView.{IsByMap, IsWhole, event_seen};
ghost use Rattle.blog_trans.specs.code.IndexView.{index_bytes, index_selection};
ghost use Rattle.blog_trans.specs.declared.group_events.GroupEvent.TheVariants as GroupEvent;
ghost use Rattle.blog_units.specs.Units.{is_behind, range_of_unit};
ghost use Rattle.blog_units.specs.code.UnitsView.{facts_told};

use blog_pairs::{PairFault, PairTable};
use blog_row::{Order, RowsEvent};
use blog_trans::{GroupEvent, GroupRows, Index, Selection};
use blog_units::UnitFacts;
use std::alloc::Allocator;

/// Returns how many rows an event changes.
fn row_count(rows: &RowsEvent<'_>) -> usize
    ensures { result ≡ length (event_rows rows.now) }
{
    rows.rows().count()
}

/// Returns whether all marks are true.
fn are_all_marked(marks: &[bool]) -> bool
    ensures { result ≡ list_all (λ is_marked. is_marked) marks.now }
{
    marks.iter().all(|is_marked| *is_marked)
}

/// Adds the selected changes of those rows of an event that aren't marked. The first marks are those of its rows; returns the others. If all its rows are
/// marked, the event's table isn't looked at. Fails as `add_selected_rows` does, and with `OutOfMemory` if there are fewer marks than rows.
fn add_rows<'m, A: Allocator + Copy>(
    table: &mut PairTable<A>,
    group: &GroupRows<'_>,
    marks: &'m [bool],
) -> Result<&'m [bool], PairFault>
    requires { IsByMap group.now }
    ensures pairs { OnOk result (pairs_told table.new ≡ pairs_with true (unmarked marks.now (event_changes (event_seen (GroupEvent.Rows group.now)))) (pairs_told table.old)) }
    ensures others { IfOk result (λ others. others.now ≡ drop (length (event_changes (event_seen (GroupEvent.Rows group.now)))) marks.now) }
{
    let count = row_count(&group.rows);
    if marks.len() < count {
        return Err(PairFault::OutOfMemory);
    }
    let (own, others) = marks.split_at(count);
    if are_all_marked(own) {
        return Ok(others);
    }
    table.add_selected_rows(group, own)?;
    Ok(others)
}

/// Adds those of an event of groups. Takes the marks from its first row on, and fails in the same cases.
fn add_event<'m, A: Allocator + Copy>(
    table: &mut PairTable<A>,
    event: &GroupEvent<'_>,
    marks: &'m [bool],
) -> Result<&'m [bool], PairFault>
    requires { IsWhole event.now }
    ensures pairs { OnOk result (pairs_told table.new ≡ pairs_with true (unmarked marks.now (event_changes (event_seen event.now))) (pairs_told table.old)) }
    ensures others { IfOk result (λ others. others.now ≡ drop (length (event_changes (event_seen event.now))) marks.now) }
{
    match event {
        GroupEvent::Rows(group) => add_rows(table, group, marks),
        GroupEvent::Begin(_) | GroupEvent::Map(_) | GroupEvent::End(_) => Ok(marks),
    }
}

/// Adds those of an index. Takes the marks from its first change on, and fails in the same cases.
fn add_index<'m, A: Allocator + Copy, B: Allocator>(
    table: &mut PairTable<A>,
    index: &Index<'_, '_, B>,
    marks: &'m [bool],
) -> Result<&'m [bool], PairFault>
    ensures pairs { OnOk result (pairs_told table.new ≡ pairs_with true (unmarked marks.now (changes (index_bytes index.now) (index_selection index.now))) (pairs_told table.old)) }
    ensures others { IfOk result (λ others. others.now ≡ drop (length (changes (index_bytes index.now) (index_selection index.now))) marks.now) }
{
    let mut left = marks;
    for event in index.in_turn(Order::Forward) {
        left = add_event(table, &event, left)?;
    }
    Ok(left)
}

/// Returns whether a stop, if there is one, is behind a position.
fn is_behind(stop: Option<u32>, start: u32) -> bool
    ensures { result ≡ is_behind stop start }
{
    match stop {
        Some(stop) => start < stop,
        None => true,
    }
}

/// Adds those of a unit to the tables of a selection, up to its stop. Takes the marks from the unit's first selected change on, and fails in the same
/// cases, and with `OutOfMemory` if out of memory or if the unit isn't accepted.
pub(crate) fn add_chosen<'m, A: Allocator + Copy>(
    alloc: A,
    table: &mut PairTable<A>,
    unit: &UnitFacts<'_>,
    inside: &Selection<'_>,
    marks: &'m [bool],
) -> Result<&'m [bool], PairFault>
    ensures pairs { OnOk result (pairs_told table.new
        ≡ pairs_with true (unmarked marks.now (changes (log_bytes unit.now.log) (range_of_unit (selection_of inside.now) (facts_told unit.now)))) (pairs_told table.old)) }
    ensures others { IfOk result (λ others. others.now ≡ drop (length (changes (log_bytes unit.now.log) (range_of_unit (selection_of inside.now) (facts_told unit.now)))) marks.now) }
{
    if !is_behind(inside.stop, unit.start) {
        return Err(PairFault::OutOfMemory);
    }
    match unit.groups_of(alloc, inside) {
        Ok(index) => add_index(table, &index, marks),
        Err(_) => Err(PairFault::OutOfMemory),
    }
}
