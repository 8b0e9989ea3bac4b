//! A record of changes by the fingerprints of their rows: of selected ones, and of others that take rows which these left.

ghost use Rattle.std.specs.Prelude.{◌≡◌, ◌++◌, [], Bool, OnOk, length, map};
ghost use Rattle.blog_event.specs.code.LogView.{log_bytes};
ghost use Rattle.blog_later.specs.Later.{changes_in, later_units, unit_changes};
ghost use Rattle.blog_later.specs.code.EventChanges.{event_changes};
ghost use Rattle.blog_later.specs.code.LookedView.{left_before};
ghost use Rattle.blog_trans.specs.Changes.{changes};
ghost use Rattle.blog_trans.specs.Selection.{selection_of};
ghost use Rattle.blog_trans.specs.code.GroupEventsView.{IsByMap, IsWhole, event_seen};
ghost use Rattle.blog_trans.specs.code.IndexView.{index_bytes, index_selection};
ghost use Rattle.blog_trans.specs.declared.group_events.GroupEvent.TheVariants as GroupEvent;
ghost use Rattle.blog_units.specs.Units.{Facts, is_behind, range_of_unit};
ghost use Rattle.blog_units.specs.code.UnitsView.{facts_told};
ghost use Rattle.blog_untouched.specs.Steps.{rows_of, taken_of, unit_step};
ghost use Rattle.blog_untouched.specs.code.RecordView.{Adds};

use crate::rows::{SelectedRow, TakenRow};
use crate::selected::selected_rows;
use blog_event::{Fault, Log};
use blog_later::{LeftRows, first_mark, print_of, table_hasher};
use blog_row::{Order, StoredLayout};
use blog_trans::{GroupEvent, GroupRows, Index, Selection};
use blog_units::{UnitFacts, Units};
use std::alloc::{AllocError, Allocator};

/// A record of changes by the fingerprints of their rows.
#[derive(Drop)]
pub struct ChangeRecord<A: Allocator> {
    /// The selected changes, in order.
    pub rows: Vec<SelectedRow, A>,
    /// The rows that others take, of those that selected changes before them left, in order.
    pub taken: Vec<TakenRow, A>,
}

/// Appends the rows that a rows event takes, of those that the first lists left.
fn put_taken_rows<A: Allocator>(
    taken: &mut Vec<TakenRow, A>,
    left: &LeftRows<A>,
    lists: u32,
    before: usize,
    group: &GroupRows<'_>,
) -> Result<(), AllocError>
    requires { IsByMap group.now }
    ensures { OnOk result (taken.new.items ≡ taken.old.items ++ taken_of before (left_before left.now lists).rows (event_changes (event_seen (GroupEvent.Rows group.now)))) }
{
    let layout = StoredLayout::new(&group.rows.layout(), group.rows.rows_len());
    let hasher = table_hasher(&group.table);
    for row in group.rows.rows() {
        if let Some(image) = row.before {
            let print = print_of(hasher, &layout, image);
            if left.has(print, lists) {
                taken.push(TakenRow { before, print })?;
            }
        }
    }
    Ok(())
}

/// Appends those that an event of groups takes.
fn put_taken_event<A: Allocator>(
    taken: &mut Vec<TakenRow, A>,
    left: &LeftRows<A>,
    lists: u32,
    before: usize,
    event: &GroupEvent<'_>,
) -> Result<(), AllocError>
    requires { IsWhole event.now }
    ensures { OnOk result (taken.new.items ≡ taken.old.items ++ taken_of before (left_before left.now lists).rows (event_changes (event_seen event.now))) }
{
    match event {
        GroupEvent::Rows(group) => put_taken_rows(taken, left, lists, before, group),
        GroupEvent::Begin(_) | GroupEvent::Map(_) | GroupEvent::End(_) => Ok(()),
    }
}

/// Appends those that the changes of an index take.
fn put_taken<A: Allocator, B: Allocator>(
    taken: &mut Vec<TakenRow, A>,
    left: &LeftRows<A>,
    lists: u32,
    before: usize,
    index: &Index<'_, '_, B>,
) -> Result<(), AllocError>
    ensures { OnOk result (taken.new.items ≡ taken.old.items ++ taken_of before (left_before left.now lists).rows (changes (index_bytes index.now) (index_selection index.now))) }
{
    for event in index.in_turn(Order::Forward) {
        put_taken_event(taken, left, lists, before, &event)?;
    }
    Ok(())
}

/// Appends those that the changes of a unit take, if it can be undone by itself.
fn put_other<A: Allocator + Copy>(
    alloc: A,
    taken: &mut Vec<TakenRow, A>,
    left: &LeftRows<A>,
    lists: u32,
    before: usize,
    unit: UnitFacts<'_>,
) -> Result<(), AllocError>
    ensures { OnOk result (taken.new.items ≡ taken.old.items ++ taken_of before (left_before left.now lists).rows (unit_changes (log_bytes unit.entry.log) (facts_told unit.entry))) }
{
    let judged = unit.with_groups(alloc);
    match &judged.groups {
        Ok(index) => put_taken(taken, left, lists, before, index),
        Err(Fault::OutOfMemory) => Err(AllocError),
        Err(_) => Ok(()),
    }
}

/// Whether a stop, if there is one, is behind a position.
fn is_behind(stop: Option<u32>, start: u32) -> bool
    ensures { result ≡ is_behind stop start }
{
    match stop {
        Some(stop) => start < stop,
        None => true,
    }
}

/// Appends the changes of a chosen unit to the tables of a selection, up to its stop. Fails if the unit isn't accepted.
fn put_chosen<A: Allocator + Copy>(
    alloc: A,
    rows: &mut Vec<SelectedRow, A>,
    inside: &Selection<'_>,
    unit: &UnitFacts<'_>,
) -> Result<(), AllocError>
    ensures { OnOk result (rows.new.items ≡ rows.old.items ++ rows_of (changes (log_bytes unit.now.log) (range_of_unit (selection_of inside.now) (facts_told unit.now)))) }
{
    if !is_behind(inside.stop, unit.start) {
        return Err(AllocError);
    }
    match unit.groups_of(alloc, inside) {
        Ok(index) => {
            let own = selected_rows(alloc, &index)?;
            rows.extend_from_slice(&own)
        }
        Err(_) => Err(AllocError),
    }
}

impl<A: Allocator + Copy> ChangeRecord<A> {
    /// A record of no changes.
    pub fn none(alloc: A) -> ChangeRecord<A>
        ensures rows { result.rows.items ≡ [] }
        ensures taken { result.taken.items ≡ [] }
    {
        ChangeRecord {
            rows: Vec::new(alloc),
            taken: Vec::new(alloc),
        }
    }

    /// Adds the units of a log from a position on, of which some are chosen. `chosen` says of each unit in turn whether it is. The changes of a chosen
    /// one to the tables of a selection, up to its stop, are selected, and are one more list of `left`. The other units that can be undone by
    /// themselves take rows. Fails if out of memory, if a chosen unit isn't accepted, or after 4,294,967,295 chosen units.
    pub fn add_among(
        &mut self,
        alloc: A,
        left: &LeftRows<A>,
        chosen: &[bool],
        inside: &Selection<'_>,
        log: &Log<'_>,
        from: u32,
    ) -> Result<(), AllocError>
        ensures { (p : Facts → Bool) → chosen.now ≡ map p (later_units (log_bytes log.now) from)
            → OnOk result (Adds (λ k. (left_before left.now k).rows) 0 (map (unit_step p (selection_of inside.now) (log_bytes log.now)) (later_units (log_bytes log.now) from)) self.old self.new) }
    {
        let mut lists = 0u32;
        let mut marks = chosen;
        for unit in Units::from_position(log, from) {
            let (is_chosen, others) = first_mark(marks);
            marks = others;
            if is_chosen {
                let Some(more) = lists.checked_add(1) else {
                    return Err(AllocError);
                };
                lists = more;
                put_chosen(alloc, &mut self.rows, inside, &unit)?;
            } else if lists > 0 {
                let before = self.rows.len();
                put_other(alloc, &mut self.taken, left, lists, before, unit)?;
            }
        }
        Ok(())
    }

    /// Adds the units of a later log from a position on, which take rows that the first lists left. Fails if out of memory.
    pub fn add_later(
        &mut self,
        alloc: A,
        left: &LeftRows<A>,
        lists: u32,
        log: &Log<'_>,
        at: u32,
    ) -> Result<(), AllocError>
        ensures rows { OnOk result (self.new.rows.items ≡ self.old.rows.items) }
        ensures taken { OnOk result (self.new.taken.items ≡ self.old.taken.items
            ++ taken_of (length self.old.rows.items) (left_before left.now lists).rows (changes_in (log_bytes log.now) (later_units (log_bytes log.now) at))) }
    {
        let before = self.rows.len();
        for unit in Units::from_position(log, at) {
            put_other(alloc, &mut self.taken, left, lists, before, unit)?;
        }
        Ok(())
    }
}
