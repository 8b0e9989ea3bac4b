//! The changes of units of others.

ghost use Rattle.std.specs.Prelude.{◌≡◌, OnOk, false};
ghost use Rattle.blog_event.specs.code.LogView.{log_bytes};
ghost use Rattle.blog_later.specs.Later.{unit_changes};
ghost use Rattle.blog_later.specs.code.EventChanges.{event_changes};
ghost use Rattle.blog_pairs.specs.Steps.{pairs_with};
ghost use Rattle.blog_pairs.specs.code.TableView.{pairs_told};
ghost use Rattle.blog_trans.specs.Changes.{changes};
ghost use Rattle.blog_trans.specs.code.GroupEventsView.{IsWhole, event_seen};
ghost use Rattle.blog_trans.specs.code.IndexView.{index_bytes, index_selection};
ghost use Rattle.blog_units.specs.code.UnitsView.{facts_told};

use blog_event::Fault;
use blog_pairs::{PairFault, PairTable};
use blog_row::Order;
use blog_trans::{GroupEvent, Index};
use blog_units::UnitFacts;
use std::alloc::Allocator;

/// Adds the changes of an event of groups. Fails if its table came before with other columns, or if out of memory.
fn add_event<A: Allocator + Copy>(
    table: &mut PairTable<A>,
    event: &GroupEvent<'_>,
) -> Result<(), PairFault>
    requires { IsWhole event.now }
    ensures { OnOk result (pairs_told table.new ≡ pairs_with false (event_changes (event_seen event.now)) (pairs_told table.old)) }
{
    match event {
        GroupEvent::Rows(group) => table.add_later_rows(group),
        GroupEvent::Begin(_) | GroupEvent::Map(_) | GroupEvent::End(_) => Ok(()),
    }
}

/// Adds the changes of an index. Fails in the same cases.
fn add_index<A: Allocator + Copy, B: Allocator>(
    table: &mut PairTable<A>,
    index: &Index<'_, '_, B>,
) -> Result<(), PairFault>
    ensures { OnOk result (pairs_told table.new ≡ pairs_with false (changes (index_bytes index.now) (index_selection index.now)) (pairs_told table.old)) }
{
    for event in index.in_turn(Order::Forward) {
        add_event(table, &event)?;
    }
    Ok(())
}

/// Adds the changes of a unit, if it can be undone by itself. Fails in the same cases.
pub(crate) fn add_other<A: Allocator + Copy>(
    alloc: A,
    table: &mut PairTable<A>,
    unit: UnitFacts<'_>,
) -> Result<(), PairFault>
    ensures { OnOk result (pairs_told table.new ≡ pairs_with false (unit_changes (log_bytes unit.entry.log) (facts_told unit.entry)) (pairs_told table.old)) }
{
    let judged = unit.with_groups(alloc);
    match &judged.groups {
        Ok(index) => add_index(table, index),
        Err(Fault::OutOfMemory) => Err(PairFault::OutOfMemory),
        Err(_) => Ok(()),
    }
}
