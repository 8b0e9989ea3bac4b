//! Rows that are followed through the changes of units.

ghost use Rattle.std.specs.Prelude.{◌≢◌, OnOk};
ghost use Rattle.blog_event.specs.code.LogView.{log_bytes};
ghost use Rattle.blog_later.specs.Later.{unit_changes};
ghost use Rattle.blog_later.specs.code.EventChanges.{event_changes};
ghost use Rattle.blog_trans.specs.Changes.{changes};
ghost use Rattle.blog_trans.specs.code.GroupEventsView.{IsWhole, event_seen};
ghost use Rattle.blog_trans.specs.code.IndexView.{index_bytes, index_selection};
ghost use Rattle.blog_units.specs.code.UnitsView.{facts_told};
ghost use Rattle.blog_followed.specs.code.FollowedView.{Follows};

use crate::followed::Followed;
use crate::rows::follow_rows;
use blog_event::Fault;
use blog_later::LeftRows;
use blog_row::Order;
use blog_trans::{GroupEvent, Index};
use blog_units::UnitFacts;
use std::alloc::{AllocError, Allocator};

/// Follows the changes of an event of groups.
fn follow_event<A: Allocator + Copy>(
    followed: &mut Followed<A>,
    alloc: A,
    left: &LeftRows<A>,
    keeps: bool,
    event: &GroupEvent<'_>,
) -> Result<(), AllocError>
    requires { IsWhole event.now }
    ensures { OnOk result (Follows keeps left.now (event_changes (event_seen event.now)) followed.old followed.new) }
{
    let GroupEvent::Rows(group) = event else {
        return Ok(());
    };
    follow_rows(followed, alloc, left, keeps, group)
}

/// Follows the changes of an index.
fn follow_index<A: Allocator + Copy, B: Allocator>(
    followed: &mut Followed<A>,
    alloc: A,
    left: &LeftRows<A>,
    keeps: bool,
    index: &Index<'_, '_, B>,
) -> Result<(), AllocError>
    ensures { OnOk result (Follows keeps left.now (changes (index_bytes index.now) (index_selection index.now)) followed.old followed.new) }
{
    for event in index.in_turn(Order::Forward) {
        follow_event(followed, alloc, left, keeps, &event)?;
    }
    Ok(())
}

/// Passes a unit over that can't be undone by itself. Fails if out of memory.
fn passed_over(fault: &Fault) -> Result<(), AllocError>
    ensures { OnOk result (fault.now ≢ Fault.OutOfMemory) }
{
    match fault {
        Fault::OutOfMemory => Err(AllocError),
        _ => Ok(()),
    }
}

/// Follows the changes of a unit, if it can be undone by itself. `keeps` says whether those are kept that take followed rows. Fails if out of memory,
/// after some of the changes.
pub(crate) fn follow_unit<A: Allocator + Copy>(
    followed: &mut Followed<A>,
    alloc: A,
    left: &LeftRows<A>,
    keeps: bool,
    unit: UnitFacts<'_>,
) -> Result<(), AllocError>
    ensures { OnOk result (Follows keeps left.now (unit_changes (log_bytes unit.entry.log) (facts_told unit.entry)) followed.old followed.new) }
{
    let judged = unit.with_groups(alloc);
    match &judged.groups {
        Ok(index) => follow_index(followed, alloc, left, keeps, index),
        Err(fault) => passed_over(fault),
    }
}
