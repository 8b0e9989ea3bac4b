//! Rows that are followed through the rows of an event.

ghost use Rattle.std.specs.Prelude.{◌≡◌, ◌++◌, ◌∷◌, [], ℕ, List, OnOk, if◌then◌else◌, option_map};
ghost use Rattle.std.specs.List.{cons_option};
ghost use Rattle.blog_later.specs.Prints.{HavePrints};
ghost use Rattle.blog_later.specs.code.EventChanges.{event_changes, image_changes};
ghost use Rattle.blog_row.specs.code.RowsView.{row_seen};
ghost use Rattle.blog_row.specs.code.StoredLayoutView.{stored_columns};
ghost use Rattle.blog_trans.specs.Changes.{table_of};
ghost use Rattle.blog_trans.specs.code.GroupEventsView.{IsByMap, event_seen};
ghost use Rattle.blog_trans.specs.declared.group_events.GroupEvent.TheVariants as GroupEvent;
ghost use Rattle.blog_followed.specs.code.FollowedView.{Follows, kept_in};
ghost use Rattle.blog_followed.specs.code.KeptView.{change_by, image_print};

use crate::followed::Followed;
use crate::kept::KeptChanges;
use crate::prints::{add_print, is_followed};
use crate::seen::SeenTable;
use blog_later::LeftRows;
use blog_row::RowChange;
use blog_trans::GroupRows;
use std::alloc::{AllocError, Allocator};
use std::collections::BTreeSet;

/// Adds the fingerprint of the row that a change leaves, if it leaves one.
fn add_left<A: Allocator + Copy>(
    prints: &mut BTreeSet<u64, A>,
    table: &SeenTable<'_>,
    after: Option<&[u8]>,
) -> Result<(), AllocError>
    ensures { (these : List ℕ) → OnOk result (HavePrints
        (cons_option (option_map (image_print table.now.body.now) (option_map (λ image. image.now) after.entry)) (these ++ prints.old.keys))
        (these ++ prints.new.keys)) }
{
    match after {
        Some(image) => add_print(prints, table.print(image)),
        None => Ok(()),
    }
}

/// Keeps a change, which takes a row, if it is to be kept.
fn keep_if<A: Allocator + Copy>(
    kept: &mut KeptChanges<A>,
    alloc: A,
    keeps: bool,
    table: &SeenTable<'_>,
    before: &[u8],
    after: Option<&[u8]>,
) -> Result<(), AllocError>
    ensures { OnOk result (kept_in kept.new ≡ kept_in kept.old ++ (if keeps then change_by table.now.body.now before.now (option_map (λ image. image.now) after.entry) ∷ [] else [])) }
{
    if keeps {
        kept.keep(alloc, table.body, before, after)
    } else {
        Ok(())
    }
}

/// Follows the change of a row.
fn follow_row<A: Allocator + Copy>(
    followed: &mut Followed<A>,
    alloc: A,
    left: &LeftRows<A>,
    keeps: bool,
    table: &SeenTable<'_>,
    row: &RowChange<'_>,
) -> Result<(), AllocError>
    ensures { OnOk result (Follows keeps left.now
        (image_changes (table_of table.now.body.now) (stored_columns table.now.layout) (row_seen row.now).before (row_seen row.now).after) followed.old followed.new) }
{
    let Some(before) = row.before else {
        return Ok(());
    };
    if !is_followed(left, &followed.prints, table.print(before)) {
        return Ok(());
    }
    add_left(&mut followed.prints, table, row.after)?;
    keep_if(&mut followed.kept, alloc, keeps, table, before, row.after)
}

/// Follows the changes of a rows event. Fails if out of memory, after some of its rows.
pub(crate) fn follow_rows<A: Allocator + Copy>(
    followed: &mut Followed<A>,
    alloc: A,
    left: &LeftRows<A>,
    keeps: bool,
    group: &GroupRows<'_>,
) -> Result<(), AllocError>
    requires { IsByMap group.now }
    ensures { OnOk result (Follows keeps left.now (event_changes (event_seen (GroupEvent.Rows group.now))) followed.old followed.new) }
{
    let table = SeenTable::of(group);
    for row in group.rows.rows() {
        follow_row(followed, alloc, left, keeps, &table, &row)?;
    }
    Ok(())
}
