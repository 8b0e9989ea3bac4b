//! Which rows the changes of indexes left.

ghost use Rattle.std.specs.Prelude.{◌≡◌, ◌++◌, ◌∷◌, ℕ, List, [], IfOk, OnOk};
ghost use Rattle.blog_trans.specs.Changes.{Change, changes};
ghost use Rattle.blog_trans.specs.code.GroupEventsView.{IsByMap, IsWhole, event_seen};
ghost use Rattle.blog_trans.specs.code.IndexView.{index_bytes, index_selection};
ghost use Rattle.blog_trans.specs.declared.group_events.GroupEvent.TheVariants as GroupEvent;
ghost use Rattle.blog_later.specs.Prints.{AreKept, left_by, left_of, print_in, prints_left, table_print};
ghost use Rattle.blog_later.specs.code.EventChanges.{event_changes};
ghost use Rattle.blog_later.specs.code.LookedView.{left_before};
ghost use Rattle.blog_later.specs.code.LeavingView.{HasLeft};

use crate::left::{LISTS, LeftRows};
use crate::prints::{print_of, table_hasher};
use blog_row::{Order, StoredLayout};
use blog_trans::{GroupEvent, GroupRows, Index};
use std::alloc::{AllocError, Allocator};
use std::hash::Hasher;

/// Appends the fingerprints of the rows that a rows event of a list left, and those of their tables.
fn put_rows<A: Allocator>(
    rows: &mut Vec<u128, A>,
    tables: &mut Vec<u64, A>,
    group: &GroupRows<'_>,
    list: u32,
) -> Result<(), AllocError>
    requires { IsByMap group.now }
    ensures { OnOk result ((rows.new.items ≡ rows.old.items ++ prints_left (print_in list) (event_changes (event_seen (GroupEvent.Rows group.now))))
        × (tables.new.items ≡ tables.old.items ++ prints_left (λ r. table_print r.table) (event_changes (event_seen (GroupEvent.Rows group.now))))) }
{
    let layout = StoredLayout::new(&group.rows.layout(), group.rows.rows_len());
    let hasher = table_hasher(&group.table);
    let table = hasher.finish();
    for row in group.rows.rows() {
        if let Some(image) = row.after {
            let print = u128::from(print_of(hasher, &layout, image));
            rows.push(print * LISTS + u128::from(list))?;
            tables.push(table)?;
        }
    }
    Ok(())
}

/// Appends the fingerprints of the rows that an event of groups of a list left.
fn put_event<A: Allocator>(
    rows: &mut Vec<u128, A>,
    tables: &mut Vec<u64, A>,
    event: &GroupEvent<'_>,
    list: u32,
) -> Result<(), AllocError>
    requires { IsWhole event.now }
    ensures { OnOk result ((rows.new.items ≡ rows.old.items ++ prints_left (print_in list) (event_changes (event_seen event.now)))
        × (tables.new.items ≡ tables.old.items ++ prints_left (λ r. table_print r.table) (event_changes (event_seen event.now)))) }
{
    match event {
        GroupEvent::Rows(group) => put_rows(rows, tables, group, list),
        GroupEvent::Begin(_) | GroupEvent::Map(_) | GroupEvent::End(_) => Ok(()),
    }
}

/// Appends the fingerprints of the rows that the changes of an index left, which are the list of a number.
fn put_prints<A: Allocator, B: Allocator>(
    rows: &mut Vec<u128, A>,
    tables: &mut Vec<u64, A>,
    index: &Index<'_, '_, B>,
    list: u32,
) -> Result<(), AllocError>
    ensures { OnOk result ((rows.new.items ≡ rows.old.items ++ prints_left (print_in list) (changes (index_bytes index.now) (index_selection index.now)))
        × (tables.new.items ≡ tables.old.items ++ prints_left (λ r. table_print r.table) (changes (index_bytes index.now) (index_selection index.now)))) }
{
    for event in index.in_turn(Order::Forward) {
        put_event(rows, tables, &event, list)?;
    }
    Ok(())
}

/// Rows that lists of changes left, not in order yet.
#[derive(Drop)]
pub struct Leaving<A: Allocator> {
    rows: Vec<u128, A>,
    tables: Vec<u64, A>,
    lists: u32,
}

impl<A: Allocator + Copy> Leaving<A> {
    /// Those of no list.
    pub fn none(alloc: A) -> Leaving<A>
        ensures { HasLeft [] result }
    {
        Leaving {
            rows: Vec::new(alloc),
            tables: Vec::new(alloc),
            lists: 0,
        }
    }

    /// Adds those that the changes of an index left, which are the next list. Fails if out of memory, or after 4,294,967,295 lists.
    pub fn add<B: Allocator>(&mut self, index: &Index<'_, '_, B>) -> Result<(), AllocError>
        ensures { (css : List (List Change)) → HasLeft css self.old → OnOk result (HasLeft (css ++ changes (index_bytes index.now) (index_selection index.now) ∷ []) self.new) }
    {
        let Some(lists) = self.lists.checked_add(1) else {
            return Err(AllocError);
        };
        put_prints(&mut self.rows, &mut self.tables, index, self.lists)?;
        self.lists = lists;
        Ok(())
    }

    /// Returns them in order.
    pub fn sorted(self) -> LeftRows<A>
        ensures { (css : List (List Change)) → HasLeft css self → (k : ℕ) → AreKept (left_by k css) (left_before result k) }
    {
        let Leaving { rows, tables, .. } = self;
        let mut rows = rows;
        let mut tables = tables;
        rows.sort_unstable();
        tables.sort_unstable();
        LeftRows { rows, tables }
    }
}

impl<A: Allocator + Copy> LeftRows<A> {
    /// Returns those that the changes of an index left, which are the only list. Fails if out of memory.
    pub fn of<B: Allocator>(alloc: A, index: &Index<'_, '_, B>) -> Result<LeftRows<A>, AllocError>
        ensures { IfOk result (λ left. AreKept (left_of (changes (index_bytes index.now) (index_selection index.now))) (left_before left 1)) }
    {
        let mut leaving = Leaving::none(alloc);
        leaving.add(index)?;
        Ok(leaving.sorted())
    }
}
