//! A table of pairs.

ghost use Rattle.std.specs.Prelude.{◌≡◌, Ok};
ghost use Rattle.std.proofs.Props.{props};
ghost use Rattle.blog_row.specs.TableMap.{layout_of};
ghost use Rattle.blog_row.specs.code.LayoutView.{layout_columns};
ghost use Rattle.blog_pairs.specs.Tables.{AreApart};
ghost use Rattle.blog_pairs.specs.code.PairsView.{IsKept, bodies_of};

use crate::fault::PairFault;
use crate::held::{HeldPairs, HeldTable};
use crate::rows::{add_later_rows, add_selected_rows};
use crate::steps::{add_later, add_selected};
use crate::tables::{changed_table, held_table};
use crate::updates::selected_table;
use blog_row::{Layout, RowChange};
use blog_trans::GroupRows;
use std::alloc::Allocator;
use std::collections::BTreeSet;

/// Rows of tables as they are, each beside what it would be had a mistake not been made.
#[derive(Drop)]
pub struct PairTable<A: Allocator> {
    alloc: A,
    pub(crate) tables: Vec<HeldTable<A>, A>,
    pub(crate) held: HeldPairs<A>,
    ghost apart: { AreApart (bodies_of tables.items) } by { Prim.hlevel props },
    ghost kept: { IsKept (bodies_of tables.items) held } by { Prim.hlevel props },
}

impl<A: Allocator + Copy> PairTable<A> {
    ghost use Rattle.std.specs.Prelude.{[], OnErr, OnOk, false, length, true};
    ghost use Rattle.blog_later.specs.code.EventChanges.{event_changes, image_changes};
    ghost use Rattle.blog_row.specs.code.RowsView.{row_seen};
    ghost use Rattle.blog_trans.specs.Changes.{table_of};
    ghost use Rattle.blog_trans.specs.code.GroupEventsView.{IsByMap, event_seen};
    ghost use Rattle.blog_trans.specs.declared.group_events.GroupEvent.TheVariants as GroupEvent;
    ghost use Rattle.blog_pairs.specs.Steps.{pairs_with, unmarked};
    ghost use Rattle.blog_pairs.specs.code.TableView.{pairs_told};

    /// Returns a table without pairs.
    pub fn new(alloc: A) -> PairTable<A>
        ensures { pairs_told result ≡ [] }
    {
        PairTable {
            alloc,
            tables: Vec::new(alloc),
            held: HeldPairs {
                slots: Vec::new(alloc),
                keys: BTreeSet::new(alloc),
            },
        }
    }

    /// Adds the selected change of a row: one that is a mistake, and that can't be undone by itself. `body` is the body of the table map, and
    /// `layout` has its columns. Fails with `OtherLayout` if the table came before with other columns, or if out of memory, and then no pair changes.
    pub fn add_selected(
        &mut self,
        body: &[u8],
        layout: &Layout<'_>,
        row: &RowChange<'_>,
    ) -> Result<(), PairFault>
        requires { layout_of body.now ≡ Ok (layout_columns layout.now) }
        ensures done { OnOk result (pairs_told self.new
            ≡ pairs_with true (image_changes (table_of body.now) (layout_columns layout.now) (row_seen row.now).before (row_seen row.now).after) (pairs_told self.old)) }
        ensures failed { OnErr result (pairs_told self.new ≡ pairs_told self.old) }
    {
        let table = changed_table(self.alloc, &mut self.tables, body, layout, 0)?;
        add_selected(self.alloc, &mut self.held, &table, row)?;
        Ok(())
    }

    /// Adds a later change of others to a row. Takes the same, and fails in the same cases. A table of which no selected change came has no pairs:
    /// nothing is done then, even if it comes with other columns each time.
    pub fn add_later(
        &mut self,
        body: &[u8],
        layout: &Layout<'_>,
        row: &RowChange<'_>,
    ) -> Result<(), PairFault>
        requires { layout_of body.now ≡ Ok (layout_columns layout.now) }
        ensures done { OnOk result (pairs_told self.new
            ≡ pairs_with false (image_changes (table_of body.now) (layout_columns layout.now) (row_seen row.now).before (row_seen row.now).after) (pairs_told self.old)) }
        ensures failed { OnErr result (pairs_told self.new ≡ pairs_told self.old) }
    {
        let Some(table) = held_table(&self.tables, body, layout, 0)? else {
            return Ok(());
        };
        add_later(self.alloc, &mut self.held, &table, row)?;
        Ok(())
    }

    /// Adds the changes of others to the rows of an event, as `add_later` does. Fails in the same cases, but after some of its rows.
    pub fn add_later_rows(&mut self, group: &GroupRows<'_>) -> Result<(), PairFault>
        requires { IsByMap group.now }
        ensures { OnOk result (pairs_told self.new ≡ pairs_with false (event_changes (event_seen (GroupEvent.Rows group.now))) (pairs_told self.old)) }
    {
        let layout = group.rows.layout();
        let len = group.rows.rows_len();
        let Some(table) = held_table(&self.tables, group.map.body, &layout, len)? else {
            return Ok(());
        };
        add_later_rows(self.alloc, &mut self.held, &table, &group.rows)?;
        Ok(())
    }

    /// Adds the selected changes of those rows of an event that aren't marked. `marks` has one for each row; marked ones are undone by themselves.
    /// The parts of the first update event that comes of a table are held, so that updates of its rows can be written. Fails in the same cases, but
    /// after some of its rows.
    pub fn add_selected_rows(
        &mut self,
        group: &GroupRows<'_>,
        marks: &[bool],
    ) -> Result<(), PairFault>
        requires by_map { IsByMap group.now }
        requires each { length marks.now ≡ length (event_changes (event_seen (GroupEvent.Rows group.now))) }
        ensures { OnOk result (pairs_told self.new ≡ pairs_with true (unmarked marks.now (event_changes (event_seen (GroupEvent.Rows group.now)))) (pairs_told self.old)) }
    {
        let layout = group.rows.layout();
        let table = selected_table(self.alloc, &mut self.tables, group, &layout)?;
        add_selected_rows(self.alloc, &mut self.held, &table, &group.rows, marks)?;
        Ok(())
    }
}
