//! What is seen of the tables that logs name.

ghost use Rattle.std.specs.Prelude.{◌≡◌, ◌++◌, [], ◌∷◌, Contains, List, IfOk, OnOk, filter_map};
ghost use Rattle.blog_event.specs.code.LogView.{log_bytes};
ghost use Rattle.blog_row.specs.TableMap.{Table};
ghost use Rattle.blog_choice.specs.code.Views.{choice_value};
ghost use Rattle.blog_trans.specs.Places.{placed};
ghost use Rattle.blog_reasons.specs.Near.{AreNear};
ghost use Rattle.blog_reasons.specs.Reasons.{table_named, tables_named};
ghost use Rattle.blog_reasons.specs.code.NamedView.{table_value};
ghost use Rattle.blog_reasons.specs.code.TablesView.{AreKnown, AreSeenTables};

use crate::asked::AskedNames;
use crate::named::{NamedTable, SeededState, named_table};
use crate::near::{NearTable, keep_near};
use blog_choice::TableChoice;
use blog_event::{Event, Log};
use std::alloc::{AllocError, Allocator};
use std::collections::HashSet;

/// What was seen of the tables that logs name.
#[derive(Drop)]
pub(crate) struct SeenTables<A: Allocator> {
    alloc: A,
    asked: AskedNames<A>,
    /// Whether one of them is chosen. Once one is, no more are looked at.
    pub(crate) has_chosen: bool,
    /// Those that come close to a name that is asked for: at most five, the nearest first.
    pub(crate) near: Vec<NearTable<A>, A>,
}

/// The tables of a log that were looked at.
type Known<'a, A> = HashSet<NamedTable<'a>, SeededState, A>;

impl<A: Allocator + Copy> SeenTables<A> {
    /// No table.
    pub(crate) fn new(alloc: A, choice: &TableChoice<'_>) -> Result<Self, AllocError>
        ensures { IfOk result (AreSeenTables (choice_value choice.now) []) }
    {
        Ok(SeenTables {
            alloc,
            asked: AskedNames::new(alloc, choice)?,
            has_chosen: false,
            near: Vec::new(alloc),
        })
    }

    /// Looks at the tables that a log names, up to the first chosen one.
    pub(crate) fn look(&mut self, choice: &TableChoice<'_>, log: &Log<'_>) -> Result<(), AllocError>
        ensures { (ts : List Table) → AreSeenTables (choice_value choice.now) ts self.old
            → OnOk result (AreSeenTables (choice_value choice.now) (ts ++ tables_named (log_bytes log.now)) self.new) }
    {
        let mut known = HashSet::with_hasher(self.alloc, SeededState { seed: log.seed() });
        let mut at = log.first();
        'events: while let Ok(event) = log.event_at(at) {
            if self.has_chosen {
                return Ok(());
            }
            self.look_at_event(choice, &mut known, &event)?;
            at += event.header.size;
        }
        Ok(())
    }

    /// Looks at the table that an event names, if it names one.
    fn look_at_event<'a>(
        &mut self,
        choice: &TableChoice<'_>,
        known: &mut Known<'a, A>,
        event: &Event<'a>,
    ) -> Result<(), AllocError>
        ensures seen { (ts : List Table) → AreSeenTables (choice_value choice.now) ts self.old → AreKnown (choice_value choice.now) self.old.has_chosen known.old
            → OnOk result (AreSeenTables (choice_value choice.now) (ts ++ filter_map table_named (placed event.now ∷ [])) self.new) }
        ensures known { AreKnown (choice_value choice.now) self.old.has_chosen known.old → OnOk result (AreKnown (choice_value choice.now) self.new.has_chosen known.new) }
    {
        match named_table(event) {
            Some(table) => self.look_at_table(choice, known, table),
            None => Ok(()),
        }
    }

    /// Looks at a table, if it isn't known.
    fn look_at_table<'a>(
        &mut self,
        choice: &TableChoice<'_>,
        known: &mut Known<'a, A>,
        table: NamedTable<'a>,
    ) -> Result<(), AllocError>
        ensures seen { (ts : List Table) → AreSeenTables (choice_value choice.now) ts self.old → AreKnown (choice_value choice.now) self.old.has_chosen known.old
            → OnOk result (AreSeenTables (choice_value choice.now) (ts ++ table_value table.entry ∷ []) self.new) }
        ensures known { AreKnown (choice_value choice.now) self.old.has_chosen known.old → OnOk result (AreKnown (choice_value choice.now) self.new.has_chosen known.new) }
    {
        let is_new = known.insert(table)?;
        if !is_new {
            return Ok(());
        }
        if choice.has(table.schema, table.table) {
            self.has_chosen = true;
            return Ok(());
        }
        self.look_at_names(choice, &table)
    }

    /// Keeps a table that isn't chosen, if its names come close enough.
    fn look_at_names(
        &mut self,
        choice: &TableChoice<'_>,
        table: &NamedTable<'_>,
    ) -> Result<(), AllocError>
        ensures near { (ts : List Table) → Contains ts (table_value table.now) → AreNear ts self.old.near.items → OnOk result (AreNear ts self.new.near.items) }
        ensures chosen { self.new.has_chosen ≡ self.old.has_chosen }
    {
        match self.asked.rank(choice, table)? {
            Some(rank) => keep_near(
                self.alloc,
                &mut self.near,
                table,
                rank,
                choice.tables.is_empty(),
            ),
            None => Ok(()),
        }
    }
}
