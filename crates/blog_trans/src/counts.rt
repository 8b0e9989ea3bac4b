//! Counting the rows of the groups by table.

ghost use Rattle.std.proofs.Props.{props};
ghost use Rattle.blog_trans.specs.code.Few.{AreFew};

use crate::checker::{KeptRows, Maps};
use blog_event::Fault;
use blog_row::RowsAction;
use std::alloc::Allocator;

/// How many rows of a table are inserted, updated and deleted.
#[derive(Clone, Copy, Debug, Default, PartialEq, Eq)]
pub(crate) struct Count {
    pub(crate) inserts: u64,
    pub(crate) updates: u64,
    pub(crate) deletes: u64,
    /// Whether the table has a map in the groups.
    pub(crate) kept: bool,
}

/// The numbers of rows by table, of what is kept so far.
#[derive(Drop)]
pub(crate) struct Counts<A: Allocator> {
    // Those of the selected tables; tables with higher numbers have no rows.
    rows: Vec<Count, A>,
    // The numbers of the tables of the kept maps, in the order of the groups.
    tables: Vec<u32, A>,
    // How many images the kept rows events have: no table has more rows.
    pub(crate) images: u64,
    ghost few: { AreFew images rows.items } by { Prim.hlevel props },
}

impl Count {
    ghost use Rattle.std.specs.Prelude.{◌≡◌, ◌+◌, ◌<◌, ◌^◌, ◌/◌};
    ghost use Rattle.blog_trans.specs.code.CountsView.{with_images};

    /// Adds the rows of one more rows event, which has so many images.
    fn add(&mut self, action: RowsAction, images: u64)
        requires inserts { self.old.inserts + images < 2 ^ 64 }
        requires updates { self.old.updates + images < 2 ^ 64 }
        requires deletes { self.old.deletes + images < 2 ^ 64 }
        ensures { self.new ≡ with_images action images self.old }
    {
        match action {
            RowsAction::Write => self.inserts += images,
            RowsAction::Update => self.updates += images / 2,
            RowsAction::Delete => self.deletes += images,
        }
    }
}

impl<A: Allocator + Copy> Counts<A> {
    ghost use Rattle.std.specs.Prelude.{◌≡◌, ◌+◌, ◌<◌, ◌^◌, ◌++◌, List, [], ◌∷◌, Some, length, map, slice_get, vec_len, OnOk, IfErr};
    ghost use Rattle.std.specs.List.{AllByRecursion};
    ghost use Rattle.blog_event.specs.declared.fault.Fault.TheVariants.{OutOfMemory};
    ghost use Rattle.indexmap.specs.IndexMap.{values};
    ghost use Rattle.blog_row.specs.TableMap.{Table};
    ghost use Rattle.blog_trans.specs.Groups.{RowsEvent};
    ghost use Rattle.blog_trans.specs.Changes.{Change, table_of, changes_of_rows};
    ghost use Rattle.blog_trans.specs.code.TablesView.{IsNumbered};
    ghost use Rattle.blog_trans.specs.code.StatementMaps.{used_maps};
    ghost use Rattle.blog_trans.specs.code.CountsView.{AreCounts};

    /// Nothing is kept yet.
    pub(crate) fn new(alloc: A) -> Self
        ensures counts { AreCounts [] [] [] result }
        ensures images { result.images ≡ 0 }
    {
        Counts {
            rows: Vec::new(alloc),
            tables: Vec::new(alloc),
            images: 0,
        }
    }

    /// Makes room for the numbers of a table.
    fn reach(&mut self, table: u32) -> Result<(), Fault>
        ensures counts { (tables : List Table) (cs : List Change) (ts : List Table) → table < length tables → AreCounts tables cs ts self.old → OnOk result (AreCounts tables cs ts self.new) }
        ensures reached { OnOk result (table < vec_len self.new.rows) }
        ensures images { self.new.images ≡ self.old.images }
        ensures refused { IfErr result (λ fault. fault ≡ OutOfMemory) }
    {
        let len = table as usize + 1;
        if self.rows.len() < len {
            self.rows.resize(len, Count::default())?;
        }
        Ok(())
    }

    /// Counts the rows of a kept rows event.
    pub(crate) fn count(&mut self, kept: &KeptRows) -> Result<(), Fault>
        requires { self.old.images + kept.now.images < 2 ^ 64 }
        ensures counts { (tables : List Table) (cs : List Change) (ts : List Table) (r : RowsEvent) → AreCounts tables cs ts self.old →
            r.content.kind.action ≡ kept.now.action → slice_get tables kept.now.table ≡ Some (table_of r.map) → length r.content.images ≡ kept.now.images →
            OnOk result (AreCounts tables (cs ++ changes_of_rows r) ts self.new) }
        ensures images { OnOk result (self.new.images ≡ self.old.images + kept.now.images) }
        ensures refused { IfErr result (λ fault. fault ≡ OutOfMemory) }
    {
        self.reach(kept.table)?;
        let images = kept.images as u64;
        self.images += images;
        self.rows[kept.table as usize].add(kept.action, images);
        Ok(())
    }

    /// Takes the table of a kept map.
    fn keep_table(&mut self, table: u32) -> Result<(), Fault>
        ensures counts { (tables : List Table) (cs : List Change) (ts : List Table) (t : Table) → slice_get tables table ≡ Some t → AreCounts tables cs ts self.old →
            OnOk result (AreCounts tables cs (ts ++ t ∷ []) self.new) }
        ensures images { self.new.images ≡ self.old.images }
        ensures refused { IfErr result (λ fault. fault ≡ OutOfMemory) }
    {
        self.reach(table)?;
        if !self.rows[table as usize].kept {
            self.tables.push(table)?;
            self.rows[table as usize].kept = true;
        }
        Ok(())
    }

    /// Takes the tables of the maps that are kept of a statement.
    pub(crate) fn keep<'a>(&mut self, maps: &Maps<'a, A>) -> Result<(), Fault>
        ensures counts { (tables : List Table) (cs : List Change) (ts : List Table) → AllByRecursion (IsNumbered tables) (values maps.now) → AreCounts tables cs ts self.old →
            OnOk result (AreCounts tables cs (ts ++ map (λ m. table_of m.body.now) (used_maps (values maps.now))) self.new) }
        ensures images { self.new.images ≡ self.old.images }
        ensures refused { IfErr result (λ fault. fault ≡ OutOfMemory) }
    {
        for map in maps.values() {
            if map.used {
                if let Some(table) = &map.table {
                    self.keep_table(table.number)?;
                }
            }
        }
        Ok(())
    }
}

impl<A: Allocator> Counts<A> {
    ghost use Rattle.std.specs.Prelude.{◌≡◌, ◌<◌, ◌≤◌, ℕ, List, [], Some, length, slice_get, option_map, vec_len};
    ghost use Rattle.blog_row.specs.TableMap.{Table};
    ghost use Rattle.blog_trans.specs.Changes.{Change, count_of, first_tables};
    ghost use Rattle.blog_trans.specs.code.CountsView.{AreCounts, counted};

    /// How many tables there are.
    pub(crate) fn len(&self) -> usize
        ensures { (tables : List Table) (cs : List Change) (ts : List Table) → AreCounts tables cs ts self.now → result ≡ length (first_tables [] ts) }
    {
        self.tables.len()
    }

    /// The number of a table, and how many of its rows are changed.
    pub(crate) fn table(&self, n: usize) -> (u32, Count)
        requires { n < vec_len self.now.tables }
        ensures { (tables : List Table) (cs : List Change) (ts : List Table) → AreCounts tables cs ts self.now →
            (t : Table) × (slice_get tables result.0 ≡ Some t) × (option_map (count_of cs) (slice_get (first_tables [] ts) n) ≡ Some (counted t (Some result.1))) }
    {
        let table = self.tables[n];
        let count = self.rows.get(table as usize);
        (table, count.copied().unwrap_or_default())
    }
}
