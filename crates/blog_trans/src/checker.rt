//! Checking events: whether one may stand where it stands.

ghost use Rattle.std.specs.Prelude.{◌≡◌, ◌<◌, ◌≤◌, ◌+◌, ◌^◌, true, List, [], length, None, Some, Ok, OnOk, IfOk, is_some, option_map, nat_eq};
ghost use Rattle.std.specs.Option.{option_map_or};
ghost use Rattle.indexmap.specs.IndexMap.{index_map_len, get, IsEmpty};
ghost use Rattle.byteorder.specs.Endian.{little_number};
ghost use Rattle.blog_event.specs.Event.{Event as Fields, event_of};
ghost use Rattle.blog_event.specs.Fault.{first_failing};
ghost use Rattle.blog_event.specs.File.{Placed, AreBytes};
ghost use Rattle.blog_row.specs.TableMap.{HasNames, map_names};
ghost use Rattle.blog_row.specs.declared.event_kinds.EventKind.TheVariants as told;
ghost use Rattle.blog_row.specs.Kinds.{kind_of, is_end_kind};
ghost use Rattle.blog_trans.specs.Acceptance.{end_checks};
ghost use Rattle.blog_trans.specs.code.CheckerView.{HasChecked, IsChecked, IsCheckedBy, AreChecked, IsReadBy, IsMapCompared, images_of};
ghost use Rattle.blog_trans.specs.Places.{since};
ghost use Rattle.blog_trans.specs.code.TablesView.{tables_known, HaveGrown};
ghost use Rattle.blog_trans.specs.Selection.{Selection as Sel, selection_of};

use crate::layouts::{Layouts, SelectedTable, in_body, take_table};
use crate::place::Place;
use crate::selection::Selection;
use crate::table_ids::TableIdHasher;
use crate::table_name::{TableName, TableNameHasher};
use blog_event::{Event, Fault};
use blog_row::{RowsAction, RowsEvent, RowsHead, RowsKind, TableMap};
use indexmap::IndexMap;
use std::alloc::Allocator;

/// A table map of the open statement, the first of its table id.
#[derive(Clone, Copy, Debug)]
pub(crate) struct MapSeen<'a> {
    /// The event's body.
    pub(crate) body: &'a [u8],
    /// The table, where it is selected.
    pub(crate) table: Option<SelectedTable<'a>>,
    /// Where its event begins, in bytes from the file's start.
    pub(crate) at: u32,
    /// Whether a rows event of a selected table goes by it.
    pub(crate) used: bool,
}

/// The table maps of the open statement by their table ids, in the order of the log.
pub(crate) type Maps<'a, A> = IndexMap<u64, MapSeen<'a>, TableIdHasher, A>;

/// A rows event of a selected table.
#[derive(Clone, Copy, Debug)]
pub(crate) struct KeptRows {
    /// Where its table map begins, in bytes from the file's start.
    pub(crate) map: u32,
    /// The number of its table.
    pub(crate) table: u32,
    /// What is done to the rows.
    pub(crate) action: RowsAction,
    /// How many images it has.
    pub(crate) images: usize,
}

/// What has to be known of the events before one to check it.
#[derive(Drop)]
pub(crate) struct Checker<'a, A: Allocator> {
    // Where the next event stands.
    pub(crate) place: Place,
    // Whether the open statement has a rows event.
    has_rows: bool,
    // The first table map of each table id in the open statement.
    pub(crate) maps: Maps<'a, A>,
    // The columns of each selected table in the range.
    pub(crate) layouts: Layouts<'a, A>,
}

/// A body is a list of bytes: nothing is done, but the proofs of its callers know it then.
fn are_bytes(body: &[u8])
    ensures { AreBytes body.now }
{}

/// A rows event by its map, where its table is selected.
fn kept_rows<'a>(
    map: &MapSeen<'a>,
    kind: RowsKind,
    event: &Event<'a>,
) -> Result<Option<KeptRows>, Fault>
    requires { kind_of (event_of event.now) ≡ told.Rows kind }
    ensures read { IsReadBy kind (record { pos = event.now.pos; event = event_of event.now }) map.now result }
    ensures selected { IfOk result (λ kept. is_some kept ≡ is_some map.now.table) }
    ensures images { IfOk result (λ kept. images_of kept ≤ length event.now.body.now) }
{
    let Some(table) = &map.table else {
        return Ok(None);
    };
    let counted = RowsEvent::read_counted(kind, event.body, &table.layout);
    let (_, images) = in_body(counted, event.pos)?;
    Ok(Some(KeptRows {
        map: map.at,
        table: table.number,
        action: kind.action,
        images,
    }))
}

impl<'a, A: Allocator + Copy> Checker<'a, A> {
    /// Nothing is known: no event was checked. Names and ids are hashed by a seed.
    pub(crate) fn new(alloc: A, seed: u64) -> Self
        ensures known { (sel : Sel) → HasChecked sel [] [] result }
        ensures empty { index_map_len result.maps ≡ 0 }
        ensures layouts { IsEmpty result.layouts }
    {
        Checker {
            place: Place::Outside,
            has_rows: false,
            maps: IndexMap::with_hasher(alloc, TableIdHasher::new(seed)),
            layouts: IndexMap::with_hasher(alloc, TableNameHasher::new(seed)),
        }
    }

    /// A `BEGIN`: a transaction begins, and with it a statement.
    pub(crate) fn begin(&mut self, pos: u32) -> Result<(), Fault>
        ensures checked { (sel : Sel) (e : Fields) → kind_of e ≡ told.Begin → IsChecked sel (record { pos = pos; event = e }) self.old result self.new }
        ensures len { OnOk result (index_map_len self.new.maps ≡ 0) }
        ensures layouts { OnOk result (self.new.layouts ≡ self.old.layouts) }
    {
        if self.place.is_inside() {
            return Err(Fault::OutOfPlace { pos });
        }
        self.close();
        self.place = Place::Inside;
        Ok(())
    }

    /// The end of a transaction.
    pub(crate) fn end(&mut self, pos: u32) -> Result<(), Fault>
        ensures checked { (sel : Sel) (e : Fields) (earlier : List Placed) → is_end_kind (kind_of e) ≡ true → HasChecked sel (since earlier) earlier self.old → IsCheckedBy (first_failing (end_checks earlier)) sel earlier (record { pos = pos; event = e }) result self.new }
        ensures maps { self.new.maps ≡ self.old.maps }
        ensures layouts { self.new.layouts ≡ self.old.layouts }
    {
        if !self.place.is_inside() {
            return Err(Fault::OutOfPlace { pos });
        }
        if self.has_rows {
            return Err(Fault::Unended { pos });
        }
        self.place = Place::Outside;
        Ok(())
    }

    /// The id of a transaction.
    pub(crate) fn gtid(&mut self, pos: u32) -> Result<(), Fault>
        ensures checked { (sel : Sel) (e : Fields) → kind_of e ≡ told.Gtid → IsChecked sel (record { pos = pos; event = e }) self.old result self.new }
        ensures maps { self.new.maps ≡ self.old.maps }
        ensures layouts { self.new.layouts ≡ self.old.layouts }
    {
        if !self.place.is_outside() {
            return Err(Fault::OutOfPlace { pos });
        }
        self.place = Place::AfterGtid;
        Ok(())
    }

    /// Whether a table map is the first of its table id in the open statement; a later one has the same body.
    fn is_first(&self, map: &TableMap<'a>, event: &Event<'a>) -> Result<bool, Fault>
        requires { HasNames event.now.body.now (map_names map.now) }
        ensures absent { IfOk result (λ first. first ≡ true → get nat_eq self.now.maps (little_number 6 (map_names map.now).id) ≡ None) }
        ensures compared { (sel : Sel) (statement earlier : List Placed) → HasChecked sel statement earlier self.now → IsMapCompared statement (record { pos = event.now.pos; event = event_of event.now }) result }
    {
        are_bytes(event.body);
        match self.maps.get(&map.id()) {
            Some(known) if known.body != event.body => Err(Fault::MapClash { pos: event.pos }),
            Some(_) => Ok(false),
            None => Ok(true),
        }
    }

    /// A table map.
    pub(crate) fn take_map(&mut self, sel: &Selection<'_>, event: &Event<'a>) -> Result<(), Fault>
        requires kind { kind_of (event_of event.now) ≡ told.TableMap }
        requires few { index_map_len self.old.layouts < 2 ^ 32 }
        ensures checked { IsChecked (selection_of sel.now) (record { pos = event.now.pos; event = event_of event.now }) self.old result self.new }
        ensures len { OnOk result (index_map_len self.new.maps ≤ index_map_len self.old.maps + 1) }
        ensures grown { OnOk result (HaveGrown (tables_known self.old.layouts) (tables_known self.new.layouts)) }
        ensures tables { OnOk result (index_map_len self.new.layouts ≤ index_map_len self.old.layouts + 1) }
    {
        let pos = event.pos;
        if !self.place.is_inside() {
            return Err(Fault::OutOfPlace { pos });
        }
        let map = in_body(TableMap::read(event.body), pos)?;
        let first = self.is_first(&map, event)?;
        let table = take_table(&mut self.layouts, sel, &map, pos)?;
        are_bytes(event.body);
        if first {
            let seen = MapSeen {
                at: pos,
                body: event.body,
                table,
                used: false,
            };
            self.maps.insert(map.id(), seen)?;
        }
        Ok(())
    }

    /// A rows event: how it is kept, if its table is selected, and whether it is the last of its statement.
    pub(crate) fn take_rows(
        &mut self,
        kind: RowsKind,
        event: &Event<'a>,
    ) -> Result<(Option<KeptRows>, bool), Fault>
        requires { kind_of (event_of event.now) ≡ told.Rows kind }
        ensures checked { (sel : Sel) → AreChecked sel (record { pos = event.now.pos; event = event_of event.now }) self.old result self.new }
        ensures len { OnOk result (index_map_len self.new.maps ≡ index_map_len self.old.maps) }
        ensures images { IfOk result (λ rows. images_of rows.0 ≤ length event.now.body.now) }
        ensures layouts { OnOk result (self.new.layouts ≡ self.old.layouts) }
    {
        let pos = event.pos;
        if !self.place.is_inside() {
            return Err(Fault::OutOfPlace { pos });
        }
        let head = in_body(RowsHead::read(kind.version, event.body), pos)?;
        are_bytes(event.body);
        let Some(map) = self.maps.get_mut(&head.table_id()) else {
            return Err(Fault::NoMap { pos });
        };
        let kept = kept_rows(map, kind, event)?;
        map.used = kept.is_some();
        self.has_rows = true;
        Ok((kept, head.ends()))
    }

    /// The open statement ends: a new one has no maps and no rows events yet.
    pub(crate) fn close(&mut self)
        ensures known { (sel : Sel) (statement earlier : List Placed) → HasChecked sel statement earlier self.old → HasChecked sel [] earlier self.new }
        ensures empty { index_map_len self.new.maps ≡ 0 }
        ensures place { self.new.place ≡ self.old.place }
        ensures layouts { self.new.layouts ≡ self.old.layouts }
    {
        self.has_rows = false;
        self.maps.clear();
        // Clearing takes time by the capacity, which one large statement must not leave to all later ones.
        if self.maps.capacity() > 64 {
            self.maps.shrink_to_fit();
        }
    }
}
