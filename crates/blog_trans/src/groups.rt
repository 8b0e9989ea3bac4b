//! The index of a log: its groups under a selection.

ghost use Rattle.std.specs.Prelude.{◌≡◌, ◌+◌, Ok, Some, length, map, take, None};
ghost use Rattle.std.proofs.Props.{props};
ghost use Rattle.blog_event.specs.Event.{event_size};
ghost use Rattle.blog_event.specs.code.LogView.{log_bytes};
ghost use Rattle.blog_row.specs.code.LayoutView.{layout_columns};
ghost use Rattle.blog_row.specs.TableMap.{names_of, layout_of, map_names};
ghost use Rattle.blog_trans.specs.Selection.{selection_of};
ghost use Rattle.blog_trans.specs.Acceptance.{fault};
ghost use Rattle.blog_trans.specs.Groups.{placed_groups};
ghost use Rattle.blog_trans.specs.code.BuilderView.{placed_changes, placed_tables};
ghost use Rattle.blog_trans.specs.code.CountsView.{AreCounts};
ghost use Rattle.blog_trans.specs.code.TablesView.{tables_known};
ghost use Rattle.blog_trans.specs.code.Entries.{entries_of, statement_starts, statements_in, transaction_starts};

use crate::counts::Counts;
use crate::layouts::Layouts;
use crate::lists::{Entry, StatementStart, TransactionStart};
use crate::selection::Selection;
use blog_event::{Event, Log};
use blog_row::{Layout, RowsEvent, RowsKind, TableMap, written_len};
use std::alloc::{Allocator, Global};

/// The groups of a log under a selection: what is kept of it. Transactions are numbered from 0, and so are the
/// statements of a transaction, the maps and the rows events of a statement. A call that takes such numbers asks for
/// those of what is there. Nothing is copied from the log.
#[derive(Drop)]
pub struct Index<'a, 's, A: Allocator = Global> {
    pub(crate) log: Log<'a>,
    pub(crate) sel: Selection<'s>,
    pub(crate) entries: Vec<Entry, A>,
    pub(crate) transactions: Vec<TransactionStart, A>,
    pub(crate) statements: Vec<StatementStart, A>,
    pub(crate) layouts: Layouts<'a, A>,
    pub(crate) counts: Counts<A>,
    pub ghost accepted: { fault (log_bytes log) (selection_of sel) ≡ None },
    ghost entries_are: { entries.items ≡ entries_of (placed_groups (log_bytes log) (selection_of sel)) },
    ghost transactions_are: { transactions.items ≡ transaction_starts 0 0 (placed_groups (log_bytes log) (selection_of sel)) },
    ghost statements_are: { statements.items ≡ statement_starts 0 (placed_groups (log_bytes log) (selection_of sel)) },
    ghost tallied: { AreCounts (tables_known layouts) (placed_changes (placed_groups (log_bytes log) (selection_of sel)))
        (placed_tables (placed_groups (log_bytes log) (selection_of sel))) counts } by { Prim.hlevel props },
}

/// A table map of a log, read.
#[derive(Clone, Copy, Debug)]
pub(crate) struct MapRead<'a> {
    pub(crate) event: Event<'a>,
    pub(crate) table: TableMap<'a>,
    pub(crate) layout: Layout<'a>,
    ghost named: { names_of event.body.now ≡ Some (map_names table) },
    ghost laid_out: { layout_of event.body.now ≡ Ok (layout_columns layout) },
}

/// A rows event of a log, the map that it goes by, and the rows.
pub(crate) type RowsRead<'a> = (Event<'a>, MapRead<'a>, RowsEvent<'a>);

/// A table, and how many of its rows the groups insert, update and delete.
#[derive(Clone, Copy, Debug, PartialEq, Eq)]
pub struct TableCount<'a> {
    /// The bytes of the schema's name.
    pub schema: &'a [u8],
    /// The bytes of the table's name.
    pub table: &'a [u8],
    /// How many rows are inserted.
    pub inserts: u64,
    /// How many rows are updated.
    pub updates: u64,
    /// How many rows are deleted.
    pub deletes: u64,
}

impl<'a, 's, A: Allocator> Index<'a, 's, A> {
    ghost use Rattle.std.specs.Prelude.{◌<◌, ◌≤◌, ◌==◌, ◌∷◌, List, [], IsOk, IsSome, IfSome, drop, option_map, slice_get, true, vec_len};
    ghost use Rattle.std.specs.Option.{ForSome};
    ghost use Rattle.std.specs.List.{IsDistinct};
    ghost use Rattle.blog_event.specs.Event.{event_at, event_of};
    ghost use Rattle.blog_event.specs.File.{Placed};
    ghost use Rattle.blog_row.specs.code.RowsEventView.{rows_kind, rows_layout, rows_body};
    ghost use Rattle.blog_row.specs.RowsWriting.{content_of, written_body};
    ghost use Rattle.blog_trans.specs.Groups.{PlacedRows, groups};
    ghost use Rattle.blog_trans.specs.Changes.{counts_of};
    ghost use Rattle.blog_trans.specs.code.IndexView.{IsOfEntry, IsRowsOfEntry, table_counted, index_bytes, index_groups, index_selection, placed, map_at, maps_in, rows_at, rows_place, statement_at};
    ghost use Rattle.blog_trans.specs.code.Entries.{ShowsGroups, statement_place, transaction_place};
    ghost use Rattle.blog_trans.specs.Shown.{events_in_range, largest, shown, shown_positions};

    /// The log.
    pub fn log(&self) -> Log<'a>
        ensures bytes { log_bytes result ≡ index_bytes self.now }
        ensures accepted { fault (index_bytes self.now) (index_selection self.now) ≡ None }
    {
        self.log
    }

    /// The number of transactions.
    pub fn transactions(&self) -> usize
        ensures { result ≡ length (index_groups self.now) }
    {
        self.transactions.len()
    }

    /// The entry at which transaction `t` begins, and how many statements stand before it. Behind the last transaction
    /// these are all entries and all statements.
    #[inline(always)]
    fn transaction(&self, t: usize) -> (usize, usize)
        requires { t ≤ length (index_groups self.now) }
        ensures entry { result.0 ≡ transaction_place (index_groups self.now) t }
        ensures statement { result.1 ≡ statements_in (take t (index_groups self.now)) }
    {
        if t < self.transactions() {
            let start = self.transactions[t];
            (start.entry as usize, start.statement as usize)
        } else {
            (self.entries.len(), self.statements.len())
        }
    }

    /// The event that begins at a position.
    fn event_at(&self, at: u32) -> Event<'a>
        requires { IsSome (event_at (drop at (index_bytes self.now))) }
        ensures event { event_at (drop at (index_bytes self.now)) ≡ Some (event_of result) }
        ensures pos { result.pos ≡ at }
        ensures size { result.header.size ≡ event_size (event_of result) }
    {
        self.log.event_at(at).unwrap()
    }

    /// The event of an entry.
    #[inline(always)]
    pub(crate) fn event(&self, n: usize) -> Event<'a>
        requires { (p : Placed) × IsOfEntry self.now n p }
        ensures event { (p : Placed) → IsOfEntry self.now n p → placed result ≡ p }
        ensures size { result.header.size ≡ event_size (event_of result) }
    {
        self.event_at(self.entries[n].at)
    }

    /// The entry of the `BEGIN` of transaction `t`.
    #[inline(always)]
    pub(crate) fn begin_entry(&self, t: usize) -> usize
        requires { t < length (index_groups self.now) }
        ensures { result ≡ transaction_place (index_groups self.now) t }
    {
        self.transaction(t).0
    }

    /// The entry of the event that ends transaction `t`.
    #[inline(always)]
    pub(crate) fn end_entry(&self, t: usize) -> usize
        requires { t < length (index_groups self.now) }
        ensures { result + 1 ≡ transaction_place (index_groups self.now) (t + 1) }
    {
        self.transaction(t + 1).0 - 1
    }

    /// The `BEGIN` of transaction `t`.
    pub fn begin(&self, t: usize) -> Event<'a>
        requires { t < length (index_groups self.now) }
        ensures event { option_map (λ x. x.begin) (slice_get (index_groups self.now) t) ≡ Some (placed result) }
        ensures size { result.header.size ≡ event_size (event_of result) }
    {
        self.event(self.begin_entry(t))
    }

    /// The event that ends transaction `t`: a `COMMIT` or an Xid.
    pub fn end(&self, t: usize) -> Event<'a>
        requires { t < length (index_groups self.now) }
        ensures event { option_map (λ x. x.end) (slice_get (index_groups self.now) t) ≡ Some (placed result) }
        ensures size { result.header.size ≡ event_size (event_of result) }
    {
        self.event(self.end_entry(t))
    }

    /// The number of statements of transaction `t`.
    pub fn statements(&self, t: usize) -> usize
        requires { t < length (index_groups self.now) }
        ensures { option_map (λ x. length x.statements) (slice_get (index_groups self.now) t) ≡ Some result }
    {
        self.transaction(t + 1).1 - self.transaction(t).1
    }

    /// The number of statements of all transactions.
    pub fn all_statements(&self) -> usize
        ensures { result ≡ statements_in (index_groups self.now) }
    {
        self.statements.len()
    }

    /// Where statement `s` of transaction `t` begins.
    #[inline(always)]
    fn statement(&self, t: usize, s: usize) -> StatementStart
        requires { IsSome (statement_at (index_groups self.now) t s) }
        ensures entry { result.entry ≡ statement_place (index_groups self.now) t s }
        ensures maps { result.maps ≡ length (maps_in (index_groups self.now) t s) }
    {
        self.statements[self.transaction(t).1 + s]
    }

    /// The entry behind statement `s` of transaction `t`.
    fn statement_end(&self, t: usize, s: usize) -> usize
        requires { IsSome (statement_at (index_groups self.now) t s) }
        ensures { result ≡ statement_place (index_groups self.now) t (s + 1) }
    {
        if self.statements(t) > s + 1 {
            self.statement(t, s + 1).entry as usize
        } else {
            self.transaction(t + 1).0 - 1
        }
    }

    /// The number of maps of statement `s` of transaction `t`.
    pub fn maps(&self, t: usize, s: usize) -> usize
        requires { IsSome (statement_at (index_groups self.now) t s) }
        ensures { option_map (λ x. length x.maps) (statement_at (index_groups self.now) t s) ≡ Some result }
    {
        self.statement(t, s).maps as usize
    }

    /// The table map that begins at a position. It isn't read again where it is the one that was `read` before.
    #[inline(always)]
    fn map_at(&self, at: u32, read: Option<MapRead<'a>>) -> MapRead<'a>
        requires some { IsSome (event_at (drop at (index_bytes self.now))) }
        requires named { IfSome (event_at (drop at (index_bytes self.now))) (λ e. IsSome (names_of e.body)) }
        requires laid_out { IfSome (event_at (drop at (index_bytes self.now))) (λ e. IsOk (layout_of e.body)) }
        requires read { ForSome read (λ map. event_at (drop map.event.pos (index_bytes self.now)) ≡ Some (event_of map.event)) }
        ensures event { event_at (drop at (index_bytes self.now)) ≡ Some (event_of result.event) }
        ensures pos { result.event.pos ≡ at }
    {
        if let Some(map) = read {
            if map.event.pos == at {
                return map;
            }
        }
        let event = self.event_at(at);
        MapRead {
            event,
            table: TableMap::known(event.body),
            layout: Layout::known(event.body),
        }
    }

    /// The map `m` of statement `s` of transaction `t`.
    pub fn map(&self, t: usize, s: usize, m: usize) -> (Event<'a>, TableMap<'a>)
        requires { IsSome (map_at (index_groups self.now) t s m) }
        ensures event { map_at (index_groups self.now) t s m ≡ Some (placed result.0) }
        ensures names { names_of result.0.body.now ≡ Some (map_names result.1) }
        ensures size { result.0.header.size ≡ event_size (event_of result.0) }
    {
        let event = self.event(self.statement(t, s).entry as usize + m);
        (event, TableMap::known(event.body))
    }

    /// The number of rows events of statement `s` of transaction `t`.
    pub fn rows(&self, t: usize, s: usize) -> usize
        requires { IsSome (statement_at (index_groups self.now) t s) }
        ensures { option_map (λ x. length x.rows) (statement_at (index_groups self.now) t s) ≡ Some result }
    {
        self.statement_end(t, s) - self.first_rows(t, s)
    }

    /// The entry of the first map of statement `s` of transaction `t`.
    #[inline(always)]
    pub(crate) fn first_map(&self, t: usize, s: usize) -> usize
        requires { IsSome (statement_at (index_groups self.now) t s) }
        ensures { result ≡ statement_place (index_groups self.now) t s }
    {
        self.statement(t, s).entry as usize
    }

    /// The entry of the first rows event of statement `s` of transaction `t`.
    pub(crate) fn first_rows(&self, t: usize, s: usize) -> usize
        requires { IsSome (statement_at (index_groups self.now) t s) }
        ensures { result ≡ rows_place (index_groups self.now) t s }
    {
        let start = self.statement(t, s);
        start.entry as usize + start.maps as usize
    }

    /// The rows event of an entry, the map that it goes by, and the rows. The map isn't read again where it is the one that
    /// was `read` before.
    #[inline(always)]
    pub(crate) fn group_rows(&self, n: usize, read: Option<MapRead<'a>>) -> RowsRead<'a>
        requires rows { (r : PlacedRows) × IsRowsOfEntry self.now n r }
        requires read { ForSome read (λ map. event_at (drop map.event.pos (index_bytes self.now)) ≡ Some (event_of map.event)) }
        ensures rows { (r : PlacedRows) → IsRowsOfEntry self.now n r
            → r ≡ record { event = placed result.0; map = placed result.1.event; kind = rows_kind result.2; body = rows_body result.2 } }
        ensures layout { rows_layout result.2 ≡ result.1.layout }
        ensures stands { event_at (drop result.1.event.pos (index_bytes self.now)) ≡ Some (event_of result.1.event) }
        ensures size { result.0.header.size ≡ event_size (event_of result.0) }
    {
        let entry = self.entries[n];
        let event = self.event_at(entry.at);
        let map = self.map_at(entry.map, read);
        let Some(kind) = RowsKind::of_type(event.header.kind) else {
            unreachable!();
        };
        (event, map, RowsEvent::known(kind, event.body, &map.layout))
    }

    /// The rows event of an entry, and how many bytes the body has that is written for it. Its map isn't read.
    #[inline(always)]
    pub(crate) fn rows_len(&self, n: usize) -> (Event<'a>, usize)
        requires { (r : PlacedRows) × IsRowsOfEntry self.now n r }
        ensures event { (r : PlacedRows) → IsRowsOfEntry self.now n r → placed result.0 ≡ r.event }
        ensures len { (r : PlacedRows) → IsRowsOfEntry self.now n r → result.1 ≡ length (written_body true (content_of r.kind r.body)) }
    {
        let event = self.event_at(self.entries[n].at);
        let Some(kind) = RowsKind::of_type(event.header.kind) else {
            unreachable!();
        };
        (event, written_len(kind, event.body))
    }

    /// The rows event `r` of statement `s` of transaction `t`, with the map that it goes by. No row is read.
    pub fn rows_event(
        &self,
        t: usize,
        s: usize,
        r: usize,
    ) -> (Event<'a>, TableMap<'a>, RowsEvent<'a>)
        requires { IsSome (rows_at (index_groups self.now) t s r) }
        ensures event { option_map (λ x. x.event) (rows_at (index_groups self.now) t s r) ≡ Some (placed result.0) }
        ensures kind { IfSome (rows_at (index_groups self.now) t s r) (λ x. x.kind ≡ rows_kind result.2) }
        ensures read { IfSome (rows_at (index_groups self.now) t s r) (λ x. x.body ≡ rows_body result.2) }
        ensures names { IfSome (rows_at (index_groups self.now) t s r) (λ x. names_of x.map.event.body ≡ Some (map_names result.1)) }
        ensures layout { IfSome (rows_at (index_groups self.now) t s r) (λ x. layout_of x.map.event.body ≡ Ok (layout_columns (rows_layout result.2))) }
        ensures size { result.0.header.size ≡ event_size (event_of result.0) }
    {
        let (event, map, rows) = self.group_rows(self.first_rows(t, s) + r, None);
        (event, map.table, rows)
    }

    /// An entry for each event of the groups, in the order in which the log in normal form has them. No event has two
    /// entries, and there are no more entries than events in the range.
    pub fn entries(&self) -> &[Entry]
        ensures ats { map (λ e. e.at) result.now ≡ shown_positions (index_bytes self.now) (index_selection self.now) }
        ensures once { IsDistinct (λ a b. a == b) (map (λ e. e.at) result.now) }
        ensures few { length result.now ≤ length (events_in_range (index_bytes self.now) (index_selection self.now)) }
    {
        &self.entries
    }

    /// The size of the largest event of the groups, or `least` where that is more, in bytes.
    pub fn largest(&self, least: usize) -> usize
        ensures { result ≡ largest least (shown (index_bytes self.now) (index_selection self.now)) }
    {
        let mut most = least;
        for n in 0..self.entries.len() {
            most = most.max(self.event(n).header.size as usize);
        }
        most
    }

    /// The number of tables that have a map in the groups.
    pub fn tables(&self) -> usize
        ensures { result ≡ length (counts_of (groups (index_bytes self.now) (index_selection self.now))) }
    {
        self.counts.len()
    }

    /// A table, and how many of its rows the groups change; tables are in the order of their first maps in the groups.
    pub fn table(&self, n: usize) -> TableCount<'a>
        requires { n < length (counts_of (groups (index_bytes self.now) (index_selection self.now))) }
        ensures { slice_get (counts_of (groups (index_bytes self.now) (index_selection self.now))) n ≡ Some (table_counted result) }
    {
        let (number, count) = self.counts.table(n);
        let Some((name, _)) = self.layouts.get_index(number as usize) else {
            unreachable!();
        };
        TableCount {
            schema: name.schema,
            table: name.table,
            inserts: count.inserts,
            updates: count.updates,
            deletes: count.deletes,
        }
    }
}
