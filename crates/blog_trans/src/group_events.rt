//! Going through the events of groups, one after the other, as they are written.

ghost use Rattle.std.specs.Prelude.{◌≡◌, ◌<◌, ◌≤◌, ℕ, true, false, drop, length, Some, IsSome, MatchOption};
ghost use Rattle.std.specs.Option.{ForSome};
ghost use Rattle.blog_event.specs.Event.{event_at, event_of};
ghost use Rattle.blog_trans.specs.code.InTurn.{TakesNumber};
ghost use Rattle.blog_trans.specs.code.IndexView.{index_bytes, index_groups, map_at, rows_at, rows_place, statement_at};
ghost use Rattle.blog_trans.specs.code.Entries.{statement_place};

use crate::groups::{Index, MapRead};
use blog_event::Event;
use blog_row::{Order, RowsEvent, TableMap};
use std::alloc::{Allocator, Global};
use std::ops::Range;

/// A rows event of groups, with the map by which it goes.
#[derive(Clone, Copy, Debug)]
pub struct GroupRows<'a> {
    /// The event.
    pub event: Event<'a>,
    /// The table map, an event of the same statement.
    pub map: Event<'a>,
    /// The table that it names.
    pub table: TableMap<'a>,
    /// The rows.
    pub rows: RowsEvent<'a>,
    /// Whether it is the last of its statement in the order in which the events are gone through.
    pub last: bool,
}

/// An event of groups.
#[derive(Clone, Copy, Debug)]
pub enum GroupEvent<'a> {
    /// The `BEGIN` of a transaction.
    Begin(Event<'a>),
    /// A table map of a statement.
    Map(Event<'a>),
    /// A rows event of a statement.
    Rows(GroupRows<'a>),
    /// The event that ends a transaction: a `COMMIT` or an Xid.
    End(Event<'a>),
}

/// A rows event of groups that was skipped.
#[derive(Clone, Copy, Debug)]
pub struct SkippedRows<'a> {
    /// The event.
    pub event: Event<'a>,
    /// How many bytes the body has that is written for it, in either order.
    pub len: usize,
    /// Whether it is the last of its statement in the order in which the events are gone through.
    pub last: bool,
}

/// An event of groups that was skipped.
#[derive(Clone, Copy, Debug)]
pub enum SkippedEvent<'a> {
    /// The `BEGIN` of a transaction.
    Begin(Event<'a>),
    /// A table map of a statement.
    Map(Event<'a>),
    /// A rows event of a statement.
    Rows(SkippedRows<'a>),
    /// The event that ends a transaction: a `COMMIT` or an Xid.
    End(Event<'a>),
}

/// Which event comes next: what it is, and the number of its entry.
#[derive(Clone, Copy, Debug)]
enum Turn {
    Begin(usize),
    Map(usize),
    /// And whether it is the last of its statement.
    Rows(usize, bool),
    End(usize),
}

/// The events of the groups of an index, in an order.
#[derive(Drop)]
pub struct GroupEvents<'i, 'a, 's, A: Allocator = Global> {
    index: &'i Index<'a, 's, A>,
    order: Order,
    // Transactions that aren't begun.
    transactions: Range<usize>,
    // Whether a transaction was begun that hasn't ended, and its number.
    is_open: bool,
    transaction: usize,
    // Its statements of which nothing was given.
    statements: Range<usize>,
    // The number of the one of which some was given, and what is left of it.
    statement: usize,
    maps: Range<usize>,
    rows: Range<usize>,
    // The entries of its first map and of its first rows event.
    first_map: usize,
    first_rows: usize,
    // The map that was read last.
    read: Option<MapRead<'a>>,
    ghost known: { transactions.end ≤ length (index_groups index.now) },
    ghost opened: { is_open ≡ true → transaction < length (index_groups index.now) },
    ghost statements_known: { (s : ℕ) → statements.start ≤ s → s < statements.end → IsSome (statement_at (index_groups index.now) transaction s) },
    ghost maps_known: { (m : ℕ) → maps.start ≤ m → m < maps.end → IsSome (map_at (index_groups index.now) transaction statement m) },
    ghost rows_known: { (r : ℕ) → rows.start ≤ r → r < rows.end → IsSome (rows_at (index_groups index.now) transaction statement r) },
    ghost maps_placed: { maps.start < maps.end → first_map ≡ statement_place (index_groups index.now) transaction statement },
    ghost rows_placed: { rows.start < rows.end → first_rows ≡ rows_place (index_groups index.now) transaction statement },
    ghost read_stands: { ForSome read (λ m. event_at (drop m.event.pos (index_bytes index.now)) ≡ Some (event_of m.event)) },
}

/// Takes the number that comes first in an order.
fn take(numbers: &mut Range<usize>, order: Order) -> Option<usize>
    ensures { MatchOption result ((numbers.old.end ≤ numbers.old.start) × (numbers.new ≡ numbers.old)) (λ n. (numbers.old.start < numbers.old.end) × TakesNumber order numbers.old n numbers.new) }
{
    match order {
        Order::Forward => numbers.next(),
        Order::Backward => numbers.next_back(),
    }
}

impl<'a, 's, A: Allocator> Index<'a, 's, A> {
    ghost use Rattle.blog_trans.specs.code.InTurn.{in_turn};
    ghost use Rattle.blog_trans.specs.code.GroupEventsView.{events_left};

    /// The events of the groups one after the other, in the order in which they are written: forward that of the log;
    /// backward transactions, statements and rows events go from the last to the first, and the maps of a statement stand
    /// before its rows events.
    pub fn in_turn(&self, order: Order) -> GroupEvents<'_, 'a, 's, A>
        ensures { events_left result ≡ in_turn order (index_groups self.now) }
    {
        GroupEvents {
            index: self,
            order,
            transactions: 0..self.transactions(),
            is_open: false,
            transaction: 0,
            statements: 0..0,
            statement: 0,
            maps: 0..0,
            rows: 0..0,
            first_map: 0,
            first_rows: 0,
            read: None,
        }
    }
}

impl<'i, 'a, 's, A: Allocator> GroupEvents<'i, 'a, 's, A> {
    ghost use Rattle.blog_trans.specs.Groups.{PlacedRows};
    ghost use Rattle.blog_trans.specs.code.InTurn.{Changes};
    ghost use Rattle.blog_trans.specs.code.IndexView.{IsRowsOfEntry};
    ghost use Rattle.blog_trans.specs.code.GroupEventsView.{IsByMap, SkipsEvent, TakesTurn, events_left, rows_seen};

    /// Begins the next transaction, if any is left.
    #[inline(always)]
    fn begin(&mut self) -> Option<Turn>
        requires { self.old.is_open ≡ false }
        ensures { TakesTurn self.old result self.new }
    {
        let t = take(&mut self.transactions, self.order)?;
        self.is_open = true;
        self.transaction = t;
        self.statements = 0..self.index.statements(t);
        self.maps = 0..0;
        self.rows = 0..0;
        Some(Turn::Begin(self.index.begin_entry(t)))
    }

    /// Goes to the next event, if one is left.
    #[inline(always)]
    fn turn(&mut self) -> Option<Turn>
        ensures { TakesTurn self.old result self.new }
    {
        if !self.is_open {
            return self.begin();
        }
        'statements: while self.maps.is_empty() && self.rows.is_empty() {
            let Some(s) = take(&mut self.statements, self.order) else {
                self.is_open = false;
                return Some(Turn::End(self.index.end_entry(self.transaction)));
            };
            self.statement = s;
            self.maps = 0..self.index.maps(self.transaction, s);
            self.rows = 0..self.index.rows(self.transaction, s);
            self.first_map = self.index.first_map(self.transaction, s);
            self.first_rows = self.index.first_rows(self.transaction, s);
        }
        if let Some(m) = take(&mut self.maps, Order::Forward) {
            return Some(Turn::Map(self.first_map + m));
        }
        let r = take(&mut self.rows, self.order)?;
        Some(Turn::Rows(self.first_rows + r, self.rows.is_empty()))
    }

    /// The rows event of an entry.
    #[inline(always)]
    fn rows(&mut self, n: usize, last: bool) -> GroupRows<'a>
        requires { (r : PlacedRows) × IsRowsOfEntry self.old.index.now n r }
        ensures left { events_left self.new ≡ events_left self.old }
        ensures rows { (r : PlacedRows) → IsRowsOfEntry self.old.index.now n r → rows_seen result ≡ Changes r last }
        ensures whole { IsByMap result }
    {
        let (event, map, rows) = self.index.group_rows(n, self.read);
        self.read = Some(map);
        GroupRows {
            event,
            map: map.event,
            table: map.table,
            rows,
            last,
        }
    }

    /// Skips the next event, if one is left, and returns what is known of it without its map and its rows.
    pub fn skip_event(&mut self) -> Option<SkippedEvent<'a>>
        ensures { SkipsEvent self.old result self.new }
    {
        match self.turn()? {
            Turn::Begin(n) => Some(SkippedEvent::Begin(self.index.event(n))),
            Turn::Map(n) => Some(SkippedEvent::Map(self.index.event(n))),
            Turn::Rows(n, last) => {
                let (event, len) = self.index.rows_len(n);
                Some(SkippedEvent::Rows(SkippedRows { event, len, last }))
            }
            Turn::End(n) => Some(SkippedEvent::End(self.index.event(n))),
        }
    }
}

impl<'i, 'a, 's, A: Allocator> Iterator for GroupEvents<'i, 'a, 's, A> {
    type Item = GroupEvent<'a>;

    ghost use Rattle.std.specs.Iterator.{at_most};
    ghost use Rattle.blog_trans.specs.code.GroupEventsView.{GivesEvent, events_left};

    ghost next_gives = { GivesEvent };

    ghost remaining = { λ events. at_most (length (events_left events)) };

    #[inline(always)]
    fn next(&mut self) -> Option<GroupEvent<'a>> {
        match self.turn()? {
            Turn::Begin(n) => Some(GroupEvent::Begin(self.index.event(n))),
            Turn::Map(n) => Some(GroupEvent::Map(self.index.event(n))),
            Turn::Rows(n, last) => Some(GroupEvent::Rows(self.rows(n, last))),
            Turn::End(n) => Some(GroupEvent::End(self.index.event(n))),
        }
    }
}
