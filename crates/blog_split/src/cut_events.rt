//! The statements of events to write, cut into smaller ones.

ghost use Rattle.std.specs.Prelude.{◌≡◌, ◌<◌, ◌^◌, ◌≤◌, true, false, [], length, map, Some, IfOk, IfErr, MatchOption, vec_len, vec_capacity};
ghost use Rattle.std.specs.List.Sorted.{IsNonDecreasingBy};
ghost use Rattle.std.proofs.Props.{props};
ghost use Rattle.blog_flash.specs.Written.{Written};
ghost use Rattle.blog_flash.specs.code.Skipping.{IsSkipped};
ghost use Rattle.blog_flash.specs.code.WrittenView.{written_told};
ghost use Rattle.blog_split.specs.code.CutWritten.{AreApart, CanBeCut, ending};
ghost use Rattle.blog_split.specs.code.Marks.{AreFlags, AreListed, event_told};

use crate::fault::SplitFault;
use crate::most::Most;
use crate::piece_maps::{mark, push_flag, unmark, unmarked};
use crate::room::left_with;
use crate::used_maps::{MapId, id_of, number_of, push_map, sort_ids};
use blog_event::{Event, Fault};
use blog_flash::{WrittenEvent, WrittenEvents};
use blog_trans::{SkippedEvent, SkippedRows};
use std::alloc::Allocator;

/// Gives the event another end flag, if it is a rows event.
#[inline(always)]
fn set_last(event: &mut WrittenEvent<'_>, last: bool)
    ensures { written_told event.new ≡ ending last (written_told event.old) }
{
    if let WrittenEvent::Rows(rows) = event {
        rows.last = last;
    }
}

/// The same for an event that was skipped.
#[inline(always)]
fn set_skipped_last(event: &mut SkippedEvent<'_>, last: bool)
    ensures { (w : Written) → IsSkipped event.old w → IsSkipped event.new (ending last w) }
{
    if let SkippedEvent::Rows(rows) = event {
        rows.last = last;
    }
}

/// What comes next of cut events.
#[derive(Clone, Copy, Debug)]
enum Coming {
    /// A map of the open piece.
    Map,
    /// A rows event of the open piece.
    Rows,
    /// What the source has next: a `BEGIN`, the end event of a transaction, or nothing.
    Other,
}

/// A rows event that the open piece takes.
#[derive(Clone, Copy, Debug)]
struct Joining<'a> {
    rows: SkippedRows<'a>,
    // The number of its map, if that comes with it.
    map: Option<usize>,
    // How many bytes the piece has left to its limit then.
    left: usize,
}

/// The events of a source, their statements cut into pieces.
#[derive(Drop)]
pub struct CutEvents<'a, E: Drop, A: Allocator> {
    limit: usize,
    most: Most,
    // Gives the rows events.
    events: E,
    // Has skipped what the open piece has left, and the event after it, which is `next`.
    ahead: E,
    next: Option<SkippedEvent<'a>>,
    // The maps of the open statement, in order, and the same by their table ids once these are sorted.
    maps: Vec<Event<'a>, A>,
    ids: Vec<MapId, A>,
    is_sorted: bool,
    // Whether the open statement ends with the open piece.
    is_last: bool,
    // The numbers of the maps of the open piece, and of each map of the statement whether it is one of them.
    used: Vec<usize, A>,
    flags: Vec<bool, A>,
    // How many maps of the open piece were given, and how many of its rows events are left.
    given: usize,
    rows: usize,
    ghost few_maps: { vec_len maps ≤ most.maps },
    ghost few_rows: { most.rows < 2 ^ 64 },
    ghost room_maps: { most.maps ≤ vec_capacity maps },
    ghost room_ids: { most.maps ≤ vec_capacity ids },
    ghost room_used: { most.maps ≤ vec_capacity used },
    ghost room_flags: { most.maps ≤ vec_capacity flags },
    ghost listed: { AreListed (map event_told maps.items) ids.items } by { Prim.hlevel props },
    ghost each_listed: { vec_len ids ≡ vec_len maps },
    ghost each_flagged: { vec_len flags ≡ vec_len maps },
    ghost flagged: { AreFlags used.items flags.items } by { Prim.hlevel props },
    ghost ordered: { is_sorted ≡ true → IsNonDecreasingBy (λ e. e.id) ids.items } by { Prim.hlevel props },
    ghost apart: { AreApart (map event_told maps.items) } by { Prim.hlevel props },
}

impl<'a, E: WrittenEvents<'a> + Drop, A: Allocator> CutEvents<'a, E, A> {
    ghost use Rattle.blog_event.specs.declared.fault.Fault.TheVariants.{OutOfMemory};
    ghost use Rattle.blog_flash.specs.code.Skipping.{Skips};
    ghost use Rattle.blog_split.specs.declared.fault.SplitFault.TheVariants as SplitFault;
    ghost use Rattle.blog_split.specs.code.CutView.{GivesCut, GivesMap, GoesOn, HasMap, HasRows, IsReady, IsSound, MarksPiece, Stops, cut_to_come};
    ghost use Rattle.blog_split.specs.declared.cut_events.Coming.TheVariants as Coming;
    ghost use Rattle.blog_trans.specs.declared.group_events.SkippedRows as skipped;
    ghost use Rattle.blog_trans.specs.declared.group_events.SkippedEvent.TheVariants as over;
    ghost use Rattle.blog_split.specs.code.CutWritten.{cut_written};

    /// Cuts the statements of `events`. `ahead` must give the same events. Each statement of them must have its maps apart,
    /// and no more maps and rows events than `most`. Fails with `Log(OutOfMemory)` if there is no memory for its maps.
    pub(crate) fn new(
        alloc: A,
        most: Most,
        limit: usize,
        events: E,
        mut ahead: E,
    ) -> Result<Self, SplitFault>
    where
        A: Copy,
        requires events { E.can_next events }
        requires ahead { E.can_next ahead }
        requires same { E.to_come ahead ≡ E.to_come events }
        requires can { CanBeCut most [] 0 (E.to_come events) }
        ensures sound { IfOk result (λ cut. IsSound E.can_next E.to_come cut) }
        ensures left { IfOk result (λ cut. cut_to_come E.to_come cut ≡ cut_written limit [] [] (E.to_come events)) }
        ensures refused { IfErr result (λ fault. fault ≡ SplitFault.Log OutOfMemory) }
    {
        let Ok(maps) = Vec::with_capacity(alloc, most.maps) else {
            return Err(SplitFault::Log(Fault::OutOfMemory));
        };
        let Ok(ids) = Vec::with_capacity(alloc, most.maps) else {
            return Err(SplitFault::Log(Fault::OutOfMemory));
        };
        let Ok(used) = Vec::with_capacity(alloc, most.maps) else {
            return Err(SplitFault::Log(Fault::OutOfMemory));
        };
        let Ok(flags) = Vec::with_capacity(alloc, most.maps) else {
            return Err(SplitFault::Log(Fault::OutOfMemory));
        };
        let next = ahead.skip_event();
        Ok(CutEvents {
            limit,
            most,
            events,
            ahead,
            next,
            maps,
            ids,
            is_sorted: false,
            is_last: false,
            used,
            flags,
            given: 0,
            rows: 0,
        })
    }

    /// Returns what comes next. Opens the next piece if the open one has nothing left.
    fn coming(&mut self) -> Coming
        requires sound { IsSound E.can_next E.to_come self.old }
        ensures sound { IsSound E.can_next E.to_come self.new }
        ensures left { cut_to_come E.to_come self.new ≡ cut_to_come E.to_come self.old }
        ensures ready { IsReady self.new result }
    {
        if self.given < self.used.len() {
            return Coming::Map;
        }
        if self.rows > 0 {
            return Coming::Rows;
        }
        self.end_statement();
        'maps: while let Some(SkippedEvent::Map(event)) = self.next {
            self.add_map(event);
        }
        let Some(SkippedEvent::Rows(_)) = self.next else {
            return Coming::Other;
        };
        self.open_piece();
        if self.given < self.used.len() {
            return Coming::Map;
        }
        Coming::Rows
    }

    /// Forgets the maps of the open statement if it has no rows event left.
    fn end_statement(&mut self)
        requires sound { IsSound E.can_next E.to_come self.old }
        requires no_maps { vec_len self.old.used ≤ self.old.given }
        requires no_rows { self.old.rows ≡ 0 }
        ensures sound { IsSound E.can_next E.to_come self.new }
        ensures left { cut_to_come E.to_come self.new ≡ cut_to_come E.to_come self.old }
        ensures open { self.new.is_last ≡ false }
        ensures no_maps { vec_len self.new.used ≤ self.new.given }
        ensures no_rows { self.new.rows ≡ 0 }
    {
        if self.is_last {
            self.maps.clear();
            self.ids.clear();
            self.used.clear();
            self.flags.clear();
            self.given = 0;
            self.is_sorted = false;
            self.is_last = false;
        }
    }

    /// Takes the next event, a map, into the open statement.
    fn add_map(&mut self, event: Event<'a>)
        requires sound { IsSound E.can_next E.to_come self.old }
        requires next { HasMap self.old event }
        requires open { self.old.is_last ≡ false }
        requires no_maps { vec_len self.old.used ≤ self.old.given }
        requires no_rows { self.old.rows ≡ 0 }
        ensures sound { IsSound E.can_next E.to_come self.new }
        ensures left { cut_to_come E.to_come self.new ≡ cut_to_come E.to_come self.old }
        ensures open { self.new.is_last ≡ false }
        ensures no_maps { vec_len self.new.used ≤ self.new.given }
        ensures no_rows { self.new.rows ≡ 0 }
        ensures fewer { length (E.to_come self.new.events) < length (E.to_come self.old.events) }
    {
        push_map(&mut self.maps, &mut self.ids, event);
        push_flag(&mut self.flags);
        self.is_sorted = false;
        self.events.skip_event();
        self.next = self.ahead.skip_event();
    }

    /// Opens the next piece: it begins with the next event, a rows event.
    fn open_piece(&mut self)
        requires sound { IsSound E.can_next E.to_come self.old }
        requires next { HasRows self.old }
        requires open { self.old.is_last ≡ false }
        requires no_maps { vec_len self.old.used ≤ self.old.given }
        requires no_rows { self.old.rows ≡ 0 }
        ensures sound { IsSound E.can_next E.to_come self.new }
        ensures left { cut_to_come E.to_come self.new ≡ cut_to_come E.to_come self.old }
        ensures some { 0 < self.new.rows }
    {
        unmark(&mut self.used, &mut self.flags);
        self.given = 0;
        sort_ids(&mut self.ids, self.is_sorted);
        self.is_sorted = true;
        self.mark_piece();
        self.used.sort_unstable();
    }

    /// Returns the next event if it is a rows event of the open piece, which has `left` bytes left to its limit.
    fn next_rows(&self, left: usize) -> Option<Joining<'a>>
        requires sorted { self.now.is_sorted ≡ true }
        requires id { (rows : skipped.SkippedRows) → self.now.next ≡ Some (over.Rows rows) → 6 ≤ length rows.event.body.now }
        ensures { MatchOption result (Stops self.now left) (GoesOn self.now left) }
    {
        if self.is_last {
            return None;
        }
        let Some(SkippedEvent::Rows(rows)) = self.next else {
            return None;
        };
        let number = number_of(&self.ids, id_of(rows.event.body));
        let map = unmarked(&self.flags, number);
        match left_with(&self.maps, left, rows.len, map) {
            Some(left) => Some(Joining { rows, map, left }),
            None if self.rows == 0 => Some(Joining { rows, map, left: 0 }),
            None => None,
        }
    }

    /// Goes ahead of the rows events of the next piece, and marks the map of each of them.
    fn mark_piece(&mut self)
        requires sound { IsSound E.can_next E.to_come self.old }
        requires next { HasRows self.old }
        requires open { self.old.is_last ≡ false }
        requires sorted { self.old.is_sorted ≡ true }
        requires no_marks { self.old.used.items ≡ [] }
        requires no_rows { self.old.rows ≡ 0 }
        ensures sound { IsSound E.can_next E.to_come self.new }
        ensures first { MarksPiece E.to_come self.old self.new }
    {
        let mut left = self.limit;
        'events: while let Some(joining) = self.next_rows(left) {
            mark(&mut self.used, &mut self.flags, joining.map);
            left = joining.left;
            self.rows += 1;
            self.is_last = joining.rows.last;
            self.next = self.ahead.skip_event();
        }
    }

    /// The next map of the open piece.
    fn map(&mut self) -> Event<'a>
        requires sound { IsSound E.can_next E.to_come self.old }
        requires some { self.old.given < vec_len self.old.used }
        ensures sound { IsSound E.can_next E.to_come self.new }
        ensures first { GivesMap E.to_come self.old result self.new }
    {
        let n = self.used[self.given];
        self.given += 1;
        self.maps[n]
    }

    /// The next rows event of the open piece.
    fn rows_event(&mut self) -> Option<WrittenEvent<'a>>
        requires sound { IsSound E.can_next E.to_come self.old }
        requires no_maps { vec_len self.old.used ≤ self.old.given }
        requires some { 0 < self.old.rows }
        ensures sound { IsSound E.can_next E.to_come self.new }
        ensures first { GivesCut E.to_come self.old result self.new }
    {
        self.rows -= 1;
        let mut event = self.events.next_event()?;
        set_last(&mut event, self.rows == 0);
        Some(event)
    }

    /// Skips the next rows event of the open piece.
    fn skip_rows(&mut self) -> Option<SkippedEvent<'a>>
        requires sound { IsSound E.can_next E.to_come self.old }
        requires no_maps { vec_len self.old.used ≤ self.old.given }
        requires some { 0 < self.old.rows }
        ensures sound { IsSound E.can_next E.to_come self.new }
        ensures first { Skips (cut_to_come E.to_come) self.old result self.new }
    {
        self.rows -= 1;
        let mut event = self.events.skip_event()?;
        set_skipped_last(&mut event, self.rows == 0);
        Some(event)
    }

    /// What the source has next, which is of no statement.
    fn other(&mut self) -> Option<WrittenEvent<'a>>
        requires sound { IsSound E.can_next E.to_come self.old }
        requires ready { IsReady self.old Coming.Other }
        ensures sound { IsSound E.can_next E.to_come self.new }
        ensures first { GivesCut E.to_come self.old result self.new }
    {
        self.is_last = true;
        self.next = self.ahead.skip_event();
        self.events.next_event()
    }

    /// Skips what the source has next, which is of no statement.
    fn skip_other(&mut self) -> Option<SkippedEvent<'a>>
        requires sound { IsSound E.can_next E.to_come self.old }
        requires ready { IsReady self.old Coming.Other }
        ensures sound { IsSound E.can_next E.to_come self.new }
        ensures first { Skips (cut_to_come E.to_come) self.old result self.new }
    {
        self.is_last = true;
        self.next = self.ahead.skip_event();
        self.events.skip_event()
    }
}

impl<'a, E: WrittenEvents<'a> + Drop, A: Allocator> WrittenEvents<'a> for CutEvents<'a, E, A> {
    ghost use Rattle.blog_split.specs.code.CutView.{IsSound, cut_to_come};

    ghost to_come = { cut_to_come E.to_come };

    ghost can_next = { IsSound E.can_next E.to_come };

    fn next_event(&mut self) -> Option<WrittenEvent<'a>> {
        match self.coming() {
            Coming::Map => Some(WrittenEvent::Map(self.map())),
            Coming::Rows => self.rows_event(),
            Coming::Other => self.other(),
        }
    }

    fn skip_event(&mut self) -> Option<SkippedEvent<'a>> {
        match self.coming() {
            Coming::Map => Some(SkippedEvent::Map(self.map())),
            Coming::Rows => self.skip_rows(),
            Coming::Other => self.skip_other(),
        }
    }
}
