//! Walking through a log: each event of the range is checked, and what the groups take of it is kept.

ghost use Rattle.std.specs.Prelude.{◌≡◌, ◌+◌, ◌≤◌, ◌<◌, ◌^◌, Option, List, [], ◌∷◌, length, None, Some, OnOk, IfErr, MatchResult, vec_len, IfOk};
ghost use Rattle.indexmap.specs.IndexMap.{index_map_len};
ghost use Rattle.blog_event.specs.declared.fault.Fault.TheVariants.{OutOfMemory};
ghost use Rattle.blog_event.specs.Fault.{fault_at};
ghost use Rattle.blog_event.specs.Event.{event_of, event_size};
ghost use Rattle.blog_event.specs.File.{Placed, is_below};
ghost use Rattle.blog_row.specs.declared.event_kinds.EventKind.TheVariants as told;
ghost use Rattle.blog_row.specs.Kinds.{kind_of};
ghost use Rattle.blog_trans.specs.Selection.{Selection as Sel, selection_of};
ghost use Rattle.blog_trans.specs.Acceptance.{event_fault, IsRefusal, IsAccepted, fault, is_start_inside, range, read_fault};
ghost use Rattle.blog_trans.specs.Groups.{PlacedRows, PlacedTransaction};
ghost use Rattle.blog_trans.specs.code.Progress.{Open, with_rows};
ghost use Rattle.blog_trans.specs.code.TablesView.{tables_known};
ghost use Rattle.blog_trans.specs.code.StatementMaps.{used_of};
ghost use Rattle.blog_trans.specs.code.CheckerView.{IsKept, HasChecked, images_of};
ghost use Rattle.blog_trans.specs.code.ListsView.{closed_behind, open_behind};
ghost use Rattle.blog_trans.specs.code.BuilderView.{HasTaken, IsWithin, IsTakenOrRefused, Keeps, placed};
ghost use Rattle.blog_event.specs.code.LogView.{log_bytes};
ghost use Rattle.blog_trans.specs.code.WalkView.{IsRead, IsReached, IsThrough, end_fault};
ghost use Rattle.blog_trans.specs.code.IndexView.{index_bytes, index_selection};
ghost use Rattle.blog_trans.specs.Shown.{ShowsEachOnce};

use crate::checker::{Checker, KeptRows};
use crate::counts::Counts;
use crate::groups::Index;
use crate::lists::IndexLists;
use crate::place::Place;
use crate::selection::Selection;
use blog_event::{Event, Fault, Log};
use blog_row::{EventKind, RowsKind, event_kind};
use std::alloc::Allocator;

/// The size of an Xid event's body in bytes.
const XID_LEN: usize = 8;

/// What is known and kept of the events of the range so far.
#[derive(Drop)]
pub(crate) struct IndexBuilder<'a, A: Allocator> {
    pub(crate) checker: Checker<'a, A>,
    pub(crate) lists: IndexLists<A>,
    pub(crate) counts: Counts<A>,
}

impl<'a, A: Allocator + Copy> IndexBuilder<'a, A> {
    /// Nothing was read yet. Names and ids of tables are hashed by a seed.
    pub(crate) fn new(alloc: A, seed: u64) -> Self
        ensures walks { (sel : Sel) → HasTaken sel [] result }
        ensures within { IsWithin 0 result }
    {
        IndexBuilder {
            checker: Checker::new(alloc, seed),
            lists: IndexLists::new(alloc),
            counts: Counts::new(alloc),
        }
    }

    /// Keeps a rows event that begins at `at`, if its table is selected.
    fn keep(&mut self, at: u32, kept: Option<KeptRows>) -> Result<(), Fault>
        requires { self.old.counts.images + images_of kept < 2 ^ 64 }
        ensures kept { (done : List PlacedTransaction) (o : Open) (r : Option PlacedRows) → IsKept (tables_known self.old.checker.layouts) at kept r → Keeps (open_behind done o) self.old
            → OnOk result (Keeps (open_behind done (with_rows r o)) self.new) }
        ensures checker { self.new.checker ≡ self.old.checker }
        ensures entries { vec_len self.new.lists.entries ≤ vec_len self.old.lists.entries + 1 }
        ensures images { OnOk result (self.new.counts.images ≡ self.old.counts.images + images_of kept) }
        ensures refused { IfErr result (λ fault. fault ≡ OutOfMemory) }
    {
        if let Some(kept) = kept {
            self.lists.rows(at, kept.map)?;
            self.counts.count(&kept)?;
        }
        Ok(())
    }

    /// The open statement ends.
    fn close(&mut self) -> Result<(), Fault>
        requires { vec_len self.old.lists.entries + index_map_len self.old.checker.maps < 2 ^ 32 }
        ensures kept { (sel : Sel) (statement earlier : List Placed) (done : List PlacedTransaction) (o : Open) → HasChecked sel statement earlier self.old.checker
            → (o.rows ≡ [] → used_of sel statement ≡ []) → Keeps (open_behind done o) self.old
            → OnOk result (HasChecked sel [] earlier self.new.checker × Keeps (closed_behind done (used_of sel statement) o) self.new) }
        ensures layouts { OnOk result (self.new.checker.layouts ≡ self.old.checker.layouts) }
        ensures entries { OnOk result (vec_len self.new.lists.entries + index_map_len self.new.checker.maps ≤ vec_len self.old.lists.entries + index_map_len self.old.checker.maps) }
        ensures images { OnOk result (self.new.counts.images ≡ self.old.counts.images) }
        ensures refused { IfErr result (λ fault. fault ≡ OutOfMemory) }
    {
        self.lists.close(&self.checker.maps)?;
        self.counts.keep(&self.checker.maps)?;
        self.checker.close();
        Ok(())
    }

    /// A rows event, which may be the last of its statement.
    fn take_rows(&mut self, kind: RowsKind, event: &Event<'a>) -> Result<(), Fault>
        requires kind { kind_of (event_of event.now) ≡ told.Rows kind }
        requires room { vec_len self.old.lists.entries + index_map_len self.old.checker.maps + 1 < 2 ^ 32 }
        requires images { self.old.counts.images + length event.now.body.now < 2 ^ 64 }
        ensures walks { (sel : Sel) (earlier : List Placed) → HasTaken sel earlier self.old → IsTakenOrRefused (event_fault sel earlier (placed event.now)) sel (placed event.now ∷ earlier) event.now.pos result self.new }
        ensures layouts { OnOk result (self.new.checker.layouts ≡ self.old.checker.layouts) }
        ensures entries { OnOk result (vec_len self.new.lists.entries + index_map_len self.new.checker.maps ≤ vec_len self.old.lists.entries + index_map_len self.old.checker.maps + 1) }
        ensures images { OnOk result (self.new.counts.images ≤ self.old.counts.images + length event.now.body.now) }
    {
        let (kept, last) = self.checker.take_rows(kind, event)?;
        self.keep(event.pos, kept)?;
        if last {
            self.close()?;
        }
        Ok(())
    }

    /// One more event of the range: what the groups take of it is kept, or the first check that it fails is answered.
    pub(crate) fn step(&mut self, sel: &Selection<'_>, event: &Event<'a>) -> Result<(), Fault>
        requires within { IsWithin event.now.pos self.old }
        requires ends { event.now.pos + (19 + length event.now.body.now) < 2 ^ 32 }
        ensures walks { (earlier : List Placed) → HasTaken (selection_of sel.now) earlier self.old
            → IsTakenOrRefused (event_fault (selection_of sel.now) earlier (placed event.now)) (selection_of sel.now) (placed event.now ∷ earlier) event.now.pos result self.new }
        ensures within { OnOk result (IsWithin (event.now.pos + (19 + length event.now.body.now)) self.new) }
    {
        let pos = event.pos;
        let place = self.checker.place;
        match event_kind(event) {
            EventKind::Begin => {
                self.checker.begin(pos)?;
                self.lists.begin(pos)?;
            }
            EventKind::Xid if event.body.len() != XID_LEN => return Err(Fault::BadBody { pos }),
            EventKind::Commit | EventKind::Xid => {
                self.checker.end(pos)?;
                self.lists.end(pos)?;
            }
            EventKind::Gtid => self.checker.gtid(pos)?,
            EventKind::TableMap => self.checker.take_map(sel, event)?,
            EventKind::Rows(kind) => self.take_rows(kind, event)?,
            EventKind::Savepoint if place.is_inside() => {}
            EventKind::BetweenTransactions if place.is_outside() => {}
            EventKind::Savepoint | EventKind::BetweenTransactions | EventKind::SecondFormat => {
                return Err(Fault::OutOfPlace { pos });
            }
            EventKind::RowsQuery | EventKind::Skippable => {}
            EventKind::Rollback => return Err(Fault::RolledBack { pos }),
            EventKind::OtherQuery | EventKind::StatementChange => {
                return Err(Fault::Statement { pos });
            }
            EventKind::BadQuery => return Err(Fault::BadBody { pos }),
            EventKind::PartialRows => return Err(Fault::PartialImage { pos }),
            EventKind::Unknown => return Err(Fault::UnknownEvent { pos }),
        }
        Ok(())
    }

    /// One more event that is read: before the range nothing is asked of it but that the start isn't inside it.
    fn read(&mut self, sel: &Selection<'_>, event: &Event<'a>) -> Result<(), Fault>
        requires behind { 4 < event.now.pos }
        requires size { event.now.header.size ≡ event_size (event_of event.now) }
        requires ends { event.now.pos + event_size (event_of event.now) < 2 ^ 32 }
        requires within { IsWithin event.now.pos self.old }
        ensures walks { (earlier : List Placed) → HasTaken (selection_of sel.now) (range (selection_of sel.now) earlier) self.old
            → IsRead (read_fault (selection_of sel.now) earlier (placed event.now)) (selection_of sel.now) (placed event.now ∷ earlier) result self.new }
        ensures within { OnOk result (IsWithin (event.now.pos + event_size (event_of event.now)) self.new) }
    {
        if is_start_inside(sel, event) {
            return Err(Fault::NoEventAt { pos: sel.start });
        }
        if event.pos >= sel.start {
            self.step(sel, event)?;
        }
        Ok(())
    }

    /// Walks through the events of a log from a position on, as far as they are read. Answers where the last one ends.
    fn walk(&mut self, log: &Log<'a>, sel: &Selection<'_>, from: u32) -> Result<u32, Fault>
        requires reached { IsReached (log_bytes log.now) (selection_of sel.now) from }
        requires begins { IsWithin 0 self.old }
        requires walks { HasTaken (selection_of sel.now) [] self.old }
        ensures through { IsThrough (log_bytes log.now) (selection_of sel.now) result self.new }
    {
        let mut at = from;
        'events: while is_below(at, sel.stop) && at != log.end() {
            let Ok(event) = log.event_at(at) else {
                return Err(Fault::CutEvent { pos: at });
            };
            self.read(sel, &event)?;
            at += event.header.size;
        }
        Ok(at)
    }
}

/// Whether a position lies below a stop, where there is one.
pub(crate) fn is_below(at: u32, stop: Option<u32>) -> bool
    ensures { result ≡ is_below at stop }
{
    stop.is_none_or(|stop| at < stop)
}

/// Whether the start lies strictly inside an event, and below the stop.
pub(crate) fn is_start_inside(sel: &Selection<'_>, event: &Event<'_>) -> bool
    requires { event.now.header.size ≡ event_size (event_of event.now) }
    ensures { result ≡ is_start_inside (selection_of sel.now) (placed event.now) }
{
    is_below(sel.start, sel.stop)
        && event.pos < sel.start
        && sel.start - event.pos < event.header.size
}

/// Checks the end of a log that was read up to `at`, where none of its events has a fault: `NoEventAt` where the range
/// starts past its end, `Unended` where it ends inside a transaction or behind a transaction's id.
fn check_end(end: u32, sel: &Selection<'_>, place: Place, at: u32) -> Result<(), Fault>
    ensures { MatchResult result (λ done. end_fault end (selection_of sel.now) place at ≡ None) (λ fault. end_fault end (selection_of sel.now) place at ≡ Some fault) }
{
    if is_below(sel.start, sel.stop) && sel.start > end {
        return Err(Fault::NoEventAt { pos: sel.start });
    }
    if !place.is_outside() {
        return Err(Fault::Unended { pos: at });
    }
    Ok(())
}

/// Goes through a log once, and answers its groups under a selection. Nothing is copied from the log: the index has 8 bytes
/// for each event of the groups, for each statement and for each transaction; and for each selected table where its names and
/// columns lie, and its numbers of rows. The groups have events of the range, none of them twice.
///
/// Fails with the first fault of the log, at its position; with `OutOfMemory` where memory is refused, whatever later events
/// would tell.
pub fn index<'a, 's, A: Allocator + Copy>(
    alloc: A,
    log: &Log<'a>,
    sel: &Selection<'s>,
) -> Result<Index<'a, 's, A>, Fault>
    ensures accepted { IfOk result (λ index. IsAccepted (log_bytes log.now) (selection_of sel.now)) }
    ensures bytes { IfOk result (λ index. index_bytes index ≡ log_bytes log.now) }
    ensures selection { IfOk result (λ index. index_selection index ≡ selection_of sel.now) }
    ensures shown { OnOk result (ShowsEachOnce (log_bytes log.now) (selection_of sel.now)) }
    ensures refused { IfErr result (IsRefusal (fault (log_bytes log.now) (selection_of sel.now))) }
{
    if is_start_inside(sel, &log.format()) {
        return Err(Fault::NoEventAt { pos: sel.start });
    }
    index_from(alloc, log, sel, log.first())
}

/// The same of a log that is read from a byte position behind its format description on: nothing is asked of the events in
/// front of it. So each of many ranges of a log is gone through without those before it. Its errors are those of `index`.
pub fn index_from<'a, 's, A: Allocator + Copy>(
    alloc: A,
    log: &Log<'a>,
    sel: &Selection<'s>,
    from: u32,
) -> Result<Index<'a, 's, A>, Fault>
    requires reached { IsReached (log_bytes log.now) (selection_of sel.now) from }
    ensures accepted { IfOk result (λ index. IsAccepted (log_bytes log.now) (selection_of sel.now)) }
    ensures bytes { IfOk result (λ index. index_bytes index ≡ log_bytes log.now) }
    ensures selection { IfOk result (λ index. index_selection index ≡ selection_of sel.now) }
    ensures shown { OnOk result (ShowsEachOnce (log_bytes log.now) (selection_of sel.now)) }
    ensures refused { IfErr result (IsRefusal (fault (log_bytes log.now) (selection_of sel.now))) }
{
    let mut builder = IndexBuilder::new(alloc, log.seed());
    let at = builder.walk(log, sel, from)?;
    check_end(log.end(), sel, builder.checker.place, at)?;
    let IndexBuilder {
        checker,
        lists,
        counts,
    } = builder;
    Ok(Index {
        log: *log,
        sel: *sel,
        entries: lists.entries,
        transactions: lists.transactions,
        statements: lists.statements,
        layouts: checker.layouts,
        counts,
    })
}
