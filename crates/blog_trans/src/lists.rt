//! The index's lists, as they grow: an entry for each event of the groups, and where transactions and statements begin
//! among these.

ghost use Rattle.std.specs.Prelude.{◌≡◌, ◌+◌, ◌<◌, ◌≤◌, ◌^◌, List, [], ◌∷◌, ◌++◌, map, take, drop, length, Some, None, IsOk, OnOk, OnErr, IfOk, IfErr, vec_len, vec_capacity};
ghost use Rattle.indexmap.specs.IndexMap.{index_map_len, values};
ghost use Rattle.blog_event.specs.declared.fault.Fault.TheVariants.{OutOfMemory};
ghost use Rattle.blog_event.specs.File.{Placed};
ghost use Rattle.blog_trans.specs.Groups.{PlacedRows, PlacedStatement, PlacedTransaction};
ghost use Rattle.blog_trans.specs.code.Progress.{Open, ended, with_rows};
ghost use Rattle.blog_trans.specs.code.StatementMaps.{used_maps};
ghost use Rattle.blog_trans.specs.code.Entries.{map_entries};

use crate::checker::Maps;
use blog_event::Fault;
use std::alloc::Allocator;

/// An event of the groups, by where its header begins in the log.
#[derive(Clone, Copy, Debug, PartialEq, Eq)]
pub struct Entry {
    pub(crate) at: u32,
    // Of a rows event where its map begins in the log, of another event 0.
    pub(crate) map: u32,
}

/// Where a transaction begins.
#[derive(Clone, Copy, Debug)]
pub(crate) struct TransactionStart {
    /// Its first entry.
    pub(crate) entry: u32,
    /// Its first statement, counted over the whole log.
    pub(crate) statement: u32,
}

/// Where a statement begins.
#[derive(Clone, Copy, Debug)]
pub(crate) struct StatementStart {
    /// Its first entry.
    pub(crate) entry: u32,
    /// How many maps it has.
    pub(crate) maps: u32,
}

/// The lists of what is kept of the events so far.
#[derive(Drop)]
pub(crate) struct IndexLists<A: Allocator> {
    pub(crate) entries: Vec<Entry, A>,
    pub(crate) transactions: Vec<TransactionStart, A>,
    pub(crate) statements: Vec<StatementStart, A>,
    // Where the open transaction begins in the list of entries, and where its open statement does.
    pub(crate) transaction_start: u32,
    pub(crate) statement_start: u32,
    // How many statements were kept before the open transaction.
    pub(crate) first_statement: u32,
    ghost start_in: { transaction_start ≤ vec_len entries },
    ghost statement_in: { statement_start ≤ vec_len entries },
    ghost few_statements: { vec_len statements ≤ statement_start },
    ghost few_before: { first_statement ≤ transaction_start },
}

impl Entry {
    /// Where the event's header begins, in bytes from the file's start.
    pub fn at(&self) -> u32
        ensures { result ≡ self.now.at }
    {
        self.at
    }
}

impl<A: Allocator + Copy> IndexLists<A> {
    ghost use Rattle.blog_trans.specs.code.ListsView.{HasKept, all_ended, between_statements, closed_by, open_behind};

    /// Nothing is kept yet.
    pub(crate) fn new(alloc: A) -> Self
        ensures { HasKept result (all_ended []) }
    {
        IndexLists {
            entries: Vec::new(alloc),
            transactions: Vec::new(alloc),
            statements: Vec::new(alloc),
            transaction_start: 0,
            statement_start: 0,
            first_statement: 0,
        }
    }

    /// A transaction begins.
    pub(crate) fn begin(&mut self, at: u32) -> Result<(), Fault>
        requires { vec_len self.old.entries + 1 < 2 ^ 32 }
        ensures kept { (done : List PlacedTransaction) (p : Placed) → p.pos ≡ at → HasKept self.old (all_ended done)
            → OnOk result (HasKept self.new (open_behind done (between_statements p []))) }
        ensures refused { IfErr result (λ fault. fault ≡ OutOfMemory) }
        ensures few { vec_len self.new.entries ≤ vec_len self.old.entries + 1 }
        ensures room { vec_len self.old.entries < vec_capacity self.old.entries → IsOk result }
        ensures capacity { vec_capacity self.old.entries ≤ vec_capacity self.new.entries }
    {
        self.transaction_start = self.entries.len() as u32;
        self.first_statement = self.statements.len() as u32;
        self.entries.push(Entry { at, map: 0 })?;
        self.statement_start = self.entries.len() as u32;
        Ok(())
    }

    /// A rows event of the open statement, whose table map begins at `map`.
    pub(crate) fn rows(&mut self, at: u32, map: u32) -> Result<(), Fault>
        ensures kept { (done : List PlacedTransaction) (o : Open) (r : PlacedRows) → r.event.pos ≡ at → r.map.pos ≡ map → HasKept self.old (open_behind done o)
            → OnOk result (HasKept self.new (open_behind done (with_rows (Some r) o))) }
        ensures refused { IfErr result (λ fault. fault ≡ OutOfMemory) }
        ensures few { vec_len self.new.entries ≤ vec_len self.old.entries + 1 }
        ensures room { vec_len self.old.entries < vec_capacity self.old.entries → IsOk result }
        ensures capacity { vec_capacity self.old.entries ≤ vec_capacity self.new.entries }
        ensures statements { self.new.statements ≡ self.old.statements }
    {
        Ok(self.entries.push(Entry { at, map })?)
    }

    /// The open statement ends: the maps that its rows events use come in front of these.
    pub(crate) fn close<'a>(&mut self, maps: &Maps<'a, A>) -> Result<(), Fault>
        requires { vec_len self.old.entries + index_map_len maps.now < 2 ^ 32 }
        ensures kept { (done : List PlacedTransaction) (o : Open) (ms : List Placed) → map (λ m. m.at) (used_maps (values maps.now)) ≡ map (λ m. m.pos) ms
            → HasKept self.old (open_behind done o) → OnOk result (HasKept self.new (open_behind done (closed_by ms o))) }
        ensures refused { IfErr result (λ fault. fault ≡ OutOfMemory) }
        ensures few { vec_len self.new.entries ≤ vec_len self.old.entries + index_map_len maps.now }
        ensures room { vec_len self.old.entries + index_map_len maps.now ≤ vec_capacity self.old.entries → vec_len self.old.statements < vec_capacity self.old.statements → IsOk result }
        ensures capacity { vec_capacity self.old.entries ≤ vec_capacity self.new.entries }
    {
        let start = self.statement_start as usize;
        if self.entries.len() == start {
            return Ok(());
        }
        let maps = put_maps(&mut self.entries, maps, start)?;
        let entry = self.statement_start;
        self.statements.push(StatementStart { entry, maps })?;
        self.statement_start = self.entries.len() as u32;
        Ok(())
    }

    /// The open transaction ends: it is left out if no statement of it is kept.
    pub(crate) fn end(&mut self, at: u32) -> Result<(), Fault>
        requires { vec_len self.old.entries + 1 < 2 ^ 32 }
        ensures kept { (done : List PlacedTransaction) (begin : Placed) (statements : List PlacedStatement) (p : Placed) → p.pos ≡ at
            → HasKept self.old (open_behind done (between_statements begin statements)) → OnOk result (HasKept self.new (ended p done (between_statements begin statements))) }
        ensures refused { IfErr result (λ fault. fault ≡ OutOfMemory) }
        ensures few { vec_len self.new.entries ≤ vec_len self.old.entries + 1 }
        ensures room { vec_len self.old.entries < vec_capacity self.old.entries → vec_len self.old.transactions < vec_capacity self.old.transactions → IsOk result }
        ensures capacity { vec_capacity self.old.entries ≤ vec_capacity self.new.entries }
    {
        let (entry, statement) = (self.transaction_start, self.first_statement);
        if self.statements.len() == statement as usize {
            self.statement_start = entry;
            self.entries.truncate(entry as usize);
            return Ok(());
        }
        self.entries.push(Entry { at, map: 0 })?;
        self.transactions
            .push(TransactionStart { entry, statement })?;
        self.transaction_start = self.entries.len() as u32;
        Ok(())
    }
}

/// Puts entries of the maps that are used in front of those from `start` on, and answers their number.
fn put_maps<'a, A: Allocator>(
    entries: &mut Vec<Entry, A>,
    maps: &Maps<'a, A>,
    start: usize,
) -> Result<u32, Fault>
    requires within { start ≤ vec_len entries.old }
    requires room { vec_len entries.old + index_map_len maps.now < 2 ^ 32 }
    ensures items { OnOk result (entries.new.items ≡ take start entries.old.items ++ (map_entries (used_maps (values maps.now)) ++ drop start entries.old.items)) }
    ensures counted { IfOk result (λ n. n ≡ length (used_maps (values maps.now))) }
    ensures refused { IfErr result (λ fault. fault ≡ OutOfMemory) }
    ensures least { vec_len entries.old ≤ vec_len entries.new }
    ensures few { vec_len entries.new ≤ vec_len entries.old + index_map_len maps.now }
    ensures room { vec_len entries.old + index_map_len maps.now ≤ vec_capacity entries.old → IsOk result }
    ensures capacity { vec_capacity entries.old ≤ vec_capacity entries.new }
{
    let before = entries.len();
    for map in maps.values() {
        if map.used {
            entries.push(Entry { at: map.at, map: 0 })?;
        }
    }
    let added = entries.len() - before;
    entries[start..].rotate_right(added);
    Ok(added as u32)
}
