//! Which units are wanted.

ghost use Rattle.std.specs.Prelude.{◌≡◌, map, option_map};
ghost use Rattle.blog_event.specs.code.LogView.{log_bytes};
ghost use Rattle.blog_trans.specs.Changes.{counts_of};
ghost use Rattle.blog_trans.specs.Groups.{groups};
ghost use Rattle.blog_trans.specs.code.IndexView.{index_bytes, index_selection, table_counted};
ghost use Rattle.blog_units.specs.code.UnitsView.{facts_told, id_told};
ghost use Rattle.blog_choice.specs.code.ChosenView.{names_choice};
ghost use Rattle.blog_choice.specs.code.Views.{choice_value};
ghost use Rattle.blog_request.specs.Ids.{is_of_ids};
ghost use Rattle.blog_request.specs.code.IdsView.{ids_value};
ghost use Rattle.blog_request.specs.Wanted.{by_tables, changes_told, concern_of, has_chosen, is_before, is_from, is_in_range, is_of_threads, is_wanted, is_wanted_unit};

use crate::ids::GlobalIds;
use crate::passing::is_passed_over;
use blog_choice::{ChosenNames, TableChoice};
use blog_event::{Fault, Log};
use blog_trans::Index;
use blog_units::{GlobalId, Unit, UnitFacts};
use std::alloc::Allocator;

/// Which units of a log are wanted: those that meet each condition that is given.
#[derive(Clone, Copy, Debug)]
pub struct Wanted<'w> {
    /// Those that start at this byte position or after it.
    pub start: Option<u32>,
    /// Those that start before this byte position.
    pub stop: Option<u32>,
    /// Those of this time or later, in seconds since 1970 in UTC.
    pub from_time: Option<u32>,
    /// Those before this time, in seconds since 1970 in UTC.
    pub to_time: Option<u32>,
    /// Those of these threads of the server, by the first Query event; of any thread if there are none.
    pub threads: &'w [u32],
    /// Those whose global transaction id is among these; any if there are none. A unit without an id, or with one that isn't
    /// known, is among none.
    pub gtids: &'w [GlobalIds<'w>],
    /// Those that change a chosen table. Those that can't be undone are wanted too, since which tables they change isn't
    /// known, but for statements that name none of the chosen tables.
    pub choice: TableChoice<'w>,
}

/// Whether a unit is wanted.
#[derive(Clone, Copy, Debug, PartialEq, Eq)]
pub enum Concern {
    /// It is wanted.
    Wanted,
    /// It would be, but it is a statement that names none of the chosen tables.
    PassedOver,
    /// It isn't.
    Other,
}

impl Wanted<'_> {
    /// Returns whether a unit of a log is wanted, and not passed over. `names` are the names of `choice`.
    pub fn has<A: Allocator + Copy, B: Allocator>(
        &self,
        names: &ChosenNames<'_, A>,
        log: &Log<'_>,
        unit: &Unit<'_, B>,
    ) -> bool
        requires { names_choice names.now ≡ choice_value self.now.choice }
        ensures { result ≡ is_wanted_unit self.now (log_bytes log.now) (facts_told unit.now.facts) (changes_told unit.now.groups) }
    {
        match self.concern(names, log, unit) {
            Concern::Wanted => true,
            Concern::PassedOver | Concern::Other => false,
        }
    }

    /// Returns whether a unit of a log is wanted, or passed over. `names` are the names of `choice`.
    pub fn concern<A: Allocator + Copy, B: Allocator>(
        &self,
        names: &ChosenNames<'_, A>,
        log: &Log<'_>,
        unit: &Unit<'_, B>,
    ) -> Concern
        requires { names_choice names.now ≡ choice_value self.now.choice }
        ensures { result ≡ concern_of self.now (log_bytes log.now) (facts_told unit.now.facts) (changes_told unit.now.groups) }
    {
        if !self.has_in_range(&unit.facts) {
            Concern::Other
        } else if self.choice.is_all() {
            Concern::Wanted
        } else {
            by_tables(names, log, unit)
        }
    }

    /// Returns whether a unit starts within the wanted positions, and is of the wanted times, threads and ids. Any other isn't wanted,
    /// whatever it changes.
    pub fn has_in_range(&self, unit: &UnitFacts<'_>) -> bool
        ensures { result ≡ is_in_range self.now (facts_told unit.now) }
    {
        is_from(unit.start, self.start)
            && is_before(unit.start, self.stop)
            && is_from(unit.time, self.from_time)
            && is_before(unit.time, self.to_time)
            && is_of_threads(self.threads, unit.thread)
            && is_of_ids(self.gtids, unit.id)
    }
}

/// Whether a unit is wanted, by its tables.
fn by_tables<A: Allocator + Copy, B: Allocator>(
    names: &ChosenNames<'_, A>,
    log: &Log<'_>,
    unit: &Unit<'_, B>,
) -> Concern
    ensures { result ≡ by_tables (names_choice names.now) (log_bytes log.now) (facts_told unit.now.facts) (changes_told unit.now.groups) }
{
    match &unit.groups {
        Ok(groups) if changes_chosen(&names.choice(), groups) => Concern::Wanted,
        Ok(_) => Concern::Other,
        Err(Fault::Statement { .. })
            if is_passed_over(names, log, unit.facts.start, unit.facts.stop) => Concern::PassedOver,
        Err(_) => Concern::Wanted,
    }
}

/// Whether the groups of an index change a chosen table.
fn changes_chosen<A: Allocator>(choice: &TableChoice<'_>, index: &Index<'_, '_, A>) -> bool
    ensures { result ≡ has_chosen (choice_value choice.now) (counts_of (groups (index_bytes index.now) (index_selection index.now))) }
{
    for n in 0..index.tables() {
        let count = index.table(n);
        if choice.has(count.schema, count.table) {
            return true;
        }
    }
    false
}

/// Whether a thread is one of those that are asked for, or none is.
fn is_of_threads(threads: &[u32], thread: Option<u32>) -> bool
    ensures { result ≡ is_of_threads threads.now thread }
{
    if threads.is_empty() {
        return true;
    }
    match thread {
        Some(thread) => threads.contains(&thread),
        None => false,
    }
}

/// Whether a global transaction id is among those that are asked for, or none is asked for.
fn is_of_ids(asked: &[GlobalIds<'_>], id: Option<GlobalId<'_>>) -> bool
    ensures { result ≡ is_of_ids (map ids_value asked.now) (option_map id_told id.entry) }
{
    if asked.is_empty() {
        return true;
    }
    match id {
        Some(id) => asked.iter().any(|ids| ids.has(&id)),
        None => false,
    }
}

/// Whether a number isn't below the least one, where there is one.
fn is_from(n: u32, least: Option<u32>) -> bool
    ensures { result ≡ is_from n least }
{
    match least {
        Some(least) => n >= least,
        None => true,
    }
}

/// Whether a number is below the first one that is too great, where there is one.
pub fn is_before(n: u32, bound: Option<u32>) -> bool
    ensures { result ≡ is_before n bound }
{
    match bound {
        Some(bound) => n < bound,
        None => true,
    }
}
