//! Looking for the reason why nothing is wanted.

ghost use Rattle.std.specs.Prelude.{◌≡◌, ◌&&◌, ◌++◌, [], ◌∷◌, List, IfOk, OnOk, not};
ghost use Rattle.blog_event.specs.code.LogView.{log_bytes};
ghost use Rattle.blog_choice.specs.code.Views.{choice_value};
ghost use Rattle.blog_request.specs.declared.wanted.Wanted as asked;
ghost use Rattle.blog_reasons.specs.Reasons.{IsReason, Looked, asks_for_tables};
ghost use Rattle.blog_reasons.specs.code.ReasonsView.{HasLooked};

use crate::reason::Reason;
use crate::tables::SeenTables;
use crate::units::{Range, SeenUnits};
use blog_choice::TableChoice;
use blog_event::Log;
use blog_request::Wanted;
use std::alloc::{AllocError, Allocator, Global};

/// What was seen of logs, to say why none of their units is wanted.
#[derive(Drop)]
pub struct Reasons<'w, A: Allocator = Global> {
    alloc: A,
    wanted: Wanted<'w>,
    units: SeenUnits,
    tables: SeenTables<A>,
}

impl<'w, A: Allocator + Copy> Reasons<'w, A> {
    /// Begins with no log. Memory is taken from `alloc`.
    pub fn new(alloc: A, wanted: &Wanted<'w>) -> Result<Self, AllocError>
        ensures { IfOk result (HasLooked wanted.now []) }
    {
        Ok(Reasons {
            alloc,
            wanted: *wanted,
            units: SeenUnits::NONE,
            tables: SeenTables::new(alloc, &wanted.choice)?,
        })
    }

    /// Looks at one more log. Its units that start at the byte position `start` or after it, and before `stop`, are in the
    /// range. Its table maps are looked at wherever they are, and those that can't be read are left out.
    ///
    /// After an error nothing is known of the logs.
    pub fn look(
        &mut self,
        log: &Log<'_>,
        start: Option<u32>,
        stop: Option<u32>,
    ) -> Result<(), AllocError>
        ensures { (w : asked.Wanted) (logs : List Looked) → HasLooked w logs self.old
            → OnOk result (HasLooked w (logs ++ record { log = log_bytes log.now; start = start; stop = stop } ∷ []) self.new) }
    {
        let range = Range { start, stop };
        self.units = self.units.with_log(&self.wanted, log, &range);
        self.tables.look(&self.wanted.choice, log)
    }

    /// Returns the first reason that holds.
    pub fn reason(&self) -> Reason<'_, A>
        ensures { (w : asked.Wanted) (logs : List Looked) → HasLooked w logs self.now → IsReason w logs result }
    {
        match self.units.times {
            None => Reason::NoUnit,
            Some(times) if !self.units.has_wanted => Reason::NoTime {
                first: times.first,
                last: times.last,
            },
            Some(_) if lacks_tables(&self.wanted.choice, self.tables.has_chosen) => {
                Reason::NoTable {
                    near: &self.tables.near,
                }
            }
            Some(_) => Reason::Other,
        }
    }
}

/// Returns whether tables or a database are asked for, and no chosen table was found.
fn lacks_tables(choice: &TableChoice<'_>, has_chosen: bool) -> bool
    ensures { result ≡ (asks_for_tables (choice_value choice.now) && not has_chosen) }
{
    (choice.database.is_some() || !choice.tables.is_empty()) && !has_chosen
}
