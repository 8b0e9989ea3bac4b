//! What was seen of the units of a log.

ghost use Rattle.std.specs.Prelude.{ℕ, ◌+◌, ◌++◌, ◌∷◌, IfOk, List, OnOk, []};
ghost use Rattle.blog_choice.specs.code.ChosenView.{names_choice};
ghost use Rattle.blog_event.specs.code.LogView.{log_bytes};
ghost use Rattle.blog_units.specs.Units.{Facts};
ghost use Rattle.blog_units.specs.code.UnitsView.{IsJudged, facts_told};
ghost use Rattle.blog_later.specs.Later.{touches_in};
ghost use Rattle.blog_later.specs.code.LookedView.{AreSeen, left_before};

use crate::left::LeftRows;
use crate::touched::{TouchedRows, touched_by};
use blog_choice::ChosenNames;
use blog_event::{Fault, Log};
use blog_request::is_passed_over;
use blog_units::Unit;
use std::alloc::{AllocError, Allocator};

/// What was seen of the units of a log after changes.
#[derive(Drop)]
pub struct Looked<'a, A: Allocator> {
    /// How many can be undone by themselves, so that their changes are known.
    pub units: u64,
    /// How many rows they take that the changes left.
    pub touched: u64,
    /// The first 20 rows events that take such rows.
    pub first: Vec<TouchedRows<'a>, A>,
    /// Where the units begin that can't be undone by themselves, and may concern the tables.
    pub unknown: Vec<u32, A>,
    /// Where those begin that can't be, and don't concern them.
    pub apart: Vec<u32, A>,
}

impl<'a, A: Allocator + Copy> Looked<'a, A> {
    /// Nothing.
    pub(crate) fn none(alloc: A) -> Looked<'a, A>
        ensures { (choice : _) → (bytes : _) → AreSeen choice bytes [] 0 result }
    {
        Looked {
            units: 0,
            touched: 0,
            first: Vec::new(alloc),
            unknown: Vec::new(alloc),
            apart: Vec::new(alloc),
        }
    }

    /// Looks at one more unit, after so many lists of changes, from the first on.
    pub(crate) fn look<B: Allocator>(
        &mut self,
        left: &LeftRows<A>,
        lists: u32,
        names: &ChosenNames<'_, A>,
        log: &Log<'_>,
        unit: &Unit<'a, B>,
    ) -> Result<(), AllocError>
        requires { IsJudged (log_bytes log.now) unit.now }
        ensures { (us : List Facts) → (n : ℕ) → AreSeen (names_choice names.now) (log_bytes log.now) us n self.old
            → OnOk result (AreSeen (names_choice names.now) (log_bytes log.now) (us ++ facts_told unit.now.facts ∷ [])
            (n + touches_in (left_before left.now lists) (log_bytes log.now) (facts_told unit.now.facts ∷ [])) self.new) }
    {
        match &unit.groups {
            Ok(index) => {
                let touched = touched_by(left, lists, index, &mut self.first)?;
                self.units = self.units.saturating_add(1);
                self.touched = self.touched.saturating_add(touched);
                Ok(())
            }
            Err(Fault::OutOfMemory) => Err(AllocError),
            Err(_) if is_passed_over(names, log, unit.facts.start, unit.facts.stop) => {
                self.apart.push(unit.facts.start)?;
                Ok(())
            }
            Err(_) => {
                self.unknown.push(unit.facts.start)?;
                Ok(())
            }
        }
    }
}
