//! The units with the greatest numbers.

ghost use Rattle.std.specs.Prelude.{◌≡◌, ◌≤◌, OnOk, length, take};
ghost use Rattle.std.specs.List.{insert};
ghost use Rattle.blog_report.specs.Ranking.{kept, placed};
ghost use Rattle.blog_report.specs.code.RankingView.{measured};

use crate::facts::UnitFact;
use std::alloc::{AllocError, Allocator};

/// So many units are kept.
const MOST_RANKED: usize = 20;

/// A unit, and the number that it is ranked by.
#[derive(Clone, Copy, Debug)]
pub(crate) struct Ranked {
    /// The number.
    pub(crate) measure: u64,
    /// The unit.
    pub(crate) unit: UnitFact,
}

/// The units with the greatest numbers, the greatest first, and of equal ones the earlier first.
#[derive(Drop)]
pub(crate) struct Ranking<A: Allocator> {
    ranked: Vec<Ranked, A>,
}

impl<A: Allocator> Ranking<A> {
    ghost use Rattle.std.specs.Prelude.{[]};
    ghost use Rattle.blog_report.specs.code.RankingView.{ranked_units};

    /// Without a unit.
    pub(crate) fn new(alloc: A) -> Ranking<A>
        ensures { ranked_units result ≡ [] }
    {
        Ranking {
            ranked: Vec::new(alloc),
        }
    }

    /// The units, the one with the greatest number first.
    pub(crate) fn ranked(&self) -> &[Ranked]
        ensures { result.now ≡ ranked_units self.now }
    {
        &self.ranked
    }

    /// Puts a unit behind those with numbers that aren't less, and drops what is more than `MOST_RANKED`. One of the number 0
    /// isn't ranked.
    pub(crate) fn add(&mut self, measure: u64, unit: &UnitFact) -> Result<(), AllocError>
        ensures { OnOk result (ranked_units self.new ≡ kept (measured measure unit.now) (ranked_units self.old)) }
    {
        if measure == 0 {
            return Ok(());
        }
        put_in_place(
            &mut self.ranked,
            Ranked {
                measure,
                unit: *unit,
            },
        )
    }
}

/// Puts a unit where it belongs, and drops what is more than `MOST_RANKED`.
fn put_in_place<A: Allocator>(ranked: &mut Vec<Ranked, A>, new: Ranked) -> Result<(), AllocError>
    ensures { OnOk result (ranked.new.items ≡ take 20 (placed new ranked.old.items)) }
{
    let place = place_in(ranked, &new);
    ranked.insert(place, new)?;
    ranked.truncate(MOST_RANKED);
    Ok(())
}

/// Returns how many units stay in front of a new one.
fn place_in(ranked: &[Ranked], new: &Ranked) -> usize
    ensures placed { insert ranked.now result new.now ≡ placed new.now ranked.now }
    ensures within { result ≤ length ranked.now }
{
    'place: for i in 0..ranked.len() {
        if ranked[i].measure < new.measure {
            return i;
        }
    }
    ranked.len()
}
