//! The changes outside of the part, by the fingerprints of the rows that they take.

ghost use Rattle.std.specs.Prelude.{◌≡◌, ◌≤◌, ◌+◌, Bool, IfOk, List, OnOk, length, nat_eq, option_and_then};
ghost use Rattle.indexmap.specs.IndexMap.{get};
ghost use Rattle.blog_untouched.specs.code.TakersView.{Adds, AreFirst, AreTakers, EndsAt};
ghost use Rattle.blog_untouched.specs.declared.rows.SelectedRow.{SelectedRow};
ghost use Rattle.blog_untouched.specs.declared.rows.Taker.TheVariants.{Selected};

use crate::rows::{TakenRow, Taker};
use indexmap::IndexMap;
use std::alloc::{AllocError, Allocator};
use std::collections::hash_map::DefaultHasher;
use std::hash::{BuildHasher, Hasher};

/// Makes hashers that begin with a seed.
#[derive(Clone, Copy)]
pub(crate) struct SeededState {
    pub(crate) seed: u64,
}

impl BuildHasher for SeededState {
    type Hasher = DefaultHasher;

    ghost use Rattle.blog_untouched.specs.code.SeededView.{seeded};

    ghost build_hasher = { seeded };

    fn build_hasher(&self) -> DefaultHasher {
        let mut hasher = DefaultHasher::new();
        hasher.write_u64(self.seed);
        hasher
    }
}

/// For the fingerprint of each row that changes take which come after a place and aren't kept: the first of these changes.
pub(crate) type Takers<A> = IndexMap<u64, Taker, SeededState, A>;

/// Returns the change that takes a row with this fingerprint.
pub(crate) fn taker_of<A: Allocator>(takers: &Takers<A>, left: Option<u64>) -> Option<Taker>
    ensures { result ≡ option_and_then (get nat_eq takers.now) left }
{
    match left {
        Some(print) => takers.get(&print).copied(),
        None => None,
    }
}

/// Adds the selected change of a number, which takes a row with this fingerprint.
pub(crate) fn add_selected<A: Allocator + Copy>(
    takers: &mut Takers<A>,
    taken: Option<u64>,
    row: usize,
) -> Result<(), AllocError>
    ensures { OnOk result (Adds takers.old taken (Selected row) takers.new) }
{
    if let Some(print) = taken {
        takers.insert(print, Taker::Selected(row))?;
    }
    Ok(())
}

/// Adds those of the first `end` taken rows that are taken after the selected change of a number. Returns how many are taken before.
pub(crate) fn add_others<A: Allocator + Copy>(
    takers: &mut Takers<A>,
    taken: &[TakenRow],
    end: usize,
    row: usize,
) -> Result<usize, AllocError>
    requires { end ≤ length taken.now }
    ensures takers { (rows : List SelectedRow) → (marks : List Bool) → AreTakers rows taken.now marks (row + 1) end takers.old
        → IfOk result (λ first. AreTakers rows taken.now marks (row + 1) first takers.new) }
    ensures firsts { (rows : List SelectedRow) → (marks : List Bool) → AreFirst rows taken.now marks (row + 1) end takers.old
        → IfOk result (λ first. AreFirst rows taken.now marks (row + 1) first takers.new) }
    ensures ends { IfOk result (λ first. EndsAt taken.now row first) }
    ensures within { IfOk result (λ first. first ≤ end) }
{
    let mut first = end;
    'first: while first > 0 {
        let other = taken[first - 1];
        if other.before <= row {
            return Ok(first);
        }
        first -= 1;
        takers.insert(other.print, Taker::Other(first))?;
    }
    Ok(first)
}
