//! Rows that are followed through logs.

ghost use Rattle.std.specs.Prelude.{◌≡◌, ◌++◌, [], Bool, OnOk, false, map};
ghost use Rattle.blog_event.specs.code.LogView.{log_bytes};
ghost use Rattle.blog_later.specs.Among.{from_first, others_of};
ghost use Rattle.blog_later.specs.Later.{changes_in, later_units};
ghost use Rattle.blog_later.specs.Prints.{HavePrints, print_of};
ghost use Rattle.blog_pairs.specs.Steps.{pairs_with};
ghost use Rattle.blog_pairs.specs.code.TableView.{pairs_told};
ghost use Rattle.blog_units.specs.Units.{Facts};
ghost use Rattle.blog_followed.specs.Following.{prints_touched, touching};
ghost use Rattle.blog_followed.specs.code.FollowedView.{kept_told, prints_in, prints_told};

use crate::followed::Followed;
use crate::kept::KeptChanges;
use crate::units::follow_unit;
use blog_event::Log;
use blog_later::{LeftRows, first_mark};
use blog_pairs::{PairFault, PairTable};
use blog_units::Units;
use std::alloc::{AllocError, Allocator};
use std::collections::BTreeSet;

impl<A: Allocator + Copy> Followed<A> {
    /// Follows no rows but those that selected changes left, and keeps no changes.
    pub fn new(alloc: A) -> Followed<A>
        ensures prints { prints_in result ≡ [] }
        ensures kept { kept_told result ≡ [] }
    {
        Followed {
            prints: BTreeSet::new(alloc),
            kept: KeptChanges::none(alloc),
        }
    }

    /// Follows rows through the units of a log from a position on, of which some are chosen. `chosen` says of each unit in turn whether it is, and
    /// `left` has the rows that the selected changes of the chosen ones left. The changes of the other units behind the first chosen one, which can be
    /// undone by themselves, are those of others. None is kept. Fails if out of memory, after some of the changes.
    pub fn follow_among(
        &mut self,
        alloc: A,
        left: &LeftRows<A>,
        chosen: &[bool],
        log: &Log<'_>,
        from: u32,
    ) -> Result<(), AllocError>
        ensures prints { (p : Facts → Bool) → chosen.now ≡ map p (later_units (log_bytes log.now) from) → OnOk result (HavePrints
            (prints_touched print_of (prints_told left.now self.old) (changes_in (log_bytes log.now) (others_of p (from_first p (later_units (log_bytes log.now) from)))))
            (prints_told left.now self.new)) }
        ensures kept { OnOk result (kept_told self.new ≡ kept_told self.old) }
    {
        let mut has_begun = false;
        let mut marks = chosen;
        for unit in Units::from_position(log, from) {
            let (is_chosen, others) = first_mark(marks);
            marks = others;
            if is_chosen {
                has_begun = true;
            } else if has_begun {
                follow_unit(self, alloc, left, false, unit)?;
            }
        }
        Ok(())
    }

    /// Follows rows through the units of a later log from a position on, which can be undone by themselves, and keeps the changes that take followed
    /// rows. Fails if out of memory, after some of the changes.
    pub fn keep_later(
        &mut self,
        alloc: A,
        left: &LeftRows<A>,
        log: &Log<'_>,
        at: u32,
    ) -> Result<(), AllocError>
        ensures prints { OnOk result (HavePrints
            (prints_touched print_of (prints_told left.now self.old) (changes_in (log_bytes log.now) (later_units (log_bytes log.now) at)))
            (prints_told left.now self.new)) }
        ensures kept { OnOk result (kept_told self.new ≡ kept_told self.old
            ++ touching print_of (prints_told left.now self.old) (changes_in (log_bytes log.now) (later_units (log_bytes log.now) at))) }
    {
        for unit in Units::from_position(log, at) {
            follow_unit(self, alloc, left, true, unit)?;
        }
        Ok(())
    }

    /// Adds the kept changes to pairs, as changes of others. Fails with `OtherLayout` if a table whose rows differ comes with other columns, or if out
    /// of memory, after some of the changes.
    pub fn add_to(&self, pairs: &mut PairTable<A>) -> Result<(), PairFault>
        ensures { OnOk result (pairs_told pairs.new ≡ pairs_with false (kept_told self.now) (pairs_told pairs.old)) }
    {
        self.kept.add_to(pairs)
    }
}
