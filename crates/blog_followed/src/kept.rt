//! Changes that are kept, and added to pairs.

ghost use Rattle.std.specs.Prelude.{◌≡◌, IsOk, option_map, true};
ghost use Rattle.blog_row.specs.TableMap.{layout_of};
ghost use Rattle.blog_followed.specs.code.KeptView.{are_numbered, bodies_of};

use crate::adding::add_change;
use crate::held::{KeptChange, KeptMap};
use crate::maps::{copied, copied_after, hold_map};
use blog_pairs::{PairFault, PairTable};
use std::alloc::{AllocError, Allocator};

/// Changes that are kept, in order.
#[derive(Drop)]
pub(crate) struct KeptChanges<A: Allocator> {
    /// Their table maps, each body once.
    pub(crate) maps: Vec<KeptMap<A>, A>,
    /// The changes.
    pub(crate) changes: Vec<KeptChange<A>, A>,
    /// The number of the table map of the last one.
    pub(crate) last: usize,
    ghost numbered: { are_numbered (bodies_of maps.items) changes.items ≡ true },
}

impl<A: Allocator + Copy> KeptChanges<A> {
    ghost use Rattle.std.specs.Prelude.{◌++◌, ◌∷◌, [], OnOk, false};
    ghost use Rattle.blog_pairs.specs.Steps.{pairs_with};
    ghost use Rattle.blog_pairs.specs.code.TableView.{pairs_told};
    ghost use Rattle.blog_followed.specs.code.FollowedView.{kept_in};
    ghost use Rattle.blog_followed.specs.code.KeptView.{change_by};

    /// Returns no changes.
    pub(crate) fn none(alloc: A) -> KeptChanges<A>
        ensures { kept_in result ≡ [] }
    {
        KeptChanges {
            maps: Vec::new(alloc),
            changes: Vec::new(alloc),
            last: 0,
        }
    }

    /// Keeps one more change, which takes a row, by its images and the body of its table map. Fails if out of memory, and then no change is kept.
    pub(crate) fn keep(
        &mut self,
        alloc: A,
        body: &[u8],
        before: &[u8],
        after: Option<&[u8]>,
    ) -> Result<(), AllocError>
        requires { IsOk (layout_of body.now) }
        ensures { OnOk result (kept_in self.new ≡ kept_in self.old ++ change_by body.now before.now (option_map (λ image. image.now) after.entry) ∷ []) }
    {
        let before = copied(alloc, before)?;
        let after = copied_after(alloc, after)?;
        let map = hold_map(alloc, &mut self.maps, self.last, body)?;
        self.last = map;
        self.changes.push(KeptChange { map, before, after })?;
        Ok(())
    }

    /// Adds the changes to pairs, as changes of others. Fails with `OtherLayout` if a table whose rows differ comes with other columns, or if out of
    /// memory, after some of the changes.
    pub(crate) fn add_to(&self, pairs: &mut PairTable<A>) -> Result<(), PairFault>
        ensures { OnOk result (pairs_told pairs.new ≡ pairs_with false (kept_in self.now) (pairs_told pairs.old)) }
    {
        for change in &self.changes {
            add_change(&self.maps, change, pairs)?;
        }
        Ok(())
    }
}
