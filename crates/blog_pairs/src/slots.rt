//! Pairs that are put into slots and taken out of them.

ghost use Rattle.std.specs.Prelude.{◌≡◌, ◌<◌, ◌∷◌, ◌++◌, [], ℕ, List, OnErr, OnOk, None, Some, set, vec_len};
ghost use Rattle.blog_pairs.specs.code.PairsView.{HasPrint, IsKept};

use crate::held::{HeldPair, HeldPairs};
use crate::keys::{add_key, take_key};
use std::alloc::{AllocError, Allocator};

impl<A: Allocator + Copy> HeldPairs<A> {
    /// Adds a pair whose real row has a fingerprint, at the end. Fails if out of memory.
    pub(crate) fn push(&mut self, print: u64, pair: HeldPair<A>) -> Result<(), AllocError>
        ensures done { OnOk result (self.new.slots.items ≡ self.old.slots.items ++ Some pair ∷ []) }
        ensures failed { OnErr result (self.new.slots.items ≡ self.old.slots.items) }
        ensures kept { (bodies : List (List ℕ)) → IsKept bodies self.old → HasPrint bodies pair print → IsKept bodies self.new }
    {
        let slot = self.slots.len();
        add_key(&mut self.keys, print, slot)?;
        self.slots.push(Some(pair))?;
        Ok(())
    }

    /// Puts a pair whose real row has the fingerprint `new` in the place of one with the fingerprint `old`. Fails if out of memory.
    pub(crate) fn replace(
        &mut self,
        slot: usize,
        old: u64,
        new: u64,
        pair: HeldPair<A>,
    ) -> Result<(), AllocError>
        requires { slot < vec_len self.old.slots }
        ensures done { OnOk result (self.new.slots.items ≡ set self.old.slots.items slot (Some pair)) }
        ensures failed { OnErr result (self.new.slots.items ≡ self.old.slots.items) }
        ensures kept { (bodies : List (List ℕ)) → IsKept bodies self.old → HasPrint bodies pair new → IsKept bodies self.new }
    {
        add_key(&mut self.keys, new, slot)?;
        self.slots[slot] = Some(pair);
        if old == new {
            return Ok(());
        }
        take_key(&mut self.keys, old, slot);
        Ok(())
    }

    /// Takes the pair of a slot out, whose real row has a fingerprint.
    pub(crate) fn clear(&mut self, slot: usize, print: u64)
        requires { slot < vec_len self.old.slots }
        ensures done { self.new.slots.items ≡ set self.old.slots.items slot None }
        ensures kept { (bodies : List (List ℕ)) → IsKept bodies self.old → IsKept bodies self.new }
    {
        self.slots[slot] = None;
        take_key(&mut self.keys, print, slot);
    }
}
