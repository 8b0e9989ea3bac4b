//! Slots by the fingerprints of their rows.

ghost use Rattle.std.specs.Prelude.{◌≡◌, OnOk, true};
ghost use Rattle.std.specs.BTreeSet.{contains};
ghost use Rattle.std.specs.Ordering.{nat_cmp};
ghost use Rattle.blog_pairs.specs.Keys.{IsLeastFrom, IsNextSlot, KeepsKeys, LosesKey, slot_key};

use std::alloc::{AllocError, Allocator};
use std::collections::BTreeSet;

/// One more than the greatest number of a slot.
const SLOTS: u128 = 1 << 64;

/// Returns the key of a slot whose row has a fingerprint.
pub(crate) fn slot_key(print: u64, slot: usize) -> u128
    ensures { result ≡ slot_key print slot }
{
    u128::from(print) * SLOTS + slot as u128
}

/// Returns the least key from a number on.
fn least_from<A: Allocator>(keys: &BTreeSet<u128, A>, from: u128) -> Option<u128>
    ensures { IsLeastFrom (contains nat_cmp keys.now) from result }
{
    match keys.range(from..).next() {
        Some(key) => Some(*key),
        None => None,
    }
}

/// Returns the first slot from a number on whose row has a fingerprint.
pub(crate) fn next_slot<A: Allocator>(
    keys: &BTreeSet<u128, A>,
    print: u64,
    from: usize,
) -> Option<usize>
    ensures { IsNextSlot (contains nat_cmp keys.now) print from result }
{
    let Some(key) = least_from(keys, slot_key(print, from)) else {
        return None;
    };
    let slot = key - slot_key(print, 0);
    if slot < SLOTS {
        Some(slot as usize)
    } else {
        None
    }
}

/// Adds the key of a slot whose row has a fingerprint. Fails if out of memory, and then nothing changes.
pub(crate) fn add_key<A: Allocator + Copy>(
    keys: &mut BTreeSet<u128, A>,
    print: u64,
    slot: usize,
) -> Result<(), AllocError>
    ensures has { OnOk result (contains nat_cmp keys.new (slot_key print slot) ≡ true) }
    ensures more { KeepsKeys keys.old keys.new }
{
    keys.insert(slot_key(print, slot))?;
    Ok(())
}

/// Takes the key out of a slot whose row has a fingerprint.
pub(crate) fn take_key<A: Allocator>(keys: &mut BTreeSet<u128, A>, print: u64, slot: usize)
    ensures { LosesKey keys.old keys.new (slot_key print slot) }
{
    let _ = keys.remove(&slot_key(print, slot));
}
