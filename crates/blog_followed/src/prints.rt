//! The fingerprints of rows that followed changes left.

ghost use Rattle.std.specs.Prelude.{◌≡◌, ◌++◌, ◌||◌, ℕ, OnOk, nat_eq};
ghost use Rattle.std.specs.List.{list_any};
ghost use Rattle.blog_followed.specs.code.FollowedView.{all_left};

use blog_later::LeftRows;
use std::alloc::{AllocError, Allocator};
use std::collections::BTreeSet;

/// Returns whether a row with this fingerprint is followed: whether one of the lists left such a row, or a followed change did.
pub(crate) fn is_followed<A: Allocator>(
    left: &LeftRows<A>,
    prints: &BTreeSet<u64, A>,
    print: u64,
) -> bool
    ensures { result ≡ list_any (nat_eq print) (all_left left.now ++ prints.now.keys) }
{
    left.has(print, u32::MAX) || prints.contains(&print)
}

/// Adds the fingerprint of a row. Fails if out of memory.
pub(crate) fn add_print<A: Allocator + Copy>(
    prints: &mut BTreeSet<u64, A>,
    print: u64,
) -> Result<(), AllocError>
    ensures { OnOk result ((q : ℕ) → list_any (nat_eq q) prints.new.keys ≡ (nat_eq q print || list_any (nat_eq q) prints.old.keys)) }
{
    prints.insert(print)?;
    Ok(())
}
