//! Rows that are followed through changes of others, and the changes that are kept.

use crate::kept::KeptChanges;
use std::alloc::Allocator;
use std::collections::BTreeSet;

/// Rows that are followed through changes of others, by fingerprints, and the changes that are kept.
///
/// At first those rows are followed that selected changes left: `LeftRows` has them. Each change of others that takes a followed row leaves one that
/// is followed from then on.
#[derive(Drop)]
pub struct Followed<A: Allocator> {
    /// The fingerprints of the rows that followed changes left.
    pub(crate) prints: BTreeSet<u64, A>,
    /// The changes that are kept.
    pub(crate) kept: KeptChanges<A>,
}
