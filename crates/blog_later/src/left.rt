//! The rows that lists of changes left, by their fingerprints.

ghost use Rattle.std.specs.Prelude.{◌≡◌, nat_eq};
ghost use Rattle.std.specs.List.{list_any};
ghost use Rattle.std.specs.List.Sorted.{IsSorted};
ghost use Rattle.std.specs.Ordering.{nat_cmp};
ghost use Rattle.blog_later.specs.Prints.{prints_before};

use std::alloc::Allocator;

/// How many lists there may be, one more than the greatest number of one.
pub(crate) const LISTS: u128 = 1 << 32;

/// The rows that lists of changes left, by their fingerprints, with the number of the list, and by those of their tables: 24 bytes a row.
#[derive(Drop)]
pub struct LeftRows<A: Allocator> {
    // fingerprints times LISTS, and the number of the list
    pub(crate) rows: Vec<u128, A>,
    pub(crate) tables: Vec<u64, A>,
    ghost rows_sorted: { IsSorted nat_cmp rows.items },
    ghost tables_sorted: { IsSorted nat_cmp tables.items },
}

impl<A: Allocator> LeftRows<A> {
    /// Returns whether a row with this fingerprint was left by one of so many lists, from the first on.
    pub fn has(&self, print: u64, lists: u32) -> bool
        ensures { result ≡ list_any (nat_eq print) (prints_before lists self.now.rows.items) }
    {
        let first = u128::from(print) * LISTS;
        match self.rows.binary_search(&first) {
            Ok(_) => lists > 0,
            Err(n) => match self.rows.get(n) {
                Some(row) => *row < first + u128::from(lists),
                None => false,
            },
        }
    }

    /// Returns whether a row of a table with this fingerprint was left.
    pub fn has_table(&self, print: u64) -> bool
        ensures { result ≡ list_any (nat_eq print) self.now.tables.items }
    {
        self.tables.binary_search(&print).is_ok()
    }
}
