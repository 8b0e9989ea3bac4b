//! How many rows a merge updates, and how many stay.

ghost use Rattle.std.specs.Prelude.{◌≡◌, ◌≤◌, length, option_map, option_to_list};
ghost use Rattle.blog_merge.specs.Merge.{staying};
ghost use Rattle.blog_pairs.specs.code.TableView.{pair_seen, pairs_told};
ghost use Rattle.blog_merged.specs.Nets.{nets_of};

use blog_pairs::{PairTable, RowPair};
use std::alloc::Allocator;

/// Returns how many rows of a place are updated to what they would be: one or none.
fn merged_in(pair: Option<RowPair<'_>>) -> usize
    ensures number { result ≡ length (nets_of (option_to_list (option_map pair_seen pair.entry))) }
    ensures few { result ≤ 1 }
{
    let Some(pair) = pair else {
        return 0;
    };
    match pair.would {
        Some(_) => 1,
        None => 0,
    }
}

/// Returns how many rows of a place wouldn't be there, and stay: one or none.
fn staying_in(pair: Option<RowPair<'_>>) -> usize
    ensures number { result ≡ length (staying (option_to_list (option_map pair_seen pair.entry))) }
    ensures few { result ≤ 1 }
{
    let Some(pair) = pair else {
        return 0;
    };
    match pair.would {
        Some(_) => 0,
        None => 1,
    }
}

/// Returns how many rows are updated to what they would be.
pub fn rows_merged<A: Allocator>(pairs: &PairTable<A>) -> usize
    ensures { result ≡ length (nets_of (pairs_told pairs.now)) }
{
    let mut rows = 0;
    for place in 0..pairs.places() {
        rows += merged_in(pairs.pair(place));
    }
    rows
}

/// Returns how many rows wouldn't be there, and stay.
pub fn rows_staying<A: Allocator>(pairs: &PairTable<A>) -> usize
    ensures { result ≡ length (staying (pairs_told pairs.now)) }
{
    let mut rows = 0;
    for place in 0..pairs.places() {
        rows += staying_in(pairs.pair(place));
    }
    rows
}
