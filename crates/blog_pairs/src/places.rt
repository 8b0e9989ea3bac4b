//! Where the pair of a row is.

ghost use Rattle.std.specs.Prelude.{◌≡◌, ◌<◌, ◌==◌, ◌&&◌, ℕ, IfSome, List, vec_len};
ghost use Rattle.std.specs.Cmp.Lexicographic.{pointwise};
ghost use Rattle.blog_flash.specs.States.{is_same_value};
ghost use Rattle.blog_row.specs.Image.{row_of};
ghost use Rattle.blog_pairs.specs.Places.{place_of};
ghost use Rattle.blog_pairs.specs.code.ColumnsView.{columns_told};
ghost use Rattle.blog_pairs.specs.code.PairsView.{Fits, holds_row, slots_told, table_at};

use crate::changed::ChangedTable;
use crate::held::{HeldPair, HeldPairs};
use crate::keys::next_slot;
use std::alloc::Allocator;

/// Returns whether a pair is that of a row of a table.
fn is_of<A: Allocator>(pair: &HeldPair<A>, table: &ChangedTable<'_>, image: &[u8]) -> bool
    ensures { result ≡ (pair.now.table == table.now.number && pointwise is_same_value (row_of (columns_told table.now.columns) image.now) (row_of (columns_told table.now.columns) pair.now.real.items)) }
{
    pair.table == table.number && table.columns.is_same_row(image, &pair.real)
}

/// Returns whether a slot has the pair of a row of a table.
fn holds<A: Allocator>(slot: &Option<HeldPair<A>>, table: &ChangedTable<'_>, image: &[u8]) -> bool
    ensures { result ≡ holds_row table.now.number (columns_told table.now.columns) image.now slot.now }
{
    match slot {
        Some(pair) => is_of(pair, table, image),
        None => false,
    }
}

/// Returns the number of the first slot that has the pair of a row of a table. Among the rows with the same fingerprint it looks at each.
pub(crate) fn place_of<A: Allocator>(
    pairs: &HeldPairs<A>,
    table: &ChangedTable<'_>,
    image: &[u8],
) -> Option<usize>
    ensures place { (bodies : List (List ℕ)) → Fits bodies pairs.now table.now
        → result ≡ place_of (table_at bodies table.now.number) (row_of (columns_told table.now.columns) image.now) (slots_told bodies pairs.now.slots.items) }
    ensures within { IfSome result (λ k. k < vec_len pairs.now.slots) }
{
    let print = table.print(image);
    let len = pairs.slots.len();
    let mut from = 0;
    'slots: while let Some(slot) = next_slot(&pairs.keys, print, from) {
        if slot >= len {
            return None;
        }
        if holds(&pairs.slots[slot], table, image) {
            return Some(slot);
        }
        from = slot + 1;
    }
    None
}
