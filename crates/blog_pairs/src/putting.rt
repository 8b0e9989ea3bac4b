//! Pairs that take the places of others.

ghost use Rattle.std.specs.Prelude.{◌≡◌, ◌<◌, ℕ, IfOk, IfSome, List, OnErr, OnOk, length, option_map, vec_len};
ghost use Rattle.blog_merge.specs.Merge.{merged};
ghost use Rattle.blog_row.specs.Image.{row_of};
ghost use Rattle.blog_pairs.specs.code.ColumnsView.{columns_told};
ghost use Rattle.blog_pairs.specs.code.PairsView.{Fits};
ghost use Rattle.blog_pairs.specs.code.Placed.{are_equal, kept_pair, placed, would_at, would_told};

use crate::changed::ChangedTable;
use crate::columns::Columns;
use crate::held::{HeldPair, HeldPairs};
use std::alloc::{AllocError, Allocator};

/// Returns a copy of an image. Fails if out of memory.
pub(crate) fn copied<A: Allocator>(alloc: A, image: &[u8]) -> Result<Vec<u8, A>, AllocError>
    ensures { IfOk result (λ copy. copy.items ≡ image.now) }
{
    let mut copy = Vec::new(alloc);
    copy.extend_from_slice(image)?;
    Ok(copy)
}

/// Returns a copy of an image, if there is one. Fails if out of memory.
pub(crate) fn copied_would<A: Allocator>(
    alloc: A,
    would: Option<&[u8]>,
) -> Result<Option<Vec<u8, A>>, AllocError>
    ensures { IfOk result (λ copy. option_map (λ image. image.items) copy ≡ option_map (λ image. image.now) would.entry) }
{
    match would {
        Some(would) => Ok(Some(copied(alloc, would)?)),
        None => Ok(None),
    }
}

/// Returns the image of a row, if there is one, after an update that changes another row from `before` to `after` is made to it. Fails if out of memory.
pub(crate) fn merged_would<A: Allocator + Copy>(
    alloc: A,
    columns: &Columns<'_>,
    before: &[u8],
    after: &[u8],
    would: Option<&[u8]>,
) -> Result<Option<Vec<u8, A>>, AllocError>
    ensures { IfOk result (λ merged_image. option_map (λ image. row_of (columns_told columns.now) image.items) merged_image
        ≡ option_map (λ image. merged (row_of (columns_told columns.now) before.now) (row_of (columns_told columns.now) after.now) (row_of (columns_told columns.now) image.now)) would.entry) }
{
    match would {
        Some(would) => Ok(Some(columns.merged_image(alloc, before, after, would)?)),
        None => Ok(None),
    }
}

/// Returns the image of what the row of a pair would be.
pub(crate) fn would_image<A: Allocator>(pair: &HeldPair<A>) -> Option<&[u8]>
    ensures { option_map (λ image. image.now) result ≡ option_map (λ image. image.items) pair.now.would }
{
    match &pair.would {
        Some(would) => Some(would.as_slice()),
        None => None,
    }
}

/// Returns the image of what the row of a slot would be.
fn would_of<A: Allocator>(slot: &Option<HeldPair<A>>) -> Option<&[u8]>
    ensures { option_map (λ image. image.now) result ≡ would_told slot.now }
{
    match slot {
        Some(pair) => would_image(pair),
        None => None,
    }
}

/// Returns the image of what a row would be, by the pair in its place.
pub(crate) fn would_at<'b, A: Allocator>(
    slots: &'b [Option<HeldPair<A>>],
    place: Option<usize>,
    image: &'b [u8],
) -> Option<&'b [u8]>
    requires { IfSome place (λ k. k < length slots.now) }
    ensures { option_map (λ image. image.now) result ≡ would_at place image.now slots.now }
{
    match place {
        Some(k) => would_of(&slots[k]),
        None => Some(image),
    }
}

/// Returns whether the two rows of a pair are equal.
fn are_equal<A: Allocator>(pair: &HeldPair<A>, columns: &Columns<'_>) -> bool
    ensures { result ≡ are_equal (columns_told columns.now) (option_map (λ would. would.items) pair.now.would) pair.now.real.items }
{
    match &pair.would {
        Some(would) => columns.is_same_row(would, &pair.real),
        None => false,
    }
}

/// Returns a pair, unless its two rows are equal.
fn unless_equal<A: Allocator>(pair: HeldPair<A>, columns: &Columns<'_>) -> Option<HeldPair<A>>
    ensures { result ≡ kept_pair (columns_told columns.now) pair }
{
    if are_equal(&pair, columns) {
        None
    } else {
        Some(pair)
    }
}

/// Puts a pair of a table in a place, or at the end. A pair of equal rows is left out, and its place is empty then. `before` is the
/// fingerprint of the row whose place it is. Fails if out of memory, and then nothing changes.
pub(crate) fn put<A: Allocator + Copy>(
    pairs: &mut HeldPairs<A>,
    table: &ChangedTable<'_>,
    place: Option<usize>,
    before: u64,
    pair: HeldPair<A>,
) -> Result<(), AllocError>
    requires within { IfSome place (λ k. k < vec_len pairs.old.slots) }
    requires own { pair.table ≡ table.now.number }
    ensures done { OnOk result (pairs.new.slots.items ≡ placed place (kept_pair (columns_told table.now.columns) pair) pairs.old.slots.items) }
    ensures failed { OnErr result (pairs.new.slots.items ≡ pairs.old.slots.items) }
    ensures fits { (bodies : List (List ℕ)) → Fits bodies pairs.old table.now → Fits bodies pairs.new table.now }
{
    let print = table.print(&pair.real);
    let kept = unless_equal(pair, &table.columns);
    match place {
        Some(slot) => match kept {
            Some(pair) => pairs.replace(slot, before, print, pair),
            None => {
                pairs.clear(slot, before);
                Ok(())
            }
        },
        None => match kept {
            Some(pair) => pairs.push(print, pair),
            None => Ok(()),
        },
    }
}
