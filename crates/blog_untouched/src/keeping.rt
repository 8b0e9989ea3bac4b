//! Which selected changes are kept.

ghost use Rattle.std.specs.Prelude.{◌≡◌, ℕ, IfOk, List, map};
ghost use Rattle.std.specs.List.{AllByRecursion};
ghost use Rattle.blog_undo.specs.Mixed.{Marked, TableRow};
ghost use Rattle.blog_untouched.specs.ByPrints.{part_by};
ghost use Rattle.blog_untouched.specs.Recorded.{IsRecorded, marks_in};
ghost use Rattle.blog_untouched.specs.Rows.{IsNext, IsTouched, left_out};

use crate::rows::{SelectedRow, TakenRow, Touched};
use crate::takers::{SeededState, add_others, add_selected, taker_of};
use indexmap::IndexMap;
use std::alloc::{AllocError, Allocator};

/// The part of the selected changes that can be undone while all other changes are left, and why the rest can't.
#[derive(Drop)]
pub struct Kept<A: Allocator> {
    /// For each selected change, whether it is in the part.
    pub marks: Vec<bool, A>,
    /// The selected changes that aren't in it, from the last to the first.
    pub touched: Vec<Touched, A>,
}

/// Returns which selected changes can be undone while all other changes are left, and what touches the others. `rows` are the rows
/// of the selected changes, in order, by their fingerprints. `taken` are the rows that the other changes take, in order, if a selected
/// change before them left a row with the same fingerprint.
///
/// From the last change to the first, a selected change is kept if no change after it takes a row with the fingerprint of the one
/// that it left, other than kept changes. So the kept ones can be undone, and if rows that differ have different fingerprints, no
/// other choice keeps more. Fails if out of memory. Fingerprints are looked up in a hash table, and `seed` is the seed of its hashes.
pub fn kept_changes<A: Allocator + Copy>(
    alloc: A,
    seed: u64,
    rows: &[SelectedRow],
    taken: &[TakenRow],
) -> Result<Kept<A>, AllocError>
    ensures marks { (f : TableRow → ℕ) → (ms : List Marked) → IsRecorded f ms rows.now taken.now → IfOk result (λ kept. kept.marks.items ≡ marks_in ms (part_by f ms)) }
    ensures left_out { IfOk result (λ kept. map (λ t. t.row) kept.touched.items ≡ left_out 0 kept.marks.items) }
    ensures touched { IfOk result (λ kept. AllByRecursion (IsTouched rows.now taken.now kept.marks.items) kept.touched.items) }
    ensures next { (f : TableRow → ℕ) → (ms : List Marked) → IsRecorded f ms rows.now taken.now
        → IfOk result (λ kept. AllByRecursion (IsNext rows.now taken.now kept.marks.items) kept.touched.items) }
{
    let mut marks = vec![in alloc; true; rows.len()]?;
    let mut touched = Vec::new(alloc);
    let mut takers = IndexMap::with_hasher(alloc, SeededState { seed });
    let mut first = taken.len();
    let mut row = rows.len();
    'row: while row > 0 {
        row -= 1;
        first = add_others(&mut takers, taken, first, row)?;
        let by = taker_of(&takers, rows[row].left());
        marks[row] = by.is_none();
        if let Some(by) = by {
            touched.push(Touched { row, by })?;
            add_selected(&mut takers, rows[row].taken(), row)?;
        }
    }
    Ok(Kept { marks, touched })
}
