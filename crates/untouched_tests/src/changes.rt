//! Changes by the rows that they take and leave, and which of them are kept: each is compared with each after it.

use blog_untouched::{SelectedRow, TakenRow, Taker, kept_changes};
use std::process::Abort;
use std::test::Fail;

/// A change, by the fingerprints of the rows that it takes and leaves.
#[derive(Clone, Copy, Debug, PartialEq, Eq)]
pub(crate) struct Change {
    pub(crate) taken: Option<u64>,
    pub(crate) left: Option<u64>,
    pub(crate) selected: bool,
}

/// What is recorded of changes.
#[derive(Drop)]
pub(crate) struct Recorded {
    pub(crate) rows: Vec<SelectedRow>,
    pub(crate) taken: Vec<TakenRow>,
    /// Where the selected changes are in the list, and where the others are that take the rows.
    rows_at: Vec<usize>,
    taken_at: Vec<usize>,
}

/// Returns the row of a selected change.
fn row_of(change: Change) -> SelectedRow {
    match (change.taken, change.left) {
        (Some(taken), Some(left)) => SelectedRow::Updated(taken, left),
        (Some(taken), None) => SelectedRow::Deleted(taken),
        (None, left) => SelectedRow::Inserted(left.unwrap_or(0)),
    }
}

/// Returns whether one of the selected changes left a row.
fn is_left(rows: &[SelectedRow], print: u64) -> bool {
    for row in rows {
        match *row {
            SelectedRow::Inserted(left) | SelectedRow::Updated(_, left) if left == print => {
                return true;
            }
            _ => {}
        }
    }
    false
}

/// Records changes: the selected ones, and the rows that the others take and that selected ones before them left.
pub(crate) fn record_changes(
    rt: &(impl AllocGlobal + Abort),
    changes: &[Change],
) -> Result<Recorded, Fail> {
    let mut rows = Vec::new(rt.alloc());
    let mut taken = Vec::new(rt.alloc());
    let mut rows_at = Vec::new(rt.alloc());
    let mut taken_at = Vec::new(rt.alloc());
    for (place, change) in changes.iter().enumerate() {
        if change.selected {
            rows.push(row_of(*change))?;
            rows_at.push(place)?;
        } else if let Some(print) = change.taken {
            if is_left(&rows, print) {
                let before = rows.len();
                taken.push(TakenRow { before, print })?;
                taken_at.push(place)?;
            }
        }
    }
    Ok(Recorded {
        rows,
        taken,
        rows_at,
        taken_at,
    })
}

impl Recorded {
    /// Returns where the change is that takes a row.
    pub(crate) fn place_of(&self, by: Taker) -> Option<usize> {
        match by {
            Taker::Selected(n) => self.rows_at.get(n).copied(),
            Taker::Other(n) => self.taken_at.get(n).copied(),
        }
    }
}

/// Returns the first change after a place that isn't kept, and takes the row that the change there left.
fn toucher(changes: &[Change], kept: &[bool], place: usize) -> Option<usize> {
    let left = changes.get(place)?.left?;
    for (later, (change, is_kept)) in changes.iter().zip(kept).enumerate() {
        if later > place && !*is_kept && change.taken == Some(left) {
            return Some(later);
        }
    }
    None
}

/// Returns which changes are kept: from the last to the first, the selected ones that no other change touches.
fn kept_by_rows(rt: &(impl AllocGlobal + Abort), changes: &[Change]) -> Result<Vec<bool>, Fail> {
    let mut kept: Vec<bool> = vec![in rt.alloc(); false; changes.len()]?;
    for place in (0..changes.len()).rev() {
        let touched = toucher(changes, &kept, place).is_some();
        let selected = changes.get(place).is_some_and(|change| change.selected);
        if let Some(mark) = kept.get_mut(place) {
            *mark = selected && !touched;
        }
    }
    Ok(kept)
}

/// Checks what is kept of changes, and what touches the others.
pub(crate) fn check(rt: &(impl AllocGlobal + Abort), changes: &[Change]) -> Result<(), Fail> {
    let recorded = record_changes(rt, changes)?;
    let wanted = kept_by_rows(rt, changes)?;
    let kept = kept_changes(rt.alloc(), 7, &recorded.rows, &recorded.taken)?;
    assert!(rt; kept.marks.len() == recorded.rows.len());
    let mut touched = kept.touched.iter().rev();
    for (place, mark) in recorded.rows_at.iter().zip(&kept.marks) {
        assert!(rt; wanted.get(*place) == Some(mark), "{changes:?}");
        if !*mark {
            let reason = touched.next().ok_or("a reason")?;
            assert!(rt;
                recorded.place_of(Taker::Selected(reason.row)) == Some(*place),
                "{changes:?}"
            );
            let by = recorded.place_of(reason.by);
            assert!(rt; by == toucher(changes, &wanted, *place), "{changes:?}");
        }
    }
    assert!(rt; touched.next().is_none(), "{changes:?}");
    Ok(())
}
