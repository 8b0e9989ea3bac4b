//! Changes of one row after the other, and of equal rows.

use crate::changes::{Change, check, record_changes};
use blog_untouched::{Taker, Touched, kept_changes};
use std::process::Abort;
use std::test::Fail;

/// A selected update.
fn selected(taken: u64, left: u64) -> Change {
    Change {
        taken: Some(taken),
        left: Some(left),
        selected: true,
    }
}

/// An update that isn't selected.
fn other(taken: u64, left: u64) -> Change {
    Change {
        selected: false,
        ..selected(taken, left)
    }
}

/// A row that is inserted, or deleted.
fn inserted(left: u64, selected: bool) -> Change {
    Change {
        taken: None,
        left: Some(left),
        selected,
    }
}

fn deleted(taken: u64, selected: bool) -> Change {
    Change {
        taken: Some(taken),
        left: None,
        selected,
    }
}

/// Checks which of the selected changes are kept, and by which change each of the others is touched, from the last on.
fn check_chain(
    rt: &(impl AllocGlobal + Abort),
    changes: &[Change],
    marks: &[bool],
    touched: &[(usize, Taker)],
) -> Result<(), Fail> {
    check(rt, changes)?;
    let recorded = record_changes(rt, changes)?;
    let kept = kept_changes(rt.alloc(), 0, &recorded.rows, &recorded.taken)?;
    assert!(rt; kept.marks.as_slice() == marks);
    assert!(rt; kept.touched.len() == touched.len());
    for (found, (row, by)) in kept.touched.iter().zip(touched) {
        assert!(rt; *found == Touched { row: *row, by: *by });
    }
    Ok(())
}

#[test]
fn a_row_changed_twice(rt: HostRuntime) -> Result<(), Fail> {
    // nobody else changes it
    check_chain(&rt, &[selected(1, 2), selected(2, 3)], &[true, true], &[])?;
    // others change it before
    let before = [other(0, 1), selected(1, 2), selected(2, 3)];
    check_chain(&rt, &before, &[true, true], &[])?;
    // between
    let between = [selected(1, 2), other(2, 3), selected(3, 4)];
    let by = (0, Taker::Other(0));
    check_chain(&rt, &between, &[false, true], &[by])?;
    // after: the first is touched by the second, which isn't kept
    let after = [selected(1, 2), selected(2, 3), other(3, 4)];
    let touched = [(1, Taker::Other(0)), (0, Taker::Selected(1))];
    check_chain(&rt, &after, &[false, false], &touched)
}

#[test]
fn another_row_in_between(rt: HostRuntime) -> Result<(), Fail> {
    let changes = [
        selected(10, 20),
        selected(1, 2),
        other(5, 6),
        selected(2, 3),
        other(3, 4),
        selected(20, 30),
    ];
    let touched = [(2, Taker::Other(0)), (1, Taker::Selected(2))];
    check_chain(&rt, &changes, &[true, false, false, true], &touched)
}

#[test]
fn equal_rows(rt: HostRuntime) -> Result<(), Fail> {
    // each of two equal rows is left, and another change takes one of them
    let two = [inserted(1, true), inserted(1, true), deleted(1, false)];
    let touched = [(1, Taker::Other(0)), (0, Taker::Other(0))];
    check_chain(&rt, &two, &[false, false], &touched)?;
    // the other change comes in between
    let amid = [inserted(1, true), deleted(1, false), inserted(1, true)];
    check_chain(&rt, &amid, &[false, true], &[(0, Taker::Other(0))])
}

#[test]
fn deleted_rows_inserted_again(rt: HostRuntime) -> Result<(), Fail> {
    let again = [
        deleted(1, true),
        deleted(2, true),
        inserted(1, false),
        inserted(2, false),
    ];
    check_chain(&rt, &again, &[true, true], &[])?;
    // and deleted once more
    let gone = [deleted(1, true), inserted(1, false), deleted(1, false)];
    check_chain(&rt, &gone, &[true], &[])
}

#[test]
fn places_out_of_order(rt: HostRuntime) -> Result<(), Fail> {
    // the call returns, though nothing is promised of the marks
    let recorded = record_changes(
        &rt,
        &[selected(1, 2), other(2, 3), selected(3, 4), other(4, 5)],
    )?;
    let mut taken = recorded.taken.clone()?;
    taken.reverse();
    for row in &mut taken {
        row.before = row.before.wrapping_mul(usize::MAX / 2);
    }
    let kept = kept_changes(rt.alloc(), 0, &recorded.rows, &taken)?;
    assert!(rt; kept.marks.len() == 2);
    Ok(())
}
