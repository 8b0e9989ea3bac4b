//! All short lists of changes of two rows.

use crate::changes::{Change, check};
use std::process::Abort;
use std::test::Fail;

/// The rows that a change takes and leaves.
const ROWS: [(Option<u64>, Option<u64>); 8] = [
    (None, Some(0)),
    (None, Some(1)),
    (Some(0), None),
    (Some(1), None),
    (Some(0), Some(0)),
    (Some(0), Some(1)),
    (Some(1), Some(0)),
    (Some(1), Some(1)),
];

/// Returns the change of a number: eight by their rows, selected or not.
fn change_of(number: u32) -> Option<Change> {
    let (taken, left) = ROWS.get((number / 2 % 8) as usize).copied()?;
    Some(Change {
        taken,
        left,
        selected: number % 2 == 1,
    })
}

/// Checks all lists of so many changes. `lists` is how many there are.
fn check_lists(rt: &(impl AllocGlobal + Abort), len: u32, lists: u32) -> Result<(), Fail> {
    let mut changes = Vec::new(rt.alloc());
    for number in 0..lists {
        changes.clear();
        let mut rest = number;
        for _ in 0..len {
            changes.push(change_of(rest % 16).ok_or("a change")?)?;
            rest /= 16;
        }
        check(rt, &changes)?;
    }
    Ok(())
}

#[test]
fn short_lists(rt: HostRuntime) -> Result<(), Fail> {
    for (len, lists) in [(0, 1), (1, 16), (2, 256), (3, 4096), (4, 65_536)] {
        check_lists(&rt, len, lists)?;
    }
    Ok(())
}
