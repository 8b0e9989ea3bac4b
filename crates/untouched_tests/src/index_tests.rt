//! The rows of the changes of an index.

use blog_event::Log;
use blog_trans::{Selection, index};
use blog_untouched::{SelectedRow, selected_rows};
use sample_logs::builder::{BEGIN, Part, T, XID, build, delete, insert, update};
use std::test::Fail;

#[test]
fn equal_rows_have_equal_fingerprints(rt: HostRuntime) -> Result<(), Fail> {
    let map = Part::Map(T);
    let inserts = insert(1, &[1, 2]);
    let updates = update(1, &[1, 3]);
    let deletes = delete(1, &[2]);
    let parts = [BEGIN, map, inserts, map, updates, map, deletes, XID];
    let bytes = build(&rt, &parts)?;
    let index = index(rt.alloc(), &Log::open(&bytes)?, &Selection::all())?;
    let rows = selected_rows(rt.alloc(), &index)?;
    assert!(rt; rows.len() == 4);
    let mut prints = rows.iter();
    let (Some(SelectedRow::Inserted(one)), Some(SelectedRow::Inserted(two))) = (
        prints.next(),
        prints.next(),
    ) else {
        return Err("two rows that are inserted".into());
    };
    let Some(SelectedRow::Updated(before, after)) = prints.next() else {
        return Err("a row that is updated".into());
    };
    assert!(rt; before == one && after != one && after != two && one != two);
    assert!(rt; prints.next() == Some(&SelectedRow::Deleted(*two)));
    Ok(())
}
