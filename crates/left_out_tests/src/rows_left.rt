//! The rows that logs change, and those that stay.

use blog_event::Log;
use blog_flash::forward;
use blog_left_out::{LeaveOutFault, LeftOut, leave_out};
use blog_row::{Order, RowChange};
use blog_trans::{GroupEvent, Selection, index};
use std::alloc::{Allocator, Global};
use std::process::Abort;
use std::test::Fail;

/// A change of a row, by its images.
#[derive(Clone, Copy, Debug, PartialEq, Eq)]
pub struct TableChange<'a> {
    pub schema: &'a [u8],
    pub table: &'a [u8],
    pub change: RowChange<'a>,
}

/// The changes of a log, in order.
pub fn changes_of<'a>(
    alloc: Global,
    bytes: &'a [u8],
    sel: &Selection<'_>,
) -> Result<Vec<TableChange<'a>>, Fail> {
    let log = Log::open(bytes)?;
    let index = index(alloc, &log, sel)?;
    let mut changes = Vec::new(alloc);
    for event in index.in_turn(Order::Forward) {
        if let GroupEvent::Rows(group) = event {
            for change in group.rows.rows() {
                changes.push(TableChange {
                    schema: group.table.schema(),
                    table: group.table.table(),
                    change,
                })?;
            }
        }
    }
    Ok(changes)
}

/// The log of the rows that stay.
pub fn left_of<A: Allocator + Copy>(
    alloc: A,
    rt: &impl AllocGlobal,
    bytes: &[u8],
    sel: &Selection<'_>,
    marks: &[bool],
) -> Result<Result<LeftOut<A>, LeaveOutFault>, Fail> {
    let log = Log::open(bytes)?;
    let index = index(rt.alloc(), &log, sel)?;
    Ok(leave_out(alloc, &index, marks))
}

/// Checks the log of the rows that stay: its changes are those with a true mark, it is in normal form, and each of its statements is one
/// map and one rows event.
pub fn check_left(
    rt: &(impl AllocGlobal + Abort),
    bytes: &[u8],
    sel: &Selection<'_>,
    marks: &[bool],
) -> Result<(), Fail> {
    let left = left_of(rt.alloc(), rt, bytes, sel, marks)?.expect(rt, "room for the log");
    let index = left.index(rt.alloc(), 7)?;
    let text = index.log().bytes();
    assert!(rt; text.len() == left.len());
    assert!(rt; forward(rt.alloc(), text, &Selection::all())?.as_slice() == text);
    let mut stay = Vec::new(rt.alloc());
    for (change, mark) in changes_of(rt.alloc(), bytes, sel)?.iter().zip(marks) {
        if *mark {
            stay.push(*change)?;
        }
    }
    assert!(rt; changes_of(rt.alloc(), text, &Selection::all())? == stay);
    let mut map = None;
    for event in index.in_turn(Order::Forward) {
        match event {
            GroupEvent::Begin(_) | GroupEvent::End(_) => assert!(rt; map == None),
            GroupEvent::Map(event) => {
                assert!(rt; map == None);
                map = Some(event.pos);
            }
            GroupEvent::Rows(rows) => {
                assert!(rt; map == Some(rows.map.pos));
                assert!(rt; rows.last);
                map = None;
            }
        }
    }
    Ok(())
}
