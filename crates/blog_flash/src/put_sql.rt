//! Groups as pseudo-SQL.

ghost use Rattle.std.specs.Prelude.{◌≡◌, ◌+◌, ◌≤◌, ◌++◌, length, IfOk, OnOk, IsOk, vec_len, vec_capacity};
ghost use Rattle.blog_trans.specs.declared.group_events.GroupEvent.TheVariants as GroupEvent;
ghost use Rattle.blog_trans.specs.Groups.{groups};
ghost use Rattle.blog_trans.specs.code.GroupEventsView.{event_seen, IsByMap, IsWhole};
ghost use Rattle.blog_trans.specs.code.IndexView.{index_bytes, index_selection};
ghost use Rattle.blog_flash.specs.Printed.{sql_text};
ghost use Rattle.blog_flash.specs.code.PrintedRows.{event_lines};

use crate::printed::{put_change, put_line};
use blog_row::{Order, StoredLayout};
use blog_trans::{GroupEvent, GroupRows, Index};
use std::alloc::{AllocError, Allocator};

/// Appends the rows of a rows event.
fn put_changes<A: Allocator>(out: &mut Vec<u8, A>, group: &GroupRows<'_>) -> Result<(), AllocError>
    requires { IsByMap group.now }
    ensures ok { OnOk result (out.new.items ≡ out.old.items ++ event_lines (event_seen (GroupEvent.Rows group.now))) }
    ensures room { vec_len out.old + length (event_lines (event_seen (GroupEvent.Rows group.now))) ≤ vec_capacity out.old → IsOk result }
    ensures capacity { vec_capacity out.old ≤ vec_capacity out.new }
{
    let layout = StoredLayout::new(&group.rows.layout(), group.rows.rows_len());
    for row in group.rows.rows() {
        put_change(out, &group.table, &layout, &row)?;
    }
    Ok(())
}

/// Appends the lines of an event of the groups.
fn put_group_event<A: Allocator>(
    out: &mut Vec<u8, A>,
    event: &GroupEvent<'_>,
) -> Result<(), AllocError>
    requires { IsWhole event.now }
    ensures ok { OnOk result (out.new.items ≡ out.old.items ++ event_lines (event_seen event.now)) }
    ensures room { vec_len out.old + length (event_lines (event_seen event.now)) ≤ vec_capacity out.old → IsOk result }
    ensures capacity { vec_capacity out.old ≤ vec_capacity out.new }
{
    match event {
        GroupEvent::Begin(_) => put_line(out, b"BEGIN"),
        GroupEvent::Map(_) => Ok(()),
        GroupEvent::Rows(rows) => put_changes(out, rows),
        GroupEvent::End(_) => put_line(out, b"COMMIT"),
    }
}

/// Appends all transactions.
fn put_transactions<A: Allocator, B: Allocator>(
    out: &mut Vec<u8, A>,
    index: &Index<'_, '_, B>,
) -> Result<(), AllocError>
    ensures ok { OnOk result (out.new.items ≡ out.old.items ++ sql_text (groups (index_bytes index.now) (index_selection index.now))) }
    ensures room { vec_len out.old + length (sql_text (groups (index_bytes index.now) (index_selection index.now))) ≤ vec_capacity out.old → IsOk result }
    ensures capacity { vec_capacity out.old ≤ vec_capacity out.new }
{
    for event in index.in_turn(Order::Forward) {
        put_group_event(out, &event)?;
    }
    Ok(())
}

/// The groups of an index as pseudo-SQL; an error where memory was refused.
pub(crate) fn put_sql<A: Allocator, B: Allocator>(
    alloc: A,
    index: &Index<'_, '_, B>,
) -> Result<Vec<u8, A>, AllocError>
    ensures { IfOk result (λ text. text.items ≡ sql_text (groups (index_bytes index.now) (index_selection index.now))) }
{
    let mut out = Vec::new(alloc);
    put_transactions(&mut out, index)?;
    Ok(out)
}
