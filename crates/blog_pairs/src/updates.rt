//! Selected events, and the parts of update events that are held.

ghost use Rattle.std.specs.Prelude.{◌≡◌, ◌<◌, IfOk, Ok, vec_len};
ghost use Rattle.blog_row.specs.TableMap.{layout_of};
ghost use Rattle.blog_row.specs.code.LayoutView.{layout_columns};
ghost use Rattle.blog_pairs.specs.Tables.{AreApart, HasMore};
ghost use Rattle.blog_pairs.specs.code.ChangedView.{IsTableOf};
ghost use Rattle.blog_pairs.specs.code.PairsView.{bodies_of};

use crate::changed::ChangedTable;
use crate::fault::PairFault;
use crate::held::{HeldTable, HeldUpdate};
use crate::tables::changed_table;
use blog_row::{Layout, RowsAction};
use blog_trans::GroupRows;
use std::alloc::{AllocError, Allocator};

/// How many bytes the table id has.
const ID_LEN: usize = 6;

/// Returns the bytes of a body from one place up to another; none if it doesn't have these places.
fn bytes_between(body: &[u8], start: usize, end: usize) -> &[u8] {
    if start <= end && end <= body.len() {
        &body[start..end]
    } else {
        &[]
    }
}

/// Returns the body of a rows event before its images, with the table id of the body of a table map. Fails if out of memory.
fn front_of<A: Allocator>(
    alloc: A,
    map: &[u8],
    group: &GroupRows<'_>,
) -> Result<Vec<u8, A>, AllocError> {
    let body = group.event.body;
    let len = body.len().saturating_sub(group.rows.rows_len());
    let id = bytes_between(map, 0, ID_LEN);
    let rest = bytes_between(body, ID_LEN, len);
    let mut front = Vec::new(alloc);
    front.extend_from_slice(id)?;
    front.extend_from_slice(rest)?;
    Ok(front)
}

/// Holds the parts of an update event of the held table with a number, unless it has some. Another event is passed over. Fails if out of memory, and
/// then nothing changes.
fn hold_update<A: Allocator + Copy>(
    alloc: A,
    tables: &mut Vec<HeldTable<A>, A>,
    number: usize,
    group: &GroupRows<'_>,
) -> Result<(), AllocError>
    requires { number < vec_len tables.old }
    ensures { bodies_of tables.new.items ≡ bodies_of tables.old.items }
{
    if group.rows.kind().action != RowsAction::Update {
        return Ok(());
    }
    if tables[number].update.is_some() {
        return Ok(());
    }
    let front = front_of(alloc, &tables[number].body, group)?;
    tables[number].update = Some(HeldUpdate {
        map: group.map.header,
        rows: group.event.header,
        front,
    });
    Ok(())
}

/// Returns the table whose rows a selected event changes, by its columns. It is held from then on, and so are the parts of its first update event.
/// Fails with `OtherLayout` if it is held with other columns, or if out of memory.
pub(crate) fn selected_table<'b, A: Allocator + Copy>(
    alloc: A,
    tables: &mut Vec<HeldTable<A>, A>,
    group: &GroupRows<'_>,
    layout: &Layout<'b>,
) -> Result<ChangedTable<'b>, PairFault>
    requires known { layout_of group.now.map.body.now ≡ Ok (layout_columns layout.now) }
    requires apart { AreApart (bodies_of tables.old.items) }
    ensures apart { AreApart (bodies_of tables.new.items) }
    ensures more { HasMore (bodies_of tables.old.items) (bodies_of tables.new.items) }
    ensures table { IfOk result (λ table. IsTableOf (bodies_of tables.new.items) group.now.map.body.now (layout_columns layout.now) table) }
{
    let len = group.rows.rows_len();
    let table = changed_table(alloc, tables, group.map.body, layout, len)?;
    hold_update(alloc, tables, table.number, group)?;
    Ok(table)
}
