//! The columns of the selected tables of the range.

ghost use Rattle.std.specs.Prelude.{◌≡◌, ◌&&◌, ◌+◌, ◌<◌, ◌≤◌, ◌^◌, List, Some, None, Ok, IfOk, IfSome, OnOk, IsErrAnd, MatchResult, option_map, slice_get};
ghost use Rattle.indexmap.specs.IndexMap.{index_map_len};
ghost use Rattle.blog_event.specs.Event.{Event as Fields};
ghost use Rattle.blog_event.specs.File.{Placed};
ghost use Rattle.blog_row.specs.TableMap.{names_of, map_names};
ghost use Rattle.blog_row.specs.declared.event_kinds.EventKind.TheVariants as kind;
ghost use Rattle.blog_row.specs.Kinds.{kind_of};
ghost use Rattle.blog_trans.specs.Acceptance.{cause_of_row};
ghost use Rattle.blog_trans.specs.code.CheckerView.{LayoutsAgree, AreColumns};
ghost use Rattle.blog_trans.specs.Selection.{selection_of, is_wanted};
ghost use Rattle.blog_trans.specs.code.TablesView.{table_named, tables_known, HaveGrown};

use crate::selection::Selection;
use crate::table_name::{TableName, TableNameHasher};
use blog_event::Fault;
use blog_row::{Layout, RowFault, TableMap};
use indexmap::IndexMap;
use std::alloc::Allocator;

/// The columns of each selected table, by its name; all its maps in the range have the same. A table's number is its
/// place among them, which are in the order of their first maps.
pub(crate) type Layouts<'a, A> = IndexMap<TableName<'a>, Layout<'a>, TableNameHasher, A>;

/// A selected table, as a table map tells of it.
#[derive(Clone, Copy, Debug)]
pub(crate) struct SelectedTable<'a> {
    /// Its number.
    pub(crate) number: u32,
    /// Its columns.
    pub(crate) layout: Layout<'a>,
}

/// What was read of an event's body, or the event's fault.
pub(crate) fn in_body<T>(read: Result<T, RowFault>, pos: u32) -> Result<T, Fault>
    ensures { MatchResult result (λ x. read ≡ Ok x) (λ f. IsErrAnd read (λ cause. f ≡ cause_of_row cause pos)) }
{
    match read {
        Ok(read) => Ok(read),
        Err(RowFault::PartialImage) => Err(Fault::PartialImage { pos }),
        Err(RowFault::UnknownType) => Err(Fault::UnknownType { pos }),
        Err(RowFault::BadBody) => Err(Fault::BadBody { pos }),
    }
}

/// Whether a name is wanted, where one is given.
fn is_wanted(wanted: Option<&[u8]>, name: &[u8]) -> bool
    ensures { result ≡ is_wanted (option_map (λ w. w.now) wanted.entry) name.now }
{
    wanted.is_none_or(|wanted| name == wanted)
}

/// Takes a table map's table, where it is selected: its columns are those of the table's earlier maps in the range.
pub(crate) fn take_table<'a, A: Allocator>(
    layouts: &mut Layouts<'a, A>,
    sel: &Selection<'_>,
    map: &TableMap<'a>,
    pos: u32,
) -> Result<Option<SelectedTable<'a>>, Fault>
    requires few { index_map_len layouts.old < 2 ^ 32 }
    ensures columns { (e : Fields) (earlier : List Placed) → kind_of e ≡ kind.TableMap → names_of e.body ≡ Some (map_names map.now) → LayoutsAgree (selection_of sel.now) earlier layouts.old → AreColumns (selection_of sel.now) earlier (record { pos = pos; event = e }) result layouts.new }
    ensures number { IfOk result (λ table. IfSome table (λ t. slice_get (tables_known layouts.new) t.number ≡ Some (map_names map.now).table)) }
    ensures grown { OnOk result (HaveGrown (tables_known layouts.old) (tables_known layouts.new)) }
    ensures few { OnOk result (index_map_len layouts.new ≤ index_map_len layouts.old + 1) }
{
    let (schema, table) = (map.schema(), map.table());
    if !(is_wanted(sel.database, schema) && is_wanted(sel.table, table)) {
        return Ok(None);
    }
    let layout = in_body(map.layout(), pos)?;
    let (number, known) = layouts.insert_full(TableName { schema, table }, layout)?;
    match known {
        Some(known) if !known.same(&layout) => Err(Fault::MapClash { pos }),
        _ => {
            let number = number as u32;
            Ok(Some(SelectedTable { number, layout }))
        }
    }
}
