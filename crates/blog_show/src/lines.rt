//! Lines of rows.

ghost use Rattle.std.specs.Prelude.{◌≡◌, OnOk};
ghost use Rattle.blog_choice.specs.code.Views.{choice_value};
ghost use Rattle.blog_list.specs.code.Told.{source_place};
ghost use Rattle.blog_row.specs.RowsEvent.{rows_by};
ghost use Rattle.blog_row.specs.code.RowsEventView.{rows_body, rows_kind};
ghost use Rattle.blog_row.specs.declared.order.Order.TheVariants.{Forward};
ghost use Rattle.blog_trans.specs.code.GroupEventsView.{IsWhole, event_seen};
ghost use Rattle.blog_trans.specs.code.InTurn.{in_turn};
ghost use Rattle.blog_trans.specs.code.IndexView.{index_groups};
ghost use Rattle.blog_show.specs.Shown.{BeginsLine, PutsHead, PutsLine, PutsRows, ShowsEvent, ShowsEvents, ShowsRows};

use crate::csv_rows::{Head, put_new_head};
use crate::forms::{RowForm, RowStyle, mark_of, put_front};
use crate::room::{LineRoom, Parts};
use crate::tables::LastMap;
use blog_choice::TableChoice;
use blog_row::{Order, StoredLayout};
use blog_source::Source;
use blog_text::{put_number, put_text};
use blog_trans::{GroupEvent, GroupRows, Index};
use std::alloc::{AllocError, Allocator};

/// Puts what each line of an event begins with in place of what is there: its place, and what is told before the columns.
fn put_begin<A: Allocator>(
    begin: &mut Vec<u8, A>,
    parts: &mut Parts<A>,
    place: u32,
    group: &GroupRows<'_>,
    style: &RowStyle<'_>,
) -> Result<(), AllocError>
    ensures { OnOk result (BeginsLine style.now.form place begin.new.items) }
{
    parts.tell(place, group, style)?;
    begin.clear();
    put_front(begin, &style.form)?;
    put_number(begin, u64::from(place))?;
    put_text(begin, &[mark_of(&style.form)])?;
    put_text(begin, &parts.told)
}

/// Appends a line: what it begins with, and the rest.
#[tactic(auto, using(crate::proofs::Beginning::puts_line))]
fn put_line<A: Allocator>(
    out: &mut Vec<u8, A>,
    form: &RowForm<'_>,
    place: u32,
    begin: &[u8],
    rest: &[u8],
) -> Result<(), AllocError>
    requires { BeginsLine form.now place begin.now }
    ensures { OnOk result (PutsLine form.now place out.old.items out.new.items) }
{
    put_text(out, begin)?;
    put_text(out, rest)?;
    put_text(out, b"\n")
}

/// Appends a line for each row of an event.
fn put_lines<A: Allocator, B: Allocator>(
    out: &mut Vec<u8, A>,
    room: &mut LineRoom<A>,
    map: &LastMap<'_, B>,
    place: u32,
    group: &GroupRows<'_>,
    style: &RowStyle<'_>,
) -> Result<(), AllocError>
    ensures { OnOk result (ShowsRows style.now.form place (rows_by (rows_kind group.now.rows).action (rows_body group.now.rows).images) out.old.items out.new.items) }
{
    let begin = &mut room.begin;
    let parts = &mut room.parts;
    put_begin(begin, parts, place, group, style)?;
    let layout = StoredLayout::new(&group.rows.layout(), group.rows.rows_len());
    for row in group.rows.rows() {
        parts.fill(map, &layout, &row, style)?;
        put_line(out, &style.form, place, begin, &parts.line)?;
    }
    Ok(())
}

/// Appends the head of columns in CSV, of which each name has a comma in front, unless it was the last.
fn put_head<A: Allocator>(
    out: &mut Vec<u8, A>,
    head: &mut Head<A>,
    names: &[u8],
    form: &RowForm<'_>,
) -> Result<(), AllocError>
    ensures { OnOk result (PutsHead form.now out.old.items out.new.items) }
{
    match form {
        RowForm::Lines => Ok(()),
        RowForm::Json { .. } => Ok(()),
        RowForm::Csv => put_new_head(out, head, names),
    }
}

/// Appends a line for each row of an event, below a head of its columns in CSV, unless that was the last.
fn put_rows<A: Allocator, B: Allocator>(
    out: &mut Vec<u8, A>,
    room: &mut LineRoom<A>,
    map: &LastMap<'_, B>,
    place: u32,
    group: &GroupRows<'_>,
    style: &RowStyle<'_>,
) -> Result<(), AllocError>
    ensures { OnOk result (PutsRows style.now.form place (rows_by (rows_kind group.now.rows).action (rows_body group.now.rows).images) out.old.items out.new.items) }
{
    put_head(out, &mut room.head, &map.labels, &style.form)?;
    put_lines(out, room, map, place, group, style)?;
    Ok(())
}

/// Appends a line for each row of an event of groups, if its table is chosen.
fn put_event<'a, A: Allocator + Copy, C: Allocator>(
    alloc: A,
    out: &mut Vec<u8, A>,
    room: &mut LineRoom<A>,
    map: &mut LastMap<'a, A>,
    source: &Source<C>,
    event: &GroupEvent<'a>,
    choice: &TableChoice<'_>,
    style: &RowStyle<'_>,
) -> Result<(), AllocError>
    requires { IsWhole event.now }
    ensures { OnOk result (ShowsEvent style.now.form (choice_value choice.now) (source_place source.now) (event_seen event.now) out.old.items out.new.items) }
{
    match event {
        GroupEvent::Rows(group) => {
            if !choice.has(group.table.schema(), group.table.table()) {
                return Ok(());
            }
            map.read(alloc, group.map.body, &group.rows.layout(), &style.form)?;
            put_rows(out, room, map, source.place(group.event.pos), group, style)
        }
        GroupEvent::Begin(_) | GroupEvent::Map(_) | GroupEvent::End(_) => Ok(()),
    }
}

/// Appends a line for each row of chosen tables that the groups of an index change, in order, and in CSV the head of its columns in
/// front of the first and where they change. Positions are those of the server's log of which they are. Fails if out of memory.
pub fn put_unit<'a, A: Allocator + Copy, B: Allocator, C: Allocator>(
    alloc: A,
    out: &mut Vec<u8, A>,
    room: &mut LineRoom<A>,
    map: &mut LastMap<'a, A>,
    source: &Source<C>,
    index: &Index<'a, '_, B>,
    choice: &TableChoice<'_>,
    style: &RowStyle<'_>,
) -> Result<(), AllocError>
    ensures { OnOk result (ShowsEvents style.now.form (choice_value choice.now) (source_place source.now) (in_turn Forward (index_groups index.now)) out.old.items out.new.items) }
{
    room.parts.forget();
    for event in index.in_turn(Order::Forward) {
        put_event(alloc, out, room, map, source, &event, choice, style)?;
    }
    Ok(())
}
