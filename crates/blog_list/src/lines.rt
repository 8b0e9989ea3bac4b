//! Units as lines of text.

ghost use Rattle.std.specs.Prelude.{◌≡◌, ◌++◌, ◌≤◌, ◌-◌, OnOk, codes, option_copied, option_map, string_bytes};
ghost use Rattle.blog_event.specs.code.LogView.{log_bytes};
ghost use Rattle.blog_units.specs.code.UnitsView.{id_told};
ghost use Rattle.blog_list.specs.Lines.{changes_text, explained, fault_text, header, id_column, id_text, is_unknown, name_line, positions_text, refusal_text, rest_text, tag_text, thread_text, unit_line};
ghost use Rattle.blog_list.specs.Shown.{changes_shown, refusal_of};
ghost use Rattle.blog_list.specs.code.Told.{PutsLine, shown_told, source_place};
ghost use Rattle.blog_request.specs.Wanted.{changes_told};

use crate::column::TimeColumn;
use crate::fault_events::{name_in, statement_of, words_of};
use crate::texts::{put_padded, put_server};
use blog_event::{Fault, Log};
use blog_source::Source;
use blog_text::{put_beginning, put_escaped, put_number, put_rows, put_text};
use blog_units::{GlobalId, Unit};
use std::alloc::{AllocError, Allocator};

/// The most characters of a statement's text: many of them can be in no column.
const TEXT_CHARACTERS: usize = 240;

/// Appends the line above all others, with a heading of global transaction ids or without.
#[tactic(auto, unfolding(crate::specs::Lines::header))]
pub(crate) fn put_header<A: Allocator + Copy>(
    out: &mut Vec<u8, A>,
    times: &TimeColumn<'_, A>,
    gtids: bool,
) -> Result<(), AllocError>
    ensures { OnOk result (out.new.items ≡ out.old.items ++ header gtids times.now.heading.items) }
{
    put_text(out, b"     start       stop  ")?;
    times.put_heading(out)?;
    put_text(out, b"      thread  ")?;
    if gtids {
        put_text(out, b"gtid  rows\n")
    } else {
        put_text(out, b"rows\n")
    }
}

/// Appends the line with a log's name, if there is one. Fails if out of memory.
#[tactic(auto, unfolding(crate::specs::Lines::name_line))]
pub fn put_name<A: Allocator>(out: &mut Vec<u8, A>, name: Option<&[u8]>) -> Result<(), AllocError>
    ensures { OnOk result (out.new.items ≡ out.old.items ++ name_line (option_copied name.entry)) }
{
    match name {
        Some(name) => {
            put_escaped(out, name)?;
            put_text(out, b":\n")
        }
        None => Ok(()),
    }
}

/// Appends the line of a unit, with positions of the server's log, and with its global transaction id or without.
#[tactic(auto, unfolding(crate::specs::Lines::unit_line))]
pub(crate) fn put_unit<A: Allocator + Copy>(
    out: &mut Vec<u8, A>,
    times: &TimeColumn<'_, A>,
    gtids: bool,
    source: &Source<A>,
    log: &Log<'_>,
    unit: &Unit<'_, A>,
) -> Result<(), AllocError>
    ensures { OnOk result (PutsLine times.now gtids (shown_told (log_bytes log.now) (source_place source.now) unit.now) out.old.items out.new.items) }
{
    put_positions(
        out,
        source.place(unit.facts.start),
        source.place(unit.facts.stop),
    )?;
    times.put_time(out, unit.facts.time)?;
    put_rest(out, gtids, times.room(), source, log, unit)
}

/// Appends where a unit starts and stops.
#[tactic(auto, unfolding(crate::specs::Lines::positions_text))]
fn put_positions<A: Allocator>(
    out: &mut Vec<u8, A>,
    start: u32,
    stop: u32,
) -> Result<(), AllocError>
    ensures { OnOk result (out.new.items ≡ out.old.items ++ positions_text start stop) }
{
    put_padded(out, start)?;
    put_text(out, b" ")?;
    put_padded(out, stop)?;
    put_text(out, b"  ")
}

/// Appends what the line of a unit has behind its time, with this room for what it changes.
#[tactic(auto, unfolding(crate::specs::Lines::rest_text))]
fn put_rest<A: Allocator + Copy>(
    out: &mut Vec<u8, A>,
    gtids: bool,
    room: usize,
    source: &Source<A>,
    log: &Log<'_>,
    unit: &Unit<'_, A>,
) -> Result<(), AllocError>
    requires { room ≤ 63 }
    ensures { OnOk result (out.new.items ≡ out.old.items ++ rest_text gtids room (shown_told (log_bytes log.now) (source_place source.now) unit.now)) }
{
    put_text(out, b"  ")?;
    put_thread(out, unit.facts.thread)?;
    put_text(out, b"  ")?;
    put_id_column(out, gtids, unit.facts.id)?;
    put_changes(out, room, source, log, unit)?;
    put_text(out, b"\n")
}

/// Appends the thread of a unit, or as many blanks.
fn put_thread<A: Allocator>(out: &mut Vec<u8, A>, thread: Option<u32>) -> Result<(), AllocError>
    ensures { OnOk result (out.new.items ≡ out.old.items ++ thread_text thread) }
{
    match thread {
        Some(thread) => put_padded(out, thread),
        None => put_text(out, b"          "),
    }
}

/// Appends a global transaction id and two blanks, where ids are asked for and there is one.
fn put_id_column<A: Allocator>(
    out: &mut Vec<u8, A>,
    gtids: bool,
    id: Option<GlobalId<'_>>,
) -> Result<(), AllocError>
    ensures { OnOk result (out.new.items ≡ out.old.items ++ id_column gtids (option_map id_told id.entry)) }
{
    if !gtids {
        return Ok(());
    }
    match id {
        Some(id) => {
            put_id(out, &id)?;
            put_text(out, b"  ")
        }
        None => Ok(()),
    }
}

/// Appends a global transaction id, as MySQL prints it, or `?` for one of zeros.
#[tactic(auto, unfolding(crate::specs::Lines::id_text))]
pub(crate) fn put_id<A: Allocator>(
    out: &mut Vec<u8, A>,
    id: &GlobalId<'_>,
) -> Result<(), AllocError>
    ensures { OnOk result (out.new.items ≡ out.old.items ++ id_text (id_told id.now)) }
{
    if is_unknown(id) {
        return put_text(out, b"?");
    }
    put_server(out, id.server)?;
    put_text(out, b":")?;
    put_tag(out, id.tag)?;
    put_number(out, id.number)
}

/// Whether an id is of zeros.
fn is_unknown(id: &GlobalId<'_>) -> bool
    ensures { result ≡ is_unknown (id_told id.now) }
{
    id.server == [0; 16].as_slice() && id.number == 0
}

/// Appends a tag, escaped, and a colon, where there is one.
fn put_tag<A: Allocator>(out: &mut Vec<u8, A>, tag: &[u8]) -> Result<(), AllocError>
    ensures { OnOk result (out.new.items ≡ out.old.items ++ tag_text tag.now) }
{
    if tag.is_empty() {
        return Ok(());
    }
    put_escaped(out, tag)?;
    put_text(out, b":")
}

/// Appends what a unit changes, or why it can't be undone, in this room.
fn put_changes<A: Allocator + Copy>(
    out: &mut Vec<u8, A>,
    room: usize,
    source: &Source<A>,
    log: &Log<'_>,
    unit: &Unit<'_, A>,
) -> Result<(), AllocError>
    requires { room ≤ 63 }
    ensures { OnOk result (out.new.items ≡ out.old.items ++ changes_text room (changes_shown (log_bytes log.now) (source_place source.now) unit.now.facts.stop (changes_told unit.now.groups))) }
{
    match &unit.groups {
        Ok(groups) => put_rows(out, room, groups),
        Err(fault) => put_refusal(out, room, source, log, fault, unit.facts.stop),
    }
}

/// Appends why a unit can't be undone that stops at a position, in this many columns of a terminal if its name and its position fit. Fails if out of
/// memory.
pub fn put_refusal<A: Allocator>(
    out: &mut Vec<u8, A>,
    room: usize,
    source: &Source<A>,
    log: &Log<'_>,
    fault: &Fault,
    stop: u32,
) -> Result<(), AllocError>
    ensures { OnOk result (out.new.items ≡ out.old.items ++ refusal_text room (refusal_of (log_bytes log.now) (source_place source.now) stop fault.now)) }
{
    let before = out.len();
    put_fault(out, name_in(log, fault, stop), source.at_place(fault).at())?;
    let left = room.saturating_sub(out.len() - before);
    if let Some(text) = statement_of(log, fault, stop) {
        put_explained(out, left, text)?;
    }
    if let Some(words) = words_of(log, fault, stop) {
        put_explained(out, left, words.as_bytes())?;
    }
    Ok(())
}

/// Appends a colon and the beginning of a text that explains a fault, in this room.
fn put_explained<A: Allocator>(
    out: &mut Vec<u8, A>,
    room: usize,
    text: &[u8],
) -> Result<(), AllocError>
    ensures { OnOk result (out.new.items ≡ out.old.items ++ explained room text.now) }
{
    put_text(out, b": ")?;
    put_beginning(out, text, room.saturating_sub(4), TEXT_CHARACTERS)
}

/// Appends the name of a fault, and its position, if it has one.
#[tactic(auto, unfolding(crate::specs::Lines::fault_text))]
fn put_fault<A: Allocator>(
    out: &mut Vec<u8, A>,
    name: &str,
    position: Option<u32>,
) -> Result<(), AllocError>
    ensures { OnOk result (out.new.items ≡ out.old.items ++ fault_text name.now position) }
{
    put_text(out, name.as_bytes())?;
    match position {
        Some(pos) => {
            put_text(out, b" at ")?;
            put_number(out, u64::from(pos))
        }
        None => Ok(()),
    }
}
